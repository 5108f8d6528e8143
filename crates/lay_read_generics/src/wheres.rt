//! Parsing of where clauses.
ghost use Rattle.std.specs.Prelude.{◌≤◌, IfOk};
ghost use Rattle.lay_node.specs.Begins.{begins_predicate};
ghost use Rattle.lay_node.specs.reader.Loops.{open_elements};
ghost use Rattle.lay_node.specs.reader.Types.{within};
ghost use Rattle.lay_node.specs.reader.Where as reader;
ghost use Rattle.lay_read_tokens.specs.Answers.{IsFound};
ghost use Rattle.lay_read_parts.specs.Answers.{gathered_open};

use crate::level::Level;
use lay_node::{Predicate, Ty, TypePlace, Wheres};
use lay_read_parts::joins::{both, refused};
use lay_read_parts::leads::is_at_lifetime;
use lay_read_parts::loops::{Opening, Part, read_open_elements};
use lay_read_parts::parts::{read_binder_if, read_lifetime, read_lifetimes};
use lay_read_tokens::found::greater;
use lay_read_tokens::front::{takes_keyword, takes_op};
use lay_read_tokens::{Ahead, Found, ReadNone};
use lay_read_types::type_ahead;
use lay_token::List;
use std::alloc::Global;

/// Predicates as the elements of a where clause.
pub struct Predicates;

impl Part<Predicate, ()> for Predicates {
    ghost reads = { λ depth place ts. reader.one_predicate (within depth) ts };
}

impl Level {
    /// Parses a predicate of a type.
    #[tactic(auto, unfolding(lay_node::specs::reader::Where::type_predicate))]
    fn type_predicate(&self, at: &mut Ahead<'_>) -> Result<Found<Predicate>, ReadNone>
        ensures read { IsFound (reader.type_predicate (within self.now.depth) at.old) result
            at.new }
        ensures within { IfOk result (λ found. found.need ≤ self.now.depth) }
    {
        let binder = read_binder_if(self.alloc, at)?;
        let ty = type_ahead(self.alloc, at, TypePlace::Bounds, self.depth)?;
        if !takes_op(at, b":") {
            return refused(ty);
        }
        let (ty, bounds) = both(ty, self.met(at))?;
        Ok(Found {
            need: greater(ty.need, bounds.need),
            node: Predicate::Bounded {
                binder,
                ty: ty.node,
                bounds: bounds.node,
            },
        })
    }

    /// Parses a predicate.
    #[tactic(auto, unfolding(lay_node::specs::reader::Where::lifetime_predicate))]
    fn predicate(&self, at: &mut Ahead<'_>, _place: ()) -> Result<Found<Predicate>, ReadNone>
        ensures read { IsFound (reader.one_predicate (within self.now.depth) at.old) result at.new }
        ensures within { IfOk result (λ found. found.need ≤ self.now.depth) }
    {
        if !is_at_lifetime(at) {
            return self.type_predicate(at);
        }
        let lifetime = read_lifetime(self.alloc, at)?;
        if !takes_op(at, b":") {
            return refused(lifetime);
        }
        let (lifetime, bounds) = both(lifetime, read_lifetimes(self.alloc, at))?;
        Ok(Found {
            node: Predicate::Region { lifetime, bounds },
            need: 0,
        })
    }

    /// Parses predicates as long as one begins.
    #[tactic(auto, using(crate::proofs::Left::predicate_leaves))]
    fn predicates(&self, at: &mut Ahead<'_>) -> Result<Found<(List<Predicate>, bool)>, ReadNone>
        ensures read { IsFound (gathered_open
            (open_elements begins_predicate (reader.one_predicate (within self.now.depth)) at.old))
            result at.new }
        ensures within { IfOk result (λ found. found.need ≤ self.now.depth) }
    {
        read_open_elements::<Predicates, Level, Predicate, (), _>(
            self.alloc,
            at,
            self.depth,
            Opening::Predicate,
            self,
            Level::predicate,
            (),
        )
    }

    /// Parses a where clause, if one comes next. The flag says that its last predicate has a comma,
    /// or that it is a `where` without predicates.
    #[tactic(auto, unfolding(lay_node::specs::reader::Where::wheres))]
    pub fn wheres(&self, at: &mut Ahead<'_>) -> Result<Found<(Wheres, bool)>, ReadNone>
        ensures read { IsFound (reader.wheres (within self.now.depth) at.old) result at.new }
        ensures within { IfOk result (λ found. found.need ≤ self.now.depth) }
    {
        if !takes_keyword(at, b"where") {
            let predicates = List::new(self.alloc);
            return Ok(Found {
                node: (Wheres { predicates }, false),
                need: 0,
            });
        }
        let Found { node, need } = self.predicates(at)?;
        let (predicates, last) = node;
        Ok(Found {
            node: (Wheres { predicates }, last),
            need,
        })
    }
}
