//! Parsing of patterns in delimiters, and of reference patterns.
ghost use Rattle.std.specs.Prelude.{◌≡◌, ◌+◌, ◌^◌, ◌<◌, ◌≤◌, ◌∷◌, [], max, IfOk};
ghost use Rattle.lay_node.specs.Ahead.{closes};
ghost use Rattle.lay_node.specs.declared.patterns.PatPlace.TheVariants.{Alternatives};
ghost use Rattle.lay_node.specs.reader.Loops.{elements};
ghost use Rattle.lay_node.specs.reader.Patterns as reader;
ghost use Rattle.lay_node.specs.reader.Patterns.{pat_at};
ghost use Rattle.lay_read_tokens.specs.Answers.{AreFound, IsFound, IsHeld, IsMade};
ghost use Rattle.lay_read_pats.specs.Answers.{ArePats, pats_within, tuple_behind};

use crate::facts::{is_rest, is_span};
use crate::rules::PatRules;
use lay_node::{Pat, PatPlace};
use lay_read_parts::joins::{both, prepended, refused};
use lay_read_parts::loops::{Closer, Part, read_elements};
use lay_read_tokens::found::greater;
use lay_read_tokens::front::{takes_closer, takes_keyword, takes_mark};
use lay_read_tokens::stop::{boxed, keep};
use lay_read_tokens::{Ahead, Found, ReadNone};
use lay_token::{Delim, List};
use std::alloc::Global;

/// Patterns of the next deeper level as the elements of a list.
pub struct Elements;

impl Part<Pat, PatPlace> for Elements {
    ghost reads = { λ depth place ts. pat_at place depth ts };
}

/// A list of one pattern.
fn only(alloc: Global, pat: Pat) -> Result<List<Pat>, ReadNone>
    ensures { IsMade (pat ∷ []) result }
{
    let mut pats = List::new(alloc);
    keep(&mut pats, pat)?;
    Ok(pats)
}

/// A pattern alone in parentheses, which were read: a tuple if it is `..`, else in parentheses.
fn alone_of(alloc: Global, at: &Ahead<'_>, found: Found<Pat>) -> Result<Found<Pat>, ReadNone>
    requires { found.need + 1 < 2 ^ 32 }
    ensures read { IsFound (reader.alone_of (found.node, found.need) at.now) result at.now }
    ensures within { IfOk result (λ made. made.need ≡ found.need + 1) }
{
    let need = found.need + 1;
    if is_rest(&found.node) {
        let elements = only(alloc, found.node)?;
        return Ok(Found {
            node: Pat::Tuple { elements },
            need,
        });
    }
    let inner = boxed(alloc, found.node)?;
    Ok(Found {
        node: Pat::Paren { inner },
        need,
    })
}

/// A tuple pattern of a first element and the others. After `..` alone it has no comma.
fn tuple_of(
    at: &Ahead<'_>,
    first: Found<Pat>,
    more: Found<List<Pat>>,
) -> Result<Found<Pat>, ReadNone>
    requires first { first.need + 1 < 2 ^ 32 }
    requires more { more.need + 1 < 2 ^ 32 }
    ensures read { IsFound (tuple_behind (first.node, first.need) more.node more.need at.now) result
        at.now }
    ensures within { IfOk result (λ tuple. tuple.need ≡ max first.need more.need + 1) }
{
    if more.node.as_slice().is_empty() && is_rest(&first.node) {
        return refused((first, more));
    }
    let need = greater(first.need, more.need) + 1;
    let elements = prepended(first.node, more.node)?;
    Ok(Found {
        node: Pat::Tuple { elements },
        need,
    })
}

impl<P: Fn(Global, &mut Ahead<'_>, PatPlace, u32) -> Result<Found<Pat>, ReadNone>> PatRules<P> {
    /// Parses patterns with commas between them, and the closing delimiter.
    #[tactic(auto, using(crate::proofs::Left::alternatives_leave))]
    pub fn elements(&self, at: &mut Ahead<'_>, delim: Delim) -> Result<Found<List<Pat>>, ReadNone>
        requires { ArePats self.now.depth (P.pre self.now.pats) (P.post self.now.pats) }
        ensures read { IsHeld AreFound (elements (closes delim) (pat_at Alternatives self.now.depth)
            at.old) result at.new }
        ensures within { IfOk result (λ found. found.need ≤ self.now.depth) }
    {
        read_elements::<Elements, PatRules<P>, Pat, PatPlace, _>(
            self.alloc,
            at,
            self.depth,
            Closer::Group(delim),
            self,
            PatRules::inner,
            PatPlace::Alternatives,
        )
    }

    /// Parses a pattern after its `&`.
    #[tactic(auto, unfolding(lay_node::specs::reader::Patterns::ref_pat), using(crate::proofs::Steps::flag_found, crate::proofs::Steps::flag_rest))]
    pub fn ref_pat(&self, at: &mut Ahead<'_>) -> Result<Found<Pat>, ReadNone>
        requires { ArePats self.now.depth (P.pre self.now.pats) (P.post self.now.pats) }
        ensures read { IsFound (reader.ref_pat (pats_within self.now.depth) at.old) result at.new }
        ensures within { IfOk result (λ found. found.need ≤ self.now.depth + 1) }
    {
        let mutable = takes_keyword(at, b"mut");
        let found = self.inner(at, PatPlace::Single)?;
        if is_span(&found.node) {
            return refused(found);
        }
        let need = found.need + 1;
        let inner = boxed(self.alloc, found.node)?;
        Ok(Found {
            node: Pat::Ref { mutable, inner },
            need,
        })
    }

    /// Parses a pattern after its `[`.
    #[tactic(auto, unfolding(lay_node::specs::reader::Patterns::slice_pat))]
    pub fn slice_pat(&self, at: &mut Ahead<'_>) -> Result<Found<Pat>, ReadNone>
        requires { ArePats self.now.depth (P.pre self.now.pats) (P.post self.now.pats) }
        ensures read { IsFound (reader.slice_pat (pats_within self.now.depth) at.old) result
            at.new }
        ensures within { IfOk result (λ found. found.need ≤ self.now.depth + 1) }
    {
        let found = self.elements(at, Delim::Bracket)?;
        Ok(Found {
            node: Pat::Slice {
                elements: found.node,
            },
            need: found.need + 1,
        })
    }

    /// Parses a pattern after its `(`.
    #[tactic(auto, unfolding(lay_node::specs::reader::Patterns::paren_pat))]
    pub fn paren_pat(&self, at: &mut Ahead<'_>) -> Result<Found<Pat>, ReadNone>
        requires { ArePats self.now.depth (P.pre self.now.pats) (P.post self.now.pats) }
        ensures read { IsFound (reader.paren_pat (pats_within self.now.depth) at.old) result
            at.new }
        ensures within { IfOk result (λ found. found.need ≤ self.now.depth + 1) }
    {
        if takes_closer(at, Delim::Paren) {
            let elements = List::new(self.alloc);
            return Ok(Found {
                node: Pat::Tuple { elements },
                need: 1,
            });
        }
        let first = self.inner(at, PatPlace::Alternatives)?;
        self.paren_by(at, first)
    }

    /// Parses a pattern after its `(` and the first pattern in it.
    fn paren_by(&self, at: &mut Ahead<'_>, first: Found<Pat>) -> Result<Found<Pat>, ReadNone>
        requires deeper { ArePats self.now.depth (P.pre self.now.pats) (P.post self.now.pats) }
        requires within { first.need ≤ self.now.depth }
        ensures read { IsFound (reader.paren_by (pats_within self.now.depth)
            (first.node, first.need) at.old) result at.new }
        ensures within { IfOk result (λ found. found.need ≤ self.now.depth + 1) }
    {
        if takes_closer(at, Delim::Paren) {
            return alone_of(self.alloc, at, first);
        }
        if !takes_mark(at, b",") {
            return refused(first);
        }
        let (first, more) = both(first, self.elements(at, Delim::Paren))?;
        tuple_of(at, first, more)
    }
}
