//! Parsing of postfix steps.
ghost use Rattle.std.specs.Prelude.{◌≡◌, ◌+◌, ◌≤◌, true, IfOk};
ghost use Rattle.lay_node.specs.Ahead.{opens_args_late};
ghost use Rattle.lay_node.specs.reader.Types.{within};
ghost use Rattle.lay_code.specs.reader.Exprs as reader;
ghost use Rattle.lay_read_tokens.specs.Answers.{IsFound};
ghost use Rattle.lay_read_shared.specs.Code.{code_within};
ghost use Rattle.lay_read_operators.specs.Answers.{AreExprs, bracket_step, generic_method, late_args};

use crate::numbers::{begins_tuple_index, is_at_tuple_index};
use crate::rules::ExprRules;
use lay_code::{Arg, Args, Boxed, Expr, Name, PathStyle, Place, Step};
use lay_ops::is_number;
use lay_ops::places::FREE;
use lay_read_parts::joins::{both, refused};
use lay_read_parts::leads::opens_args_late;
use lay_read_parts::loops::Part;
use lay_read_parts::parts::read_literal;
use lay_read_shared::boxes::boxed_found;
use lay_read_shared::loops::{Going, read_parts};
use lay_read_tokens::found::greater;
use lay_read_tokens::front::{is_at_opened, takes_closer, takes_keyword, takes_op, takes_opener};
use lay_read_tokens::names::read_name;
use lay_read_tokens::{Ahead, Found, ReadNone};
use lay_read_types::args_ahead;
use lay_token::{Delim, List};
use std::alloc::Global;

/// Postfix steps as consecutive parts.
pub struct Steps;

impl Part<Step, ()> for Steps {
    ghost reads = { λ depth place ts. reader.one_step (code_within depth) ts };
}

/// Parses the generic arguments after a `::`.
#[tactic(auto, unfolding(lay_node::specs::reader::Types::args_by, lay_node::specs::reader::Types::angle))]
fn read_late_args(
    alloc: Global,
    at: &mut Ahead<'_>,
    depth: u32,
) -> Result<Found<List<Arg>>, ReadNone>
    requires { opens_args_late at.old ≡ true }
    ensures read { IsFound (late_args (within depth) at.old) result at.new }
    ensures within { IfOk result (λ found. found.need ≤ depth) }
{
    let found = args_ahead(alloc, at, PathStyle::Code, depth)?;
    let Found { node, need } = found;
    match node {
        Args::Angle { args } => Ok(Found { node: args, need }),
        _ => Err(ReadNone::NoReading),
    }
}

impl<P: Fn(Global, &mut Ahead<'_>, Place, u32) -> Result<Found<Boxed<Expr>>, ReadNone>> ExprRules<
    P,
> {
    /// Parses the postfix steps after an expression, and gives the whole. A tuple index may not
    /// directly follow a number without suffix.
    #[tactic(auto, unfolding(lay_code::specs::reader::Exprs::postfix_expr), using(lay_read_shared::proofs::Left::step_leaves))]
    #[inline(never)]
    pub fn postfix_expr(
        &self,
        at: &mut Ahead<'_>,
        lhs: Found<Boxed<Expr>>,
    ) -> Result<Found<Boxed<Expr>>, ReadNone>
        requires deeper { AreExprs self.now.depth (P.pre self.now.exprs) (P.post self.now.exprs) }
        requires within { lhs.need ≤ self.now.depth }
        ensures read { IsFound (reader.postfix_expr (code_within self.now.depth)
            (lhs.node, lhs.need) at.old) result at.new }
        ensures within { IfOk result (λ found. found.need ≤ self.now.depth + 1) }
    {
        if is_number(lhs.node.get()) && begins_tuple_index(at) {
            return refused(lhs);
        }
        let (lhs, found) = both(
            lhs,
            read_parts::<Steps, ExprRules<P>, Step, (), _>(
                self.alloc,
                at,
                self.depth,
                Going::Steps,
                self,
                ExprRules::one_step,
                (),
            ),
        )?;
        boxed_found(
            self.alloc,
            Expr::Postfix {
                base: lhs.node,
                steps: found.node,
            },
            greater(lhs.need, found.need) + 1,
        )
    }

    /// Parses a postfix step.
    #[tactic(auto, unfolding(lay_code::specs::reader::Exprs::one_step))]
    #[inline(never)]
    fn one_step(&self, at: &mut Ahead<'_>, _place: ()) -> Result<Found<Step>, ReadNone>
        requires { AreExprs self.now.depth (P.pre self.now.exprs) (P.post self.now.exprs) }
        ensures read { IsFound (reader.one_step (code_within self.now.depth) at.old) result at.new }
        ensures within { IfOk result (λ found. found.need ≤ self.now.depth) }
    {
        if takes_op(at, b".") {
            self.dot_step(at)
        } else if takes_op(at, b"?") {
            Ok(Found {
                node: Step::Try,
                need: 0,
            })
        } else if takes_opener(at, Delim::Paren) {
            let found = self.free_elements(at, Delim::Paren)?;
            Ok(Found {
                node: Step::Apply { args: found.node },
                need: found.need,
            })
        } else {
            self.bracket_step(at)
        }
    }

    /// Parses an index after its `[`.
    #[inline(never)]
    fn bracket_step(&self, at: &mut Ahead<'_>) -> Result<Found<Step>, ReadNone>
        requires { AreExprs self.now.depth (P.pre self.now.exprs) (P.post self.now.exprs) }
        ensures read { IsFound (bracket_step (code_within self.now.depth) at.old) result at.new }
        ensures within { IfOk result (λ found. found.need ≤ self.now.depth) }
    {
        if !takes_opener(at, Delim::Bracket) {
            return Err(ReadNone::NoReading);
        }
        let found = self.inner(at, FREE)?;
        if !takes_closer(at, Delim::Bracket) {
            return refused(found);
        }
        Ok(Found {
            need: found.need,
            node: Step::Index { index: found.node },
        })
    }

    /// Parses a postfix step after its `.`.
    #[tactic(auto, unfolding(lay_code::specs::reader::Exprs::dot_step), using(lay_read_parts::proofs::Steps::literal_is))]
    #[inline(never)]
    fn dot_step(&self, at: &mut Ahead<'_>) -> Result<Found<Step>, ReadNone>
        requires { AreExprs self.now.depth (P.pre self.now.exprs) (P.post self.now.exprs) }
        ensures read { IsFound (reader.dot_step (code_within self.now.depth) at.old) result at.new }
        ensures within { IfOk result (λ found. found.need ≤ self.now.depth) }
    {
        if takes_keyword(at, b"await") {
            return Ok(Found {
                node: Step::Await,
                need: 0,
            });
        }
        if is_at_tuple_index(at) {
            let index = read_literal(self.alloc, at, true)?;
            return Ok(Found {
                node: Step::TupleIndex { index: index.text },
                need: 0,
            });
        }
        let name = read_name(self.alloc, at)?;
        self.member(at, name)
    }

    /// Parses a field access or a method call after its name.
    #[inline(never)]
    fn member(&self, at: &mut Ahead<'_>, name: Name) -> Result<Found<Step>, ReadNone>
        requires { AreExprs self.now.depth (P.pre self.now.exprs) (P.post self.now.exprs) }
        ensures read { IsFound (reader.member_by (code_within self.now.depth) name at.old) result
            at.new }
        ensures within { IfOk result (λ found. found.need ≤ self.now.depth) }
    {
        if is_at_opened(at, Delim::Paren) {
            let generics = Found {
                node: None,
                need: 0,
            };
            self.method(at, name, generics)
        } else if opens_args_late(at) {
            self.generic_method(at, name)
        } else if at.op_is(b"::") {
            refused(name)
        } else {
            Ok(Found {
                node: Step::Field { name },
                need: 0,
            })
        }
    }

    /// Parses a method call with generic arguments, after its name.
    #[inline(never)]
    fn generic_method(&self, at: &mut Ahead<'_>, name: Name) -> Result<Found<Step>, ReadNone>
        requires deeper { AreExprs self.now.depth (P.pre self.now.exprs) (P.post self.now.exprs) }
        requires late { opens_args_late at.old ≡ true }
        ensures read { IsFound (generic_method (code_within self.now.depth) name at.old) result
            at.new }
        ensures within { IfOk result (λ found. found.need ≤ self.now.depth) }
    {
        let (name, found) = both(name, read_late_args(self.alloc, at, self.depth))?;
        let generics = Found {
            node: Some(found.node),
            need: found.need,
        };
        self.method(at, name, generics)
    }

    /// Parses the arguments of a method, after its name and its generic arguments.
    #[inline(never)]
    fn method(
        &self,
        at: &mut Ahead<'_>,
        name: Name,
        generics: Found<Option<List<Arg>>>,
    ) -> Result<Found<Step>, ReadNone>
        requires deeper { AreExprs self.now.depth (P.pre self.now.exprs) (P.post self.now.exprs) }
        requires within { generics.need ≤ self.now.depth }
        ensures read { IsFound (reader.method_by
            (code_within self.now.depth) name generics.node generics.need at.old) result at.new }
        ensures within { IfOk result (λ found. found.need ≤ self.now.depth) }
    {
        if !takes_opener(at, Delim::Paren) {
            return refused((name, generics));
        }
        let (head, found) = both((name, generics), self.free_elements(at, Delim::Paren))?;
        let (name, generics) = head;
        Ok(Found {
            need: greater(generics.need, found.need),
            node: Step::Method {
                name,
                generics: generics.node,
                args: found.node,
            },
        })
    }
}
