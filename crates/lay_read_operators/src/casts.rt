//! Parsing of casts.
ghost use Rattle.std.specs.Prelude.{◌≡◌, ◌+◌, ◌≤◌, IfOk};
ghost use Rattle.lay_code.specs.reader.Exprs as reader;
ghost use Rattle.lay_read_tokens.specs.Answers.{IsFound};
ghost use Rattle.lay_read_shared.specs.Code.{code_within};
ghost use Rattle.lay_read_operators.specs.Answers.{AreExprs};

use crate::rules::ExprRules;
use lay_code::{Boxed, Expr, Place, Ty, TypePlace};
use lay_read_parts::joins::both;
use lay_read_parts::loops::Part;
use lay_read_shared::boxes::boxed_found;
use lay_read_shared::loops::{Going, read_parts};
use lay_read_tokens::found::greater;
use lay_read_tokens::front::takes_keyword;
use lay_read_tokens::{Ahead, Found, ReadNone};
use lay_read_types::type_ahead;
use lay_token::List;
use std::alloc::Global;

/// Types after `as` as consecutive parts.
pub struct Types;

impl Part<Ty, ()> for Types {
    ghost reads = { λ depth place ts. reader.one_type (code_within depth) ts };
}

impl<P: Fn(Global, &mut Ahead<'_>, Place, u32) -> Result<Found<Boxed<Expr>>, ReadNone>> ExprRules<
    P,
> {
    /// Parses a type after its `as`.
    #[tactic(auto, unfolding(lay_code::specs::reader::Exprs::one_type))]
    #[inline(never)]
    fn one_type(&self, at: &mut Ahead<'_>, _place: ()) -> Result<Found<Ty>, ReadNone>
        requires { AreExprs self.now.depth (P.pre self.now.exprs) (P.post self.now.exprs) }
        ensures read { IsFound (reader.one_type (code_within self.now.depth) at.old) result at.new }
        ensures within { IfOk result (λ found. found.need ≤ self.now.depth) }
    {
        if takes_keyword(at, b"as") {
            type_ahead(self.alloc, at, TypePlace::NoBounds, self.depth)
        } else {
            Err(ReadNone::NoReading)
        }
    }

    /// Parses the casts after an expression, and gives the whole.
    #[tactic(auto, unfolding(lay_code::specs::reader::Exprs::cast_expr), using(lay_read_shared::proofs::Left::type_leaves))]
    #[inline(never)]
    pub fn cast_expr(
        &self,
        at: &mut Ahead<'_>,
        lhs: Found<Boxed<Expr>>,
    ) -> Result<Found<Boxed<Expr>>, ReadNone>
        requires deeper { AreExprs self.now.depth (P.pre self.now.exprs) (P.post self.now.exprs) }
        requires within { lhs.need ≤ self.now.depth }
        ensures read { IsFound (reader.cast_expr (code_within self.now.depth) (lhs.node, lhs.need)
            at.old) result at.new }
        ensures within { IfOk result (λ found. found.need ≤ self.now.depth + 1) }
    {
        let (lhs, found) = both(
            lhs,
            read_parts::<Types, ExprRules<P>, Ty, (), _>(
                self.alloc,
                at,
                self.depth,
                Going::Types,
                self,
                ExprRules::one_type,
                (),
            ),
        )?;
        boxed_found(
            self.alloc,
            Expr::Cast {
                operand: lhs.node,
                types: found.node,
            },
            greater(lhs.need, found.need) + 1,
        )
    }
}
