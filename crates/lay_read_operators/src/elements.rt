//! Parsing of expressions with commas between them, in delimiters.
ghost use Rattle.std.specs.Prelude.{◌≤◌, IfOk};
ghost use Rattle.lay_node.specs.Ahead.{closes};
ghost use Rattle.lay_code.specs.reader.Exprs as reader;
ghost use Rattle.lay_code.specs.reader.Code.{expr_at};
ghost use Rattle.lay_read_tokens.specs.Answers.{IsFound};
ghost use Rattle.lay_read_shared.specs.Code.{code_within};
ghost use Rattle.lay_read_operators.specs.Answers.{AreExprs};

use crate::rules::ExprRules;
use lay_code::{Boxed, Expr, Place};
use lay_ops::places::FREE;
use lay_read_parts::loops::{Closer, Part, read_elements};
use lay_read_shared::boxes::unboxed;
use lay_read_tokens::{Ahead, Found, ReadNone};
use lay_token::{Delim, List};
use std::alloc::Global;

/// Expressions of the next deeper level as the elements of a list.
pub struct Elements;

impl Part<Boxed<Expr>, Place> for Elements {
    ghost reads = { λ depth place ts. expr_at place depth ts };
}

impl<P: Fn(Global, &mut Ahead<'_>, Place, u32) -> Result<Found<Boxed<Expr>>, ReadNone>> ExprRules<
    P,
> {
    /// Parses expressions with commas between them, and the closing delimiter. Each is boxed.
    #[tactic(auto, using(lay_read_shared::proofs::Left::exprs_leave))]
    #[inline(never)]
    pub fn boxed_elements(
        &self,
        at: &mut Ahead<'_>,
        delim: Delim,
    ) -> Result<Found<List<Boxed<Expr>>>, ReadNone>
        requires { AreExprs self.now.depth (P.pre self.now.exprs) (P.post self.now.exprs) }
        ensures read { IsFound (reader.free_elements (code_within self.now.depth) (closes delim)
            at.old) result at.new }
        ensures within { IfOk result (λ found. found.need ≤ self.now.depth) }
    {
        read_elements::<Elements, ExprRules<P>, Boxed<Expr>, Place, _>(
            self.alloc,
            at,
            self.depth,
            Closer::Group(delim),
            self,
            ExprRules::inner,
            FREE,
        )
    }

    /// Parses expressions with commas between them, and the closing delimiter.
    #[inline(never)]
    pub fn free_elements(
        &self,
        at: &mut Ahead<'_>,
        delim: Delim,
    ) -> Result<Found<List<Expr>>, ReadNone>
        requires { AreExprs self.now.depth (P.pre self.now.exprs) (P.post self.now.exprs) }
        ensures read { IsFound (reader.free_elements (code_within self.now.depth) (closes delim)
            at.old) result at.new }
        ensures within { IfOk result (λ found. found.need ≤ self.now.depth) }
    {
        let found = self.boxed_elements(at, delim)?;
        let node = unboxed(self.alloc, found.node)?;
        Ok(Found {
            node,
            need: found.need,
        })
    }
}
