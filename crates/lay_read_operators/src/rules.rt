//! The rules of one level, over the reader of the next deeper level.
ghost use Rattle.std.specs.Prelude.{◌≡◌, ◌≤◌, IfOk};
ghost use Rattle.lay_code.specs.reader.Code.{expr_at};
ghost use Rattle.lay_read_tokens.specs.Answers.{IsFound};
ghost use Rattle.lay_read_operators.specs.Answers.{AreExprs};

use lay_code::{Boxed, Expr, Place};
use lay_read_tokens::{Ahead, Found, ReadNone};
use std::alloc::Global;

/// The rules of one level, over the reader of expressions of the next deeper level, at a place.
#[derive(Drop)]
pub struct ExprRules<P> {
    pub alloc: Global,
    /// The depth limit of the next deeper level.
    pub depth: u32,
    pub exprs: P,
}

impl<P: Fn(Global, &mut Ahead<'_>, Place, u32) -> Result<Found<Boxed<Expr>>, ReadNone>> ExprRules<
    P,
> {
    /// Parses an expression of the next deeper level, and boxes it.
    #[inline(never)]
    pub fn inner(&self, at: &mut Ahead<'_>, place: Place) -> Result<Found<Boxed<Expr>>, ReadNone>
        requires { AreExprs self.now.depth (P.pre self.now.exprs) (P.post self.now.exprs) }
        ensures read { IsFound (expr_at place self.now.depth at.old) result at.new }
        ensures within { IfOk result (λ found. found.need ≤ self.now.depth) }
    {
        (self.exprs)(self.alloc, at, place, self.depth)
    }
}
