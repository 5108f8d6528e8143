//! Parsing of `continue`, `break` and `return`.
ghost use Rattle.std.specs.Prelude.{◌≡◌, ◌+◌, ◌≤◌, IfOk};
ghost use Rattle.lay_code.specs.reader.Exprs as reader;
ghost use Rattle.lay_read_tokens.specs.Answers.{IsFound};
ghost use Rattle.lay_read_shared.specs.Code.{code_within};
ghost use Rattle.lay_read_operators.specs.Answers.{AreExprs};

use crate::climber::Climber;
use lay_code::{Boxed, Expr, Place};
use lay_read_parts::joins::both;
use lay_read_parts::parts::read_lifetime_if;
use lay_read_shared::boxes::boxed_found;
use lay_read_tokens::{Ahead, Found, ReadNone};
use std::alloc::Global;

/// Parses a `continue` after that word.
#[tactic(auto, unfolding(lay_code::specs::reader::Exprs::continue_expr))]
pub fn continue_expr(alloc: Global, at: &mut Ahead<'_>) -> Result<Found<Boxed<Expr>>, ReadNone>
    ensures read { IsFound (reader.continue_expr at.old) result at.new }
    ensures within { IfOk result (λ found. found.need ≡ 1) }
{
    let label = read_lifetime_if(alloc, at)?;
    boxed_found(alloc, Expr::Continue { label }, 1)
}

impl<P: Fn(Global, &mut Ahead<'_>, Place, u32) -> Result<Found<Boxed<Expr>>, ReadNone>, H> Climber<
    P,
    H,
> {
    /// Parses a `return` after that word.
    #[tactic(auto, unfolding(lay_code::specs::reader::Exprs::return_expr))]
    #[inline(never)]
    pub fn return_expr(
        &self,
        at: &mut Ahead<'_>,
        no_struct: bool,
    ) -> Result<Found<Boxed<Expr>>, ReadNone>
        requires { AreExprs self.now.rules.depth (P.pre self.now.rules.exprs)
            (P.post self.now.rules.exprs) }
        ensures read { IsFound (reader.return_expr (code_within self.now.rules.depth) no_struct
            at.old) result at.new }
        ensures within { IfOk result (λ found. found.need ≤ self.now.rules.depth + 1) }
    {
        let found = self.rules.operand_if(at, 0, no_struct)?;
        boxed_found(
            self.rules.alloc,
            Expr::Return {
                operand: found.node,
            },
            found.need + 1,
        )
    }

    /// Parses a `break` after that word.
    #[tactic(auto, unfolding(lay_code::specs::reader::Exprs::break_expr))]
    #[inline(never)]
    pub fn break_expr(
        &self,
        at: &mut Ahead<'_>,
        no_struct: bool,
    ) -> Result<Found<Boxed<Expr>>, ReadNone>
        requires { AreExprs self.now.rules.depth (P.pre self.now.rules.exprs)
            (P.post self.now.rules.exprs) }
        ensures read { IsFound (reader.break_expr (code_within self.now.rules.depth) no_struct
            at.old) result at.new }
        ensures within { IfOk result (λ found. found.need ≤ self.now.rules.depth + 1) }
    {
        let label = read_lifetime_if(self.rules.alloc, at)?;
        let (label, found) = both(label, self.rules.operand_if(at, 0, no_struct))?;
        boxed_found(
            self.rules.alloc,
            Expr::Break {
                label,
                operand: found.node,
            },
            found.need + 1,
        )
    }
}
