//! Parsing of operands that begin with a token of their own.
ghost use Rattle.std.specs.Prelude.{◌+◌, ◌≤◌, IfOk};
ghost use Rattle.lay_read_tokens.specs.Answers.{IsFound};
ghost use Rattle.lay_read_shared.specs.Code.{code_within};
ghost use Rattle.lay_read_exprs.specs.Answers.{marked};
ghost use Rattle.lay_read_operators.specs.Answers.{AreExprs};

use crate::climber::Climber;
use crate::jumps::continue_expr;
use lay_code::{Boxed, Expr, Place};
use lay_ops::operands::ExprLead;
use lay_read_shared::boxes::boxed_found;
use lay_read_tokens::{Ahead, Found, ReadNone};
use std::alloc::Global;

impl<P: Fn(Global, &mut Ahead<'_>, Place, u32) -> Result<Found<Boxed<Expr>>, ReadNone>, H> Climber<
    P,
    H,
> {
    /// Parses an operand after its first token.
    #[inline(never)]
    pub fn marked(
        &self,
        at: &mut Ahead<'_>,
        no_struct: bool,
        lead: ExprLead,
    ) -> Result<Found<Boxed<Expr>>, ReadNone>
        requires { AreExprs self.now.rules.depth (P.pre self.now.rules.exprs)
            (P.post self.now.rules.exprs) }
        ensures read { IsFound (marked (code_within self.now.rules.depth) no_struct lead at.old)
            result at.new }
        ensures within { IfOk result (λ found. found.need ≤ self.now.rules.depth + 1) }
    {
        match lead {
            ExprLead::Underscore => boxed_found(self.rules.alloc, Expr::Underscore, 1),
            ExprLead::Paren => self.paren_expr(at),
            ExprLead::Bracket => self.bracket_expr(at),
            ExprLead::Continue => continue_expr(self.rules.alloc, at),
            ExprLead::Break => self.break_expr(at, no_struct),
            ExprLead::Return => self.return_expr(at, no_struct),
            _ => Err(ReadNone::NoReading),
        }
    }
}
