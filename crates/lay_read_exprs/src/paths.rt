//! Parsing of operands that begin with a path.
ghost use Rattle.std.specs.Prelude.{◌≡◌, ◌+◌, ◌≤◌, IfOk};
ghost use Rattle.lay_code.specs.reader.Exprs as reader;
ghost use Rattle.lay_read_tokens.specs.Answers.{IsFound};
ghost use Rattle.lay_read_shared.specs.Code.{code_within};
ghost use Rattle.lay_read_exprs.specs.Answers.{path_or_call};
ghost use Rattle.lay_read_operators.specs.Answers.{AreExprs};

use crate::climber::Climber;
use lay_code::{Boxed, Expr, PathStyle, Place};
use lay_read_parts::joins::refused;
use lay_read_shared::boxes::boxed_found;
use lay_read_tokens::calls::call_ahead;
use lay_read_tokens::front::{is_at_opened, pass};
use lay_read_tokens::{Ahead, Found, ReadNone};
use lay_read_types::path_ahead;
use lay_read_types::types::begins_call;
use lay_token::Delim;
use std::alloc::Global;

/// Parses a macro call that is an expression.
fn call_expr(alloc: Global, at: &mut Ahead<'_>) -> Result<Found<Boxed<Expr>>, ReadNone>
    ensures read { IsFound (reader.call_expr at.old) result at.new }
    ensures within { IfOk result (λ found. found.need ≡ 1) }
{
    let call = call_ahead(alloc, at)?;
    boxed_found(alloc, Expr::Call { call }, 1)
}

impl<P: Fn(Global, &mut Ahead<'_>, Place, u32) -> Result<Found<Boxed<Expr>>, ReadNone>, H> Climber<
    P,
    H,
> {
    /// Parses a macro call, or an operand that begins with a path.
    #[inline(never)]
    pub fn path_or_call(
        &self,
        at: &mut Ahead<'_>,
        no_struct: bool,
    ) -> Result<Found<Boxed<Expr>>, ReadNone>
        requires { AreExprs self.now.rules.depth (P.pre self.now.rules.exprs)
            (P.post self.now.rules.exprs) }
        ensures read { IsFound (path_or_call (code_within self.now.rules.depth) no_struct at.old)
            result at.new }
        ensures within { IfOk result (λ found. found.need ≤ self.now.rules.depth + 1) }
    {
        if begins_call(self.rules.alloc, at)? {
            call_expr(self.rules.alloc, at)
        } else {
            self.path_expr(at, no_struct)
        }
    }

    /// Parses a path or a struct literal.
    #[tactic(auto, unfolding(lay_code::specs::reader::Exprs::path_expr))]
    #[inline(never)]
    fn path_expr(&self, at: &mut Ahead<'_>, no_struct: bool) -> Result<Found<Boxed<Expr>>, ReadNone>
        requires { AreExprs self.now.rules.depth (P.pre self.now.rules.exprs)
            (P.post self.now.rules.exprs) }
        ensures read { IsFound (reader.path_expr (code_within self.now.rules.depth) no_struct
            at.old) result at.new }
        ensures within { IfOk result (λ found. found.need ≤ self.now.rules.depth + 1) }
    {
        let path = path_ahead(self.rules.alloc, at, PathStyle::Code, self.rules.depth)?;
        if !no_struct && is_at_opened(at, Delim::Brace) {
            pass(at);
            self.struct_expr(at, path)
        } else if at.op_is(b"!") {
            refused(path)
        } else {
            boxed_found(
                self.rules.alloc,
                Expr::Path { path: path.node },
                path.need + 1,
            )
        }
    }
}
