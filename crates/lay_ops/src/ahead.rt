//! The tests for operators and operands, on the cursor of the readers.
ghost use Rattle.std.specs.Prelude.{◌≡◌, None, option_map};
ghost use Rattle.lay_code.specs.Operands as operands;
ghost use Rattle.lay_code.specs.Operators as operators;
ghost use Rattle.lay_ops.specs.Leads.{told};

use crate::operands::{ExprLead, is_operand_lead};
use crate::operators::op_level;
use lay_code::{Op, Prefix};
use lay_read_tokens::Ahead;
use lay_read_tokens::front::{is_at_keyword, is_at_opened};
use lay_token::Delim;

/// The binary operator that comes next, if one does.
pub fn binary(at: &Ahead<'_>) -> Option<Op>
    ensures { result ≡ operators.binary at.now }
{
    let cursor = at.fork().into_cursor();
    crate::operators::binary(&cursor)
}

/// The prefix operator that comes next, if one does.
pub fn prefix(at: &Ahead<'_>) -> Option<Prefix>
    ensures { result ≡ operators.prefix at.now }
{
    let cursor = at.fork().into_cursor();
    crate::operators::prefix(&cursor)
}

/// How an expression begins with the next tokens, if one does.
pub fn expr_lead_at(at: &Ahead<'_>) -> Option<ExprLead>
    ensures { option_map told result ≡ operands.expr_lead_at at.now }
{
    let cursor = at.fork().into_cursor();
    crate::operands::expr_lead_at(&cursor)
}

/// Whether an operand comes next; `no_struct` says that no struct literal may stand there.
pub fn begins_operand(at: &Ahead<'_>, no_struct: bool) -> bool
    ensures { result ≡ operands.begins_operand no_struct at.now }
{
    is_operand_lead(expr_lead_at(at), no_struct)
}

/// Whether `.` or `?` comes next, which go on with an expression even if that ends a statement.
pub fn is_dot_or_try(at: &Ahead<'_>) -> bool
    ensures { result ≡ operators.is_dot_or_try at.now }
{
    at.op_is(b".") || at.op_is(b"?")
}

/// Whether a postfix step comes next.
pub fn begins_step(at: &Ahead<'_>) -> bool
    ensures { result ≡ operators.begins_step at.now }
{
    is_dot_or_try(at) || is_at_opened(at, Delim::Paren) || is_at_opened(at, Delim::Bracket)
}

/// Whether `<` or `<<` comes next, which after a type would open generic arguments.
pub fn is_angle(at: &Ahead<'_>) -> bool
    ensures { result ≡ operators.is_angle at.now }
{
    matches!(binary(at), Some(Op::Less | Op::Shl))
}

/// How tightly the next tokens bind an expression before them: 0 if they don't go on with it, else
/// 1 more than the precedence level of the operator, of `as`, or of the postfix step.
#[tactic(auto, unfolding(lay_code::specs::Operators::strength))]
pub fn strength(at: &Ahead<'_>) -> u8
    ensures { result ≡ operators.strength at.now }
{
    match binary(at) {
        Some(op) => op_level(op) + 1,
        None => strength_without_op(at),
    }
}

/// How tightly the next tokens bind, if no binary operator comes next.
fn strength_without_op(at: &Ahead<'_>) -> u8
    ensures { result ≡ operators.strength_by None at.now }
{
    if is_at_keyword(at, b"as") {
        12
    } else if begins_step(at) {
        14
    } else {
        0
    }
}
