//! Parentheses round parts that need them. A function is lent an expression with the depth that it
//! needs, and gives the depth that it needs afterwards.
ghost use Rattle.std.specs.Prelude.{◌≡◌, ◌≤◌};
ghost use Rattle.lay_form.specs.Depth.{least_depth};
ghost use Rattle.lay_code.specs.Reading.{top};
ghost use Rattle.lay_code.specs.declared.exprs.Expr.TheVariants as variant;
ghost use Rattle.lay_build_types.specs.Answers.{Gives};
ghost use Rattle.lay_build_types.specs.Kinds.{form_of_expr};
ghost use Rattle.lay_build_exprs.specs.Nodes as node;
ghost use Rattle.lay_build_exprs.specs.Parts.{WithNeed};

use lay_build_types::{BuildError, boxed};
use lay_code::{Expr, Step};
use std::alloc::Global;
use std::mem;

/// An operand of an operator, or the base of a field or a method.
pub(crate) fn operand(alloc: Global, expr: &mut Expr, need: u32) -> Result<u32, BuildError>
    requires need { need ≡ least_depth (form_of_expr expr.old) }
    requires within { need ≤ top }
    ensures { Gives result (λ deep. WithNeed (node.operand expr.old) (expr.new, deep)) }
{
    let stands = is_operand(expr);
    unless(alloc, stands, expr, need)
}

/// The callee of a call. Directly after a field name the arguments would be those of a method call.
pub(crate) fn callee(alloc: Global, expr: &mut Expr, need: u32) -> Result<u32, BuildError>
    requires need { need ≡ least_depth (form_of_expr expr.old) }
    requires within { need ≤ top }
    ensures { Gives result (λ deep. WithNeed (node.callee expr.old) (expr.new, deep)) }
{
    if ends_in_field(expr) {
        return unless(alloc, false, expr, need);
    }
    operand(alloc, expr, need)
}

/// The condition of an `if`.
pub(crate) fn test(alloc: Global, expr: &mut Expr, need: u32) -> Result<u32, BuildError>
    requires need { need ≡ least_depth (form_of_expr expr.old) }
    requires within { need ≤ top }
    ensures { Gives result (λ deep. WithNeed (node.test expr.old) (expr.new, deep)) }
{
    let stands = is_operand(expr) || is_chain(expr);
    unless(alloc, stands, expr, need)
}

/// Puts the expression in parentheses, unless it may stand as it is.
fn unless(alloc: Global, stands: bool, expr: &mut Expr, need: u32) -> Result<u32, BuildError>
    requires need { need ≡ least_depth (form_of_expr expr.old) }
    requires within { need ≤ top }
    ensures { Gives result (λ deep. WithNeed (node.unless stands expr.old) (expr.new, deep)) }
{
    if stands {
        return Ok(need);
    }
    put_in_parens(alloc, expr)?;
    Ok(need + 1)
}

/// Puts an expression in parentheses.
fn put_in_parens(alloc: Global, expr: &mut Expr) -> Result<(), BuildError>
    ensures { Gives result (λ done. expr.new ≡ variant.Paren expr.old) }
{
    let bare = mem::replace(expr, Expr::Underscore);
    let inner = boxed(alloc, bare)?;
    *expr = Expr::Paren { inner };
    Ok(())
}

/// Whether the expression may be an operand or the base of a step as it is.
fn is_operand(expr: &Expr) -> bool
    ensures { result ≡ node.is_operand expr.now }
{
    matches!(
        expr,
        Expr::Lit { .. }
            | Expr::Path { .. }
            | Expr::Paren { .. }
            | Expr::Tuple { .. }
            | Expr::Postfix { .. }
    )
}

/// Whether the expression is a chain of operators.
fn is_chain(expr: &Expr) -> bool
    ensures { result ≡ node.is_chain expr.now }
{
    matches!(expr, Expr::Chain { .. })
}

/// Whether the expression ends in the name of a field.
fn ends_in_field(expr: &Expr) -> bool
    ensures { result ≡ node.ends_in_field expr.now }
{
    match expr {
        Expr::Postfix { steps, .. } => field_last(steps.as_slice()),
        _ => false,
    }
}

/// Whether the last step is a field access.
fn field_last(steps: &[Step]) -> bool
    ensures { result ≡ node.field_last steps.now }
{
    match steps.last() {
        Some(step) => is_field(step),
        None => false,
    }
}

/// Whether a step is a field access.
fn is_field(step: &Step) -> bool
    ensures { result ≡ node.is_field step.now }
{
    matches!(step, Step::Field { .. })
}
