//! What an expression ends in, found along its right edge.
ghost use Rattle.std.specs.Prelude.{◌≡◌, ◌<◌, ◌&&◌, not, false};
ghost use Rattle.lay_code.specs.nodes.Code.{about_expr};
ghost use Rattle.lay_code.specs.nodes.Exprs.{is_open, is_typed};
ghost use Rattle.lay_code.specs.declared.exprs.Expr.{size-Expr};
ghost use Rattle.lay_ops.specs.Ends.{IfOperand, is_open_end, is_typed_end};

use crate::roots::last_lacks_args;
use crate::type_ends::path_lacks_args;
use lay_code::Expr;

/// What an expression ends in.
#[derive(Clone, Copy)]
enum ExprEnd<'a> {
    /// What any operator may follow.
    Shut,
    /// What would take an operator that follows as a part of its operand, or lacks an operand.
    Open,
    /// A type after which `<` would open generic arguments.
    Typed,
    /// An operand.
    In(&'a Expr),
}

/// Whether what follows may follow the expression; `op` says that it is an operator, `angle` that
/// it is `<` or `<<`.
pub fn may_precede(expr: &Expr, op: bool, angle: bool) -> bool
    ensures { result ≡ (not (op && is_open (about_expr expr.now).tail)
        && not (angle && is_typed (about_expr expr.now).tail)) }
{
    let mut last = expr;
    loop {
        match expr_end(last) {
            ExprEnd::Shut => return true,
            ExprEnd::Open => return !op,
            ExprEnd::Typed => return !angle,
            ExprEnd::In(operand) => last = operand,
        }
    }
}

/// What an expression ends in.
#[tactic(auto, using(crate::proofs::ExprEnds::open_is, crate::proofs::ExprEnds::typed_is))]
fn expr_end(expr: &Expr) -> ExprEnd<'_>
    ensures open { is_open_end result ≡ is_open (about_expr expr.now).tail }
    ensures typed { is_typed_end result ≡ is_typed (about_expr expr.now).tail }
    ensures smaller { IfOperand result (λ operand. size-Expr operand < size-Expr expr.now) }
{
    match expr {
        Expr::Chain { rest, .. } => match rest.as_slice().last() {
            Some((_, operand)) => ExprEnd::In(operand.get()),
            None => ExprEnd::Shut,
        },
        Expr::Unary { operand, .. } => ExprEnd::In(operand.get()),
        Expr::Assign { value, .. } => ExprEnd::In(value.get()),
        Expr::Range { end: Some(end), .. } => ExprEnd::In(end.get()),
        Expr::Range { end: None, .. } => ExprEnd::Open,
        Expr::Return { .. }
        | Expr::Break { .. }
        | Expr::Closure { .. }
        | Expr::TypedClosure { .. } => ExprEnd::Open,
        Expr::Cast { types, .. } => typed_if(last_lacks_args(types.as_slice())),
        Expr::Path { path } => typed_if(path_lacks_args(path)),
        _ => ExprEnd::Shut,
    }
}

/// The end of an expression in a type; `lacks` says that `<` would open generic arguments there.
fn typed_if(lacks: bool) -> ExprEnd<'static>
    ensures open { is_open_end result ≡ false }
    ensures typed { is_typed_end result ≡ lacks }
    ensures smaller { IfOperand result (λ operand. ⊥) }
{
    if lacks { ExprEnd::Typed } else { ExprEnd::Shut }
}
