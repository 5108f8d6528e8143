//! Facts about an expression, decided by its root.
ghost use Rattle.std.specs.Prelude.{◌≡◌, map};
ghost use Rattle.lay_node.specs.nodes.Types.{about_type};
ghost use Rattle.lay_code.specs.nodes.Code.{about_expr};
ghost use Rattle.lay_code.specs.nodes.Blocks.{is_free};
ghost use Rattle.lay_code.specs.nodes.Bodies.{is_macro};
ghost use Rattle.lay_code.specs.nodes.Exprs.{is_brace, lacks_args, type_refuses};
ghost use Rattle.lay_ops.specs.RootFacts.{first_level};

use crate::operators::op_level;
use crate::type_ends::type_lacks_args;
use lay_code::{Boxed, Expr, Op, Ty};
use lay_token::Delim;

/// The precedence level of an expression: 0 for assignments, up to 14 for what has no operator.
#[tactic(auto, using(crate::proofs::RootFacts::level_is))]
pub fn level(expr: &Expr) -> u8
    ensures { result ≡ (about_expr expr.now).level }
{
    match expr {
        Expr::Assign { .. } => 0,
        Expr::Range { .. } => 1,
        Expr::Chain { rest, .. } => first_level(rest.as_slice()),
        Expr::Cast { .. } => 11,
        Expr::Unary { .. }
        | Expr::Return { .. }
        | Expr::Break { .. }
        | Expr::Closure { .. }
        | Expr::TypedClosure { .. } => 12,
        Expr::Postfix { .. } => 13,
        _ => 14,
    }
}

/// The precedence level of the operators of a chain, given its operands after the first.
pub fn first_level(rest: &[(Op, Boxed<Expr>)]) -> u8
    ensures { result ≡ first_level rest.now }
{
    match rest {
        [(op, _), ..] => op_level(*op),
        [] => 0,
    }
}

/// Whether the expression is a `return`, a `break` or a closure.
#[tactic(auto, using(crate::proofs::RootFacts::jumps_is))]
pub fn is_jump(expr: &Expr) -> bool
    ensures { result ≡ (about_expr expr.now).jumps }
{
    matches!(
        expr,
        Expr::Return { .. } | Expr::Break { .. } | Expr::Closure { .. } | Expr::TypedClosure { .. }
    )
}

/// Whether the expression is a range without an end.
#[tactic(auto, using(crate::proofs::RootFacts::endless_is))]
pub fn is_endless(expr: &Expr) -> bool
    ensures { result ≡ (about_expr expr.now).endless }
{
    matches!(expr, Expr::Range { end: None, .. })
}

/// Whether the expression is a cast to a type after which `<` would open generic arguments.
#[tactic(auto, using(crate::proofs::RootFacts::typed_is))]
pub fn is_typed_cast(expr: &Expr) -> bool
    ensures { result ≡ (about_expr expr.now).typed }
{
    match expr {
        Expr::Cast { types, .. } => last_lacks_args(types.as_slice()),
        _ => false,
    }
}

/// Whether `<` after the last of the types would open generic arguments.
pub fn last_lacks_args(types: &[Ty]) -> bool
    ensures { result ≡ lacks_args (type_refuses (map about_type types.now)) }
{
    match types.last() {
        Some(ty) => type_lacks_args(ty),
        None => false,
    }
}

/// Whether the expression is a struct literal.
#[tactic(auto, using(crate::proofs::RootFacts::is_struct_is))]
pub fn is_struct(expr: &Expr) -> bool
    ensures { result ≡ (about_expr expr.now).is_struct }
{
    matches!(expr, Expr::Struct { .. })
}

/// Whether the expression ends a statement without a `;`: it ends in a block of its own, or is a
/// macro call in braces.
#[tactic(auto, using(crate::proofs::RootFacts::block_like_is))]
pub fn is_block_like(expr: &Expr) -> bool
    ensures { result ≡ (about_expr expr.now).block_like }
{
    match expr {
        Expr::Call { call } => is_brace(call.tokens.delim),
        Expr::Block { .. }
        | Expr::Unsafe { .. }
        | Expr::ConstBlock { .. }
        | Expr::If { .. }
        | Expr::Match { .. }
        | Expr::Loop { .. }
        | Expr::While { .. }
        | Expr::For { .. } => true,
        _ => false,
    }
}

/// Whether the delimiter is a brace.
fn is_brace(delim: Delim) -> bool
    ensures { result ≡ is_brace delim }
{
    matches!(delim, Delim::Brace)
}

/// Whether the expression is a macro call.
#[tactic(auto, using(crate::proofs::BodyFacts::is_macro_is))]
pub fn is_macro(expr: &Expr) -> bool
    ensures { result ≡ is_macro (about_expr expr.now).kind }
{
    matches!(expr, Expr::Call { .. })
}

/// Whether the comma of an arm may be left out after the expression.
pub fn is_free(expr: &Expr) -> bool
    ensures { result ≡ is_free (about_expr expr.now) }
{
    is_block_like(expr) && !is_macro(expr)
}
