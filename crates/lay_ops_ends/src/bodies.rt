//! Braces around the bodies of arms and closures that aren't in the tree.
ghost use Rattle.std.specs.Prelude.{ℕ, ◌≡◌, true};
ghost use Rattle.lay_code.specs.nodes.Bodies.{is_lone_body};
ghost use Rattle.lay_code.specs.nodes.Code.{about_expr};
ghost use Rattle.lay_ops_ends.specs.Bodies.{IsAround, IsBare, IsShed};

use lay_code::{Boxed, Expr};
use lay_ops::{is_lone_body, sheds};

/// The expression in a block that holds only that expression.
fn held(expr: Boxed<Expr>) -> Option<Boxed<Expr>>
    requires { is_lone_body (about_expr expr).kind ≡ true }
    ensures { IsAround expr result }
{
    expr.into_inner()
        .into_block()?
        .into_stmts()
        .into_vec()
        .pop()?
        .into_expr()
}

/// The body of an arm, without braces that only enclose an expression.
pub fn undressed(expr: Boxed<Expr>) -> Boxed<Expr>
    ensures { (turns : ℕ) × IsBare turns expr result }
{
    let mut body = expr;
    while is_lone_body(body.get()) {
        match held(body) {
            Some(inner) => body = inner,
            None => unreachable!(),
        }
    }
    body
}

/// The body of a closure, without braces that only enclose an expression. `no_struct` says that no
/// struct literal may stand there: braces around one that then couldn't stay are kept.
pub fn shed(expr: Boxed<Expr>, no_struct: bool) -> Boxed<Expr>
    ensures { (turns : ℕ) × IsShed no_struct turns expr result }
{
    let mut body = expr;
    while sheds(body.get(), no_struct) {
        match held(body) {
            Some(inner) => body = inner,
            None => unreachable!(),
        }
    }
    body
}
