//! Facts about blocks, statements and items, decided by their roots.
ghost use Rattle.std.specs.Prelude.{◌≡◌, ◌&&◌, ◌||◌, not, is_some};
ghost use Rattle.lay_ops.specs.RootFacts.{lone_in, structless_in};
ghost use Rattle.lay_code.specs.nodes.Bodies.{is_lone_body, is_macro, sheds};
ghost use Rattle.lay_code.specs.nodes.Blocks.{is_plain};
ghost use Rattle.lay_code.specs.nodes.Code.{about_block, about_expr, about_stmt, told_of_item};

use crate::roots::{is_block_like, is_macro};
use crate::structs::is_structless;
use lay_code::{Attr, Block, Expr, Item, ItemKind, Lifetime, Stmt};

/// Whether another statement may follow the statement.
#[tactic(auto, using(crate::proofs::BodyFacts::ends_is))]
pub fn ends(stmt: &Stmt) -> bool
    ensures { result ≡ (about_stmt stmt.now).ends }
{
    match stmt {
        Stmt::Let { .. } | Stmt::Item { .. } => true,
        Stmt::Expr { expr, ended, .. } => *ended || is_block_like(expr.get()),
    }
}

/// Whether the expression is plain: no macro call, without attributes and without a `;`.
fn is_lone_expr(attrs: &[Attr], ended: bool, expr: &Expr) -> bool
    ensures { result ≡ ((is_plain attrs.now && not ended)
        && not (is_macro (about_expr expr.now).kind)) }
{
    attrs.is_empty() && !ended && !is_macro(expr)
}

/// Whether the statement is such a plain expression.
#[tactic(auto, using(crate::proofs::BodyFacts::lone_stmt_is))]
fn is_lone_stmt(stmt: &Stmt) -> bool
    ensures { result ≡ ((about_stmt stmt.now).bare && not (about_stmt stmt.now).call) }
{
    match stmt {
        Stmt::Expr { attrs, expr, ended } => is_lone_expr(attrs.as_slice(), *ended, expr.get()),
        _ => false,
    }
}

/// Whether the list is a single statement that is a plain expression.
fn is_lone_list(stmts: &[Stmt]) -> bool
    ensures { result ≡ lone_in stmts.now }
{
    match stmts {
        [stmt] => is_lone_stmt(stmt),
        _ => false,
    }
}

/// Whether a block holds a plain expression and nothing else.
#[tactic(auto, using(crate::proofs::BodyFacts::lone_is))]
fn is_lone(block: &Block) -> bool
    ensures { result ≡ (about_block block.now).lone }
{
    block.attrs.as_slice().is_empty() && is_lone_list(block.stmts.as_slice())
}

/// Whether there is no label.
pub(crate) fn is_unlabelled(label: &Option<Lifetime>) -> bool
    ensures { result ≡ not (is_some label.now) }
{
    match label {
        Some(_) => false,
        None => true,
    }
}

/// Whether the expression is a block whose braces are dropped as the body of an arm.
#[tactic(auto, using(crate::proofs::BodyFacts::lone_body_is))]
pub fn is_lone_body(expr: &Expr) -> bool
    ensures { result ≡ is_lone_body (about_expr expr.now).kind }
{
    match expr {
        Expr::Block { label, body } => is_unlabelled(label) && is_lone(body),
        _ => false,
    }
}

/// Whether the expression is a block whose braces are dropped as the body of a closure; `no_struct`
/// says that no struct literal may stand there.
#[tactic(auto, using(crate::proofs::BodyFacts::sheds_is))]
pub fn sheds(expr: &Expr, no_struct: bool) -> bool
    ensures { result ≡ sheds (about_expr expr.now).kind no_struct }
{
    match expr {
        Expr::Block { label, body } => is_unlabelled(label) && is_shed(body, no_struct),
        _ => false,
    }
}

/// Whether an unlabelled block is one whose braces are dropped; `no_struct` says that no struct
/// literal may stand there.
fn is_shed(block: &Block, no_struct: bool) -> bool
    ensures { result ≡ ((about_block block.now).lone
        && (not no_struct || (about_block block.now).structless)) }
{
    is_lone(block) && (!no_struct || is_block_structless(block))
}

/// Whether no expression among a block's statements has a struct literal outside delimiters.
#[tactic(auto, using(crate::proofs::BodyFacts::structless_is))]
fn is_block_structless(block: &Block) -> bool
    ensures { result ≡ (about_block block.now).structless }
{
    are_stmts_structless(block.stmts.as_slice())
}

/// Whether no expression among the statements has a struct literal outside delimiters.
fn are_stmts_structless(stmts: &[Stmt]) -> bool
    ensures { result ≡ structless_in stmts.now }
{
    for stmt in stmts {
        if !is_stmt_structless(stmt) {
            return false;
        }
    }
    true
}

/// Whether the statement is no expression with a struct literal outside delimiters.
#[tactic(auto, using(crate::proofs::BodyFacts::structless_stmt_is))]
fn is_stmt_structless(stmt: &Stmt) -> bool
    ensures { result ≡ (about_stmt stmt.now).structless }
{
    match stmt {
        Stmt::Expr { expr, .. } => is_structless(expr.get()),
        _ => true,
    }
}

/// Whether an item is a macro call.
#[tactic(auto, using(crate::proofs::BodyFacts::call_item_is))]
pub fn is_call(item: &Item) -> bool
    ensures { result ≡ (told_of_item item.now).call }
{
    matches!(item.kind.get(), ItemKind::Call { .. })
}
