//! Builders of statements and blocks.
ghost use Rattle.std.specs.Prelude.{◌≡◌, ◌+◌, ◌≤◌, ◌++◌, [], max, option_to_list};
ghost use Rattle.lay_code.specs.Reading.{top};
ghost use Rattle.lay_code.specs.declared.blocks.Stmt.TheVariants as stmt;
ghost use Rattle.lay_build_types.specs.Answers.{Gives, Makes};
ghost use Rattle.lay_build_types.specs.Kinds.{form_of_block, form_of_stmt};
ghost use Rattle.lay_build.specs.Nodes as node;

use lay_build_types::{
    BuildError, BuiltBlock, BuiltExpr, BuiltName, BuiltStmt, BuiltType, both, boxed, keep, kept,
    nodes, part_or_none,
};
use lay_code::{Block, Expr, Name, Pat, Stmt, Ty};
use lay_text::List;
use std::alloc::Global;

/// A `let` statement that binds a name: `let a = c;`, or with a type, `let a: B = c;`.
pub fn stmt_let(
    alloc: Global,
    name: BuiltName,
    ty: Option<BuiltType>,
    value: BuiltExpr,
) -> Result<BuiltStmt, BuildError>
    ensures { Makes form_of_stmt (node.stmt_let name ty value) result }
{
    let (name, _) = name.into_parts();
    let (ty, need) = part_or_none(ty);
    let (value, more) = value.into_parts();
    kept(let_stmt(alloc, name, ty, value, need.max(more)))
}

/// A `let` whose type and value need this depth.
fn let_stmt(
    alloc: Global,
    name: Name,
    ty: Option<Ty>,
    value: Expr,
    need: u32,
) -> Result<(Stmt, u32), BuildError>
    requires { need ≤ top }
    ensures { Gives result (λ part. part ≡ (node.stmt_let name ty value, max need 1 + 1)) }
{
    let value = boxed(alloc, value)?;
    let stmt = Stmt::Let {
        attrs: List::new(alloc),
        pat: bind(name),
        ty,
        value: Some(value),
        otherwise: None,
    };
    Ok((stmt, need.max(1) + 1))
}

/// A name as a pattern.
pub(crate) fn bind(name: Name) -> Pat
    ensures { result ≡ node.bind name }
{
    Pat::Bind {
        by_ref: false,
        mutable: false,
        name,
        of: None,
    }
}

/// An expression statement: `a;`.
pub fn stmt_expr(alloc: Global, expr: BuiltExpr) -> Result<BuiltStmt, BuildError>
    ensures { Makes form_of_stmt (node.stmt_expr expr) result }
{
    let (expr, need) = expr.into_parts();
    kept(both(expr_stmt(alloc, expr, true), Ok(need + 1)))
}

/// An expression as a statement, with its `;` or without.
fn expr_stmt(alloc: Global, expr: Expr, ended: bool) -> Result<Stmt, BuildError>
    ensures { Gives result (λ made. made ≡ stmt.Expr [] expr ended) }
{
    let expr = boxed(alloc, expr)?;
    Ok(Stmt::Expr {
        attrs: List::new(alloc),
        expr,
        ended,
    })
}

/// A block of these statements, and of a last expression, if there is one: `{ a; b }`.
pub fn block(
    alloc: Global,
    stmts: List<BuiltStmt>,
    tail: Option<BuiltExpr>,
) -> Result<BuiltBlock, BuildError>
    ensures { Makes form_of_block (node.block stmts tail) result }
{
    let (tail, more) = part_or_none(tail);
    let (stmts, last) = both(nodes(alloc, stmts), tail_stmt(alloc, tail))?;
    let (stmts, need) = stmts;
    kept(block_of(alloc, stmts, last, need.max(more + 1)))
}

/// The last expression of a block as a statement without `;`.
fn tail_stmt(alloc: Global, tail: Option<Expr>) -> Result<Option<Stmt>, BuildError>
    ensures { Gives result (λ last. option_to_list last ≡ node.tail_stmt tail) }
{
    match tail {
        Some(tail) => Ok(Some(expr_stmt(alloc, tail, false)?)),
        None => Ok(None),
    }
}

/// A block of these statements and a last one, if there is one, which need this depth.
fn block_of(
    alloc: Global,
    stmts: List<Stmt>,
    last: Option<Stmt>,
    need: u32,
) -> Result<(Block, u32), BuildError>
    ensures { Gives result (λ part. part ≡ (node.block_of (stmts ++ option_to_list last), need)) }
{
    let stmts = with_last(stmts, last)?;
    let block = Block {
        attrs: List::new(alloc),
        stmts,
    };
    Ok((block, need))
}

/// The list with one more item appended, if there is one.
fn with_last<T: Drop>(list: List<T>, last: Option<T>) -> Result<List<T>, BuildError>
    ensures { Gives result (λ whole. whole ≡ list ++ option_to_list last) }
{
    let mut list = list;
    if let Some(last) = last {
        keep(&mut list, last)?;
    }
    Ok(list)
}
