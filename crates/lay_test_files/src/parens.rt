//! Parentheses that are put in, and the links of a condition.

use crate::fixtures::{is_printed, lexed, made, printer};
use lay_code::{Branch, Expr, Link};
use lay_laws::is_loose;
use lay_ops::places::FREE;
use lay_out_code::put_expr;
use lay_paren::parenthesize;
use lay_read_code::read_expr;
use lay_text::List;
use std::alloc::Global;
use std::mem;
use std::process::Abort;

/// The expression of a text.
fn read(rt: &impl Abort, alloc: Global, text: &str) -> Expr {
    let nested = lexed(rt, alloc, text);
    made(rt, read_expr(alloc, &mut nested.cursor(), FREE, 9))
}

/// Puts a part for the operand of a sign.
fn swap(node: &mut Expr, part: &mut Expr) {
    if let Expr::Unary { operand, .. } = node {
        mem::swap(operand.get_mut(), part);
    }
}

/// `-` over `a + b`, which lacks a pair.
fn lacking(rt: &impl Abort, alloc: Global) -> Expr {
    let mut node = read(rt, alloc, "-p");
    let mut part = read(rt, alloc, "a+b");
    swap(&mut node, &mut part);
    node
}

/// With its parentheses an expression is printed so.
fn is_made(rt: &impl Abort, alloc: Global, tree: Expr, wanted: &str) {
    let whole = made(rt, parenthesize(alloc, tree, FREE));
    let mut out = printer(rt, alloc);
    made(rt, put_expr(&mut out, &whole));
    is_printed(rt, out, wanted);
}

#[test]
fn parentheses(rt: HostRuntime) {
    let alloc = rt.alloc();
    let tree = lacking(&rt, alloc);
    assert!(&rt; matches!(is_loose(alloc, &tree), Ok(true)));
    is_made(&rt, alloc, tree, "-(a + b)");
}

/// The branches of an expression.
fn branches(alloc: Global, expr: &mut Expr) -> List<Branch> {
    match expr {
        Expr::If { branches, .. } => mem::replace(branches, List::new(alloc)),
        _ => List::new(alloc),
    }
}

/// Whether the links of a branch's condition are an expression and a `let`.
fn are_both(branch: Branch) -> bool {
    let (condition, _) = branch.into_parts();
    matches!(
        condition.into_links().as_slice(),
        [Link::Expr { .. }, Link::Let { .. }]
    )
}

#[test]
fn conditions(rt: HostRuntime) {
    let alloc = rt.alloc();
    let mut expr = read(&rt, alloc, "if a&&let B=c{}");
    match branches(alloc, &mut expr).into_vec().pop() {
        Some(branch) => assert!(&rt; are_both(branch)),
        None => panic!(&rt; "no branch"),
    }
}
