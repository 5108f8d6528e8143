//! Dropping of trees: each node drops the nodes within it.
//!
//! Parts that a pattern leaves unbound would be dropped where its match arm ends, guarded by drop
//! flags. Such code is costly to prove. So each node is taken apart completely, and a function here
//! drops each part.
use crate::blocks::{Arm, Block, Branch, Stmt};
use crate::conditions::Link;
use crate::exprs::{Expr, FieldExpr, Step};
use crate::item::{Item, ItemKind};
use crate::operators::Op;
use lay_node::Boxed;
use lay_token::List;

/// Drops the boxed expression.
#[cycle(drops)]
pub(crate) fn discard_boxed(node: Boxed<Expr>) {
    drop(node.into_inner());
}

/// Drops the expressions.
#[cycle(drops)]
pub(crate) fn discard_exprs(nodes: List<Expr>) {
    let mut left = nodes.into_vec();
    while let Some(node) = left.pop() {
        drop(node);
    }
    left.destroy_empty();
}

/// Drops the fields of a struct literal.
#[cycle(drops)]
pub(crate) fn discard_fields(nodes: List<FieldExpr>) {
    let mut left = nodes.into_vec();
    while let Some(node) = left.pop() {
        drop(node);
    }
    left.destroy_empty();
}

/// Drops the base of a struct literal, if there is one.
#[cycle(drops)]
pub(crate) fn discard_base(node: Option<Option<Boxed<Expr>>>) {
    match node {
        Some(Some(node)) => drop(node.into_inner()),
        Some(None) => {}
        None => {}
    }
}

/// Drops the operands of a chain.
#[cycle(drops)]
pub(crate) fn discard_operands(nodes: List<(Op, Boxed<Expr>)>) {
    let mut left = nodes.into_vec();
    while let Some((_, node)) = left.pop() {
        drop(node.into_inner());
    }
    left.destroy_empty();
}

/// Drops an optional expression: an operand, a value or a guard.
#[cycle(drops)]
pub(crate) fn discard_operand(node: Option<Boxed<Expr>>) {
    match node {
        Some(node) => drop(node.into_inner()),
        None => {}
    }
}

/// Drops the targets of an assignment.
#[cycle(drops)]
pub(crate) fn discard_targets(nodes: List<(Boxed<Expr>, Op)>) {
    let mut left = nodes.into_vec();
    while let Some((node, _)) = left.pop() {
        drop(node.into_inner());
    }
    left.destroy_empty();
}

/// Drops postfix steps.
#[cycle(drops)]
pub(crate) fn discard_steps(nodes: List<Step>) {
    let mut left = nodes.into_vec();
    while let Some(node) = left.pop() {
        drop(node);
    }
    left.destroy_empty();
}

/// Drops branches.
#[cycle(drops)]
pub(crate) fn discard_branches(nodes: List<Branch>) {
    let mut left = nodes.into_vec();
    while let Some(node) = left.pop() {
        drop(node);
    }
    left.destroy_empty();
}

/// Drops the links of a condition.
#[cycle(drops)]
pub(crate) fn discard_links(nodes: List<Link>) {
    let mut left = nodes.into_vec();
    while let Some(node) = left.pop() {
        drop(node);
    }
    left.destroy_empty();
}

/// Drops an optional block.
#[cycle(drops)]
pub(crate) fn discard_otherwise(node: Option<Block>) {
    match node {
        Some(node) => drop(node),
        None => {}
    }
}

/// Drops the arms of a match.
#[cycle(drops)]
pub(crate) fn discard_arms(nodes: List<Arm>) {
    let mut left = nodes.into_vec();
    while let Some(node) = left.pop() {
        drop(node);
    }
    left.destroy_empty();
}

/// Drops the boxed item.
#[cycle(drops)]
pub(crate) fn discard_boxed_item(node: Boxed<Item>) {
    drop(node.into_inner());
}

/// Drops the boxed kind of an item.
#[cycle(drops)]
pub(crate) fn discard_kind(node: Boxed<ItemKind>) {
    drop(node.into_inner());
}

/// Drops statements.
#[cycle(drops)]
pub(crate) fn discard_stmts(nodes: List<Stmt>) {
    let mut left = nodes.into_vec();
    while let Some(node) = left.pop() {
        drop(node);
    }
    left.destroy_empty();
}

/// Drops items.
#[cycle(drops)]
pub(crate) fn discard_items(nodes: List<Item>) {
    let mut left = nodes.into_vec();
    while let Some(node) = left.pop() {
        drop(node);
    }
    left.destroy_empty();
}
