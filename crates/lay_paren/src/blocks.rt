//! Parentheses in blocks, statements, branches and arms.
ghost use Rattle.std.specs.Prelude.{◌≡◌, OnOk, map};
ghost use Rattle.lay_code.specs.nodes.Places.{FREE};
ghost use Rattle.lay_paren_defs.specs.loose.Slots.{BeforeElse};
ghost use Rattle.lay_paren_defs.specs.Traversal.{value_slot};
ghost use Rattle.lay_paren.specs.InPlace.{arm_least, block_least, block_or_none_least, branch_least, least_in, operand_least, stmt_least};

use crate::conditions::place_condition;
use crate::exprs::{enclose, place_expr, place_operand, place_parts};
use crate::items::place_item;
use crate::slots::Slot;
use lay_code::{Arm, Block, Boxed, Branch, Expr, Stmt};
use lay_ops::places::{FREE, STATEMENT};
use lay_ops_ends::may_precede_else;
use lay_token::{List, NoMemory};
use std::alloc::Global;

/// Puts the parentheses that the expressions in a block lack.
#[cycle(code)]
#[tactic(auto, using(crate::proofs::Becoming::block_becomes))]
pub(crate) fn place_block(alloc: Global, block: &mut Block) -> Result<(), NoMemory>
    ensures { OnOk result (block.new ≡ block_least block.old) }
{
    place_stmts(alloc, &mut block.stmts)
}

/// Puts the missing parentheses in an optional block.
#[cycle(code)]
pub(crate) fn place_block_or_none(alloc: Global, block: &mut Option<Block>) -> Result<(), NoMemory>
    ensures { OnOk result (block.new ≡ block_or_none_least block.old) }
{
    match block {
        Some(block) => place_block(alloc, block),
        None => Ok(()),
    }
}

/// Puts the missing parentheses in statements.
#[cycle(code)]
#[tactic(auto, using(crate::proofs::Turning::refill))]
fn place_stmts(alloc: Global, stmts: &mut List<Stmt>) -> Result<(), NoMemory>
    ensures { OnOk result (stmts.new ≡ map stmt_least stmts.old) }
{
    place_each_stmt(alloc, stmts.as_mut_slice())
}

/// Puts the missing parentheses in each of the statements.
#[cycle(code)]
fn place_each_stmt(alloc: Global, stmts: &mut [Stmt]) -> Result<(), NoMemory>
    ensures { OnOk result (stmts.new ≡ map stmt_least stmts.old) }
{
    for stmt in stmts.iter_mut() {
        place_stmt(alloc, stmt)?;
    }
    Ok(())
}

/// Puts the missing parentheses in a statement.
#[cycle(code)]
#[tactic(auto, using(crate::proofs::Becoming::stmt_becomes))]
fn place_stmt(alloc: Global, stmt: &mut Stmt) -> Result<(), NoMemory>
    ensures { OnOk result (stmt.new ≡ stmt_least stmt.old) }
{
    match stmt {
        Stmt::Let {
            value,
            otherwise,
            ..
        } => {
            place_value(alloc, value, otherwise.is_some())?;
            place_block_or_none(alloc, otherwise)
        },
        Stmt::Item { item } => place_item(alloc, item.get_mut()),
        Stmt::Expr { expr, .. } => place_expr(alloc, expr.get_mut(), STATEMENT, Slot::Any),
    }
}

/// Puts the missing parentheses in the value of a `let`, if it has one; `before_else` says that an
/// `else` follows.
#[cycle(code)]
fn place_value(
    alloc: Global,
    value: &mut Option<Boxed<Expr>>,
    before_else: bool,
) -> Result<(), NoMemory>
    ensures { OnOk result (value.new ≡ operand_least FREE (value_slot before_else) value.old) }
{
    match value {
        Some(value) => if before_else {
            place_before_else(alloc, value.get_mut())
        } else {
            place_expr(alloc, value.get_mut(), FREE, Slot::Any)
        },
        None => Ok(()),
    }
}

/// Puts the missing parentheses in a value that stands before an `else`. Its parts are placed as if
/// the value stood in parentheses. Then the value gets a pair if it can't precede the `else`, which
/// depends on the parentheses that its parts got.
#[cycle(code)]
#[tactic(auto, using(crate::proofs::Becoming::before_else, crate::proofs::Becoming::not_before_else))]
fn place_before_else(alloc: Global, value: &mut Expr) -> Result<(), NoMemory>
    ensures { OnOk result (value.new ≡ least_in value.old FREE BeforeElse) }
{
    place_parts(alloc, value, FREE)?;
    if may_precede_else(value) {
        return Ok(());
    }
    enclose(alloc, value)
}

/// Puts the missing parentheses in branches.
#[cycle(code)]
#[tactic(auto, using(crate::proofs::Turning::refill))]
pub(crate) fn place_branches(alloc: Global, branches: &mut List<Branch>) -> Result<(), NoMemory>
    ensures { OnOk result (branches.new ≡ map branch_least branches.old) }
{
    place_each_branch(alloc, branches.as_mut_slice())
}

/// Puts the missing parentheses in each of the branches.
#[cycle(code)]
fn place_each_branch(alloc: Global, branches: &mut [Branch]) -> Result<(), NoMemory>
    ensures { OnOk result (branches.new ≡ map branch_least branches.old) }
{
    for branch in branches.iter_mut() {
        place_branch(alloc, branch)?;
    }
    Ok(())
}

/// Puts the missing parentheses in a branch.
#[cycle(code)]
#[tactic(auto, using(crate::proofs::Becoming::branch_becomes))]
fn place_branch(alloc: Global, branch: &mut Branch) -> Result<(), NoMemory>
    ensures { OnOk result (branch.new ≡ branch_least branch.old) }
{
    place_condition(alloc, &mut branch.condition)?;
    place_block(alloc, &mut branch.body)
}

/// Puts the missing parentheses in the arms of a match.
#[cycle(code)]
#[tactic(auto, using(crate::proofs::Turning::refill))]
pub(crate) fn place_arms(alloc: Global, arms: &mut List<Arm>) -> Result<(), NoMemory>
    ensures { OnOk result (arms.new ≡ map arm_least arms.old) }
{
    place_each_arm(alloc, arms.as_mut_slice())
}

/// Puts the missing parentheses in each of the arms.
#[cycle(code)]
fn place_each_arm(alloc: Global, arms: &mut [Arm]) -> Result<(), NoMemory>
    ensures { OnOk result (arms.new ≡ map arm_least arms.old) }
{
    for arm in arms.iter_mut() {
        place_arm(alloc, arm)?;
    }
    Ok(())
}

/// Puts the missing parentheses in an arm.
#[cycle(code)]
#[tactic(auto, using(crate::proofs::Becoming::arm_becomes))]
fn place_arm(alloc: Global, arm: &mut Arm) -> Result<(), NoMemory>
    ensures { OnOk result (arm.new ≡ arm_least arm.old) }
{
    place_operand(alloc, &mut arm.guard, FREE, Slot::Any)?;
    place_expr(alloc, arm.body.get_mut(), STATEMENT, Slot::Any)
}
