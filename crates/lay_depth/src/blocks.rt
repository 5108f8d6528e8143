//! The depth of blocks, statements, branches and arms.
ghost use Rattle.std.specs.Prelude.{◌≡◌, map, true};
ghost use Rattle.lay_form.specs.Depth.{least_depth};
ghost use Rattle.lay_code.specs.nodes.Code.{about_block, about_stmt};
ghost use Rattle.lay_depth.specs.nodes.Depths.{counted, greatest};
ghost use Rattle.lay_depth.specs.Parts.{arm_form, block_if, branch_form};

use crate::conditions::condition_depth;
use crate::exprs::{expr_depth, operand_depth};
use crate::items::item_depth;
use crate::nodes::{deeper, pat_depth, type_or_none_depth};
use lay_code::{Arm, Block, Branch, Stmt};

/// The depth of a block: that of its deepest statement.
#[cycle(code)]
pub(crate) fn block_depth(block: &Block) -> u32
    ensures { result ≡ counted (least_depth ((about_block block.now).form true)) }
{
    let mut most = 0u32;
    for stmt in block.stmts.as_slice() {
        most = most.max(stmt_depth(stmt));
    }
    most
}

/// The depth of an optional block; 0 if there is none.
#[cycle(code)]
pub(crate) fn block_or_none_depth(block: &Option<Block>) -> u32
    ensures { result ≡ counted (block_if block.now) }
{
    match block {
        Some(block) => block_depth(block),
        None => 0,
    }
}

/// The depth of a statement. The block after an `else` counts one level more.
#[cycle(code)]
fn stmt_depth(stmt: &Stmt) -> u32
    ensures { result ≡ counted (least_depth (about_stmt stmt.now).form) }
{
    match stmt {
        Stmt::Let {
            pat,
            ty,
            value,
            otherwise,
            ..
        } => {
            let bound = pat_depth(pat).max(type_or_none_depth(ty));
            let given = bound.max(operand_depth(value));
            match otherwise {
                Some(block) => given.max(deeper(block_depth(block))),
                None => given,
            }
        },
        Stmt::Item { item } => item_depth(item.get()),
        Stmt::Expr { expr, .. } => expr_depth(expr.get()),
    }
}

/// The greatest depth of the branches.
#[cycle(code)]
pub(crate) fn branches_depth(branches: &[Branch]) -> u32
    ensures { result ≡ counted (greatest (map branch_form branches.now)) }
{
    let mut most = 0u32;
    for branch in branches {
        most = most.max(condition_depth(&branch.condition).max(block_depth(&branch.body)));
    }
    most
}

/// The greatest depth of the arms. The body of an arm counts one level more.
#[cycle(code)]
pub(crate) fn arms_depth(arms: &[Arm]) -> u32
    ensures { result ≡ counted (greatest (map arm_form arms.now)) }
{
    let mut most = 0u32;
    for arm in arms {
        let head = pat_depth(&arm.pat).max(operand_depth(&arm.guard));
        most = most.max(head.max(deeper(expr_depth(arm.body.get()))));
    }
    most
}
