//! Whether two expressions, blocks or items are equal.
ghost use Rattle.std.specs.Prelude.{◌≡◌, ◌↔◌, IsTrue};

use crate::exprs;
use lay_code::{Arm, Block, Expr, Item, Stmt};
use lay_paren_defs::AsIs;

/// Whether two expressions are equal.
pub fn same_expr(expr: &Expr, other: &Expr) -> bool
    ensures { IsTrue result ↔ expr.now ≡ other.now }
{
    exprs::same_whole::<AsIs>(expr, other)
}

/// Whether two blocks are equal.
pub fn same_block(block: &Block, other: &Block) -> bool
    ensures { IsTrue result ↔ block.now ≡ other.now }
{
    exprs::same_block::<AsIs>(block, other)
}

/// Whether two statements are equal.
pub fn same_stmt(stmt: &Stmt, other: &Stmt) -> bool
    ensures { IsTrue result ↔ stmt.now ≡ other.now }
{
    exprs::same_stmt::<AsIs>(stmt, other)
}

/// Whether two arms are equal.
pub fn same_arm(arm: &Arm, other: &Arm) -> bool
    ensures { IsTrue result ↔ arm.now ≡ other.now }
{
    exprs::same_arm::<AsIs>(arm, other)
}

/// Whether two items are equal.
pub fn same_item(item: &Item, other: &Item) -> bool
    ensures { IsTrue result ↔ item.now ≡ other.now }
{
    exprs::same_item::<AsIs>(item, other)
}

/// Whether two lists of items are equal.
pub fn same_items(items: &[Item], others: &[Item]) -> bool
    ensures { IsTrue result ↔ items.now ≡ others.now }
{
    exprs::same_items::<AsIs>(items, others)
}
