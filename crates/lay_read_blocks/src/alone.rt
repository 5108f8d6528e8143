//! Parsing of statements and arms that stand alone.
ghost use Rattle.std.specs.Prelude.{◌≡◌, ◌+◌, ◌≤◌, if◌then◌else◌, Some, None, IfOk};
ghost use Rattle.lay_read_shared.specs.alone.ArmFronts.{alone_end};
ghost use Rattle.lay_read_tokens.specs.Answers.{IsFound};
ghost use Rattle.lay_read_shared.specs.Code.{code_within};
ghost use Rattle.lay_read_blocks.specs.Answers.{AreCode, deeper_arm, deeper_stmt};

use crate::rules::BlockRules;
use lay_code::{Arm, Block, Boxed, Expr, Item, Place, Site, Stmt};
use lay_ops::ends;
use lay_read_parts::joins::refused;
use lay_read_tokens::front::takes_mark;
use lay_read_tokens::{Ahead, Found, ReadNone};
use std::alloc::Global;

/// Moves past the comma of an arm that stands alone, and says whether the arm ends there. The comma
/// may be missing if `free`, or if no token follows.
fn takes_alone_end(at: &mut Ahead<'_>, free: bool) -> bool
    ensures { (if result then Some at.new else None) ≡ alone_end free at.old }
{
    takes_mark(at, b",") || free || at.is_end()
}

impl<
    P: Fn(Global, &mut Ahead<'_>, Place, u32) -> Result<Found<Boxed<Expr>>, ReadNone>,
    B: Fn(Global, &mut Ahead<'_>, u32) -> Result<Found<Block>, ReadNone>,
    I: Fn(Global, &mut Ahead<'_>, Site, u32) -> Result<Found<Item>, ReadNone>,
> BlockRules<P, B, I> {
    /// Parses a statement that ends by itself or that no token follows. It counts one level more
    /// than what is around it.
    pub fn deeper_stmt(&self, at: &mut Ahead<'_>) -> Result<Found<Stmt>, ReadNone>
        requires { AreCode self.now.depth (P.pre self.now.exprs) (P.post self.now.exprs)
            (B.pre self.now.blocks) (B.post self.now.blocks) (I.pre self.now.items)
            (I.post self.now.items) }
        ensures read { IsFound (deeper_stmt (code_within self.now.depth) at.old) result at.new }
        ensures within { IfOk result (λ found. found.need ≤ self.now.depth + 1) }
    {
        let found = self.stmt_by(at)?;
        if !(ends(&found.node) || at.is_end()) {
            return refused(found);
        }
        Ok(Found {
            need: found.need + 1,
            node: found.node,
        })
    }

    /// Parses an arm with its comma, if it has one, unless it is nested too deep. It counts one
    /// level more than what is around it.
    pub fn deeper_arm(&self, at: &mut Ahead<'_>) -> Result<Found<Arm>, ReadNone>
        requires { AreCode self.now.depth (P.pre self.now.exprs) (P.post self.now.exprs)
            (B.pre self.now.blocks) (B.post self.now.blocks) (I.pre self.now.items)
            (I.post self.now.items) }
        ensures read { IsFound (deeper_arm (code_within self.now.depth) self.now.depth at.old)
            result at.new }
        ensures within { IfOk result (λ found. found.need ≤ self.now.depth + 1) }
    {
        let Found { node, need } = self.arm_begun(at)?;
        let (arm, free) = node;
        if !takes_alone_end(at, free) || need > self.depth {
            return refused(arm);
        }
        Ok(Found {
            need: need + 1,
            node: arm,
        })
    }
}
