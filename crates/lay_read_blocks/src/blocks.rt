//! Parsing of blocks.
ghost use Rattle.std.specs.Prelude.{◌≡◌, ◌+◌, ◌≤◌, IfOk};
ghost use Rattle.lay_node.specs.Ahead.{more_items};
ghost use Rattle.lay_node.specs.reader.Loops.{repeat};
ghost use Rattle.lay_code.specs.reader.Blocks as reader;
ghost use Rattle.lay_code.specs.reader.Code as code;
ghost use Rattle.lay_read_tokens.specs.Answers.{AreFound, IsFound, IsHeld};
ghost use Rattle.lay_read_shared.specs.Code.{code_within};
ghost use Rattle.lay_read_blocks.specs.Answers.{AreCode, body_if};

use crate::front::pass_semicolons;
use crate::rules::BlockRules;
use lay_code::{Block, Boxed, Expr, Item, Place, Site, Stmt};
use lay_ops::ends;
use lay_read_parts::joins::{both, refused};
use lay_read_parts::loops::Part;
use lay_read_shared::loops::{Going, read_parts};
use lay_read_tokens::attributes::attrs_ahead;
use lay_read_tokens::front::{is_at_closer, is_at_opened, takes_closer, takes_mark, takes_opener};
use lay_read_tokens::{Ahead, Found, ReadNone};
use lay_token::{Delim, List};
use std::alloc::Global;

/// Statements of a block as consecutive parts.
pub struct Stmts;

impl Part<Stmt, ()> for Stmts {
    ghost reads = { λ depth place ts. reader.stmt_in_block (code_within depth) ts };
}

impl<
    P: Fn(Global, &mut Ahead<'_>, Place, u32) -> Result<Found<Boxed<Expr>>, ReadNone>,
    B: Fn(Global, &mut Ahead<'_>, u32) -> Result<Found<Block>, ReadNone>,
    I: Fn(Global, &mut Ahead<'_>, Site, u32) -> Result<Found<Item>, ReadNone>,
> BlockRules<P, B, I> {
    /// Parses a block.
    #[tactic(auto, unfolding(lay_code::specs::reader::Blocks::block_by))]
    #[inline(never)]
    pub fn block_by(&self, at: &mut Ahead<'_>) -> Result<Found<Block>, ReadNone>
        requires { AreCode self.now.depth (P.pre self.now.exprs) (P.post self.now.exprs)
            (B.pre self.now.blocks) (B.post self.now.blocks) (I.pre self.now.items)
            (I.post self.now.items) }
        ensures read { IsFound (reader.block_by (code_within self.now.depth) at.old) result at.new }
        ensures within { IfOk result (λ found. found.need ≤ self.now.depth) }
    {
        if !takes_opener(at, Delim::Brace) {
            return Err(ReadNone::NoReading);
        }
        let attrs = attrs_ahead(self.alloc, at, true)?;
        pass_semicolons(at);
        let (attrs, stmts) = both(attrs, self.stmts(at))?;
        if !takes_closer(at, Delim::Brace) {
            return refused((attrs, stmts));
        }
        Ok(Found {
            need: stmts.need,
            node: Block {
                attrs,
                stmts: stmts.node,
            },
        })
    }

    /// Parses a block that counts one level more than what is around it.
    #[inline(never)]
    pub fn deeper_block(&self, at: &mut Ahead<'_>) -> Result<Found<Block>, ReadNone>
        requires { AreCode self.now.depth (P.pre self.now.exprs) (P.post self.now.exprs)
            (B.pre self.now.blocks) (B.post self.now.blocks) (I.pre self.now.items)
            (I.post self.now.items) }
        ensures read { IsFound (code.deeper_block (code_within self.now.depth) at.old) result
            at.new }
        ensures within { IfOk result (λ found. found.need ≤ self.now.depth + 1) }
    {
        let found = self.block_by(at)?;
        Ok(Found {
            need: found.need + 1,
            node: found.node,
        })
    }

    /// Parses the body of a function, or the `;` where it has none.
    #[inline(never)]
    pub fn fn_body(&self, at: &mut Ahead<'_>) -> Result<Found<Option<Block>>, ReadNone>
        requires { AreCode self.now.depth (P.pre self.now.exprs) (P.post self.now.exprs)
            (B.pre self.now.blocks) (B.post self.now.blocks) (I.pre self.now.items)
            (I.post self.now.items) }
        ensures read { IsFound (body_if (code_within self.now.depth) at.old) result at.new }
        ensures within { IfOk result (λ found. found.need ≤ self.now.depth) }
    {
        if is_at_opened(at, Delim::Brace) {
            let block = self.block_by(at)?;
            Ok(Found {
                node: Some(block.node),
                need: block.need,
            })
        } else if takes_mark(at, b";") {
            Ok(Found {
                node: None,
                need: 0,
            })
        } else {
            Err(ReadNone::NoReading)
        }
    }

    /// Parses statements up to the end of the block.
    #[tactic(auto, using(lay_read_shared::proofs::Left::stmt_leaves))]
    #[inline(never)]
    fn stmts(&self, at: &mut Ahead<'_>) -> Result<Found<List<Stmt>>, ReadNone>
        requires { AreCode self.now.depth (P.pre self.now.exprs) (P.post self.now.exprs)
            (B.pre self.now.blocks) (B.post self.now.blocks) (I.pre self.now.items)
            (I.post self.now.items) }
        ensures read { IsHeld AreFound (repeat more_items
            (reader.stmt_in_block (code_within self.now.depth)) at.old) result at.new }
        ensures within { IfOk result (λ found. found.need ≤ self.now.depth) }
    {
        read_parts::<Stmts, BlockRules<P, B, I>, Stmt, (), _>(
            self.alloc,
            at,
            self.depth,
            Going::Items,
            self,
            BlockRules::stmt_in_block,
            (),
        )
    }

    /// Parses a statement of a block, and the `;` after it. One that doesn't end by itself is the
    /// last.
    #[inline(never)]
    fn stmt_in_block(&self, at: &mut Ahead<'_>, _place: ()) -> Result<Found<Stmt>, ReadNone>
        requires { AreCode self.now.depth (P.pre self.now.exprs) (P.post self.now.exprs)
            (B.pre self.now.blocks) (B.post self.now.blocks) (I.pre self.now.items)
            (I.post self.now.items) }
        ensures read { IsFound (reader.stmt_in_block (code_within self.now.depth) at.old) result
            at.new }
        ensures within { IfOk result (λ found. found.need ≤ self.now.depth) }
    {
        let found = self.stmt_by(at)?;
        if !(ends(&found.node) || is_at_closer(at, Delim::Brace)) {
            return refused(found);
        }
        pass_semicolons(at);
        Ok(found)
    }
}
