//! The rules of blocks of one level, over the readers of the next deeper level.
ghost use Rattle.std.specs.Prelude.{◌≡◌, ◌≤◌, codes, drop, IfOk};
ghost use Rattle.lay_token.specs.Operators.{is_op};
ghost use Rattle.lay_node.specs.reader.Types.{if_read};
ghost use Rattle.lay_code.specs.nodes.Places as places;
ghost use Rattle.lay_code.specs.reader.Code.{expr_at};
ghost use Rattle.lay_read_tokens.specs.Answers.{IsFound};
ghost use Rattle.lay_read_blocks.specs.Answers.{AreCode};

use lay_code::{Block, Boxed, Expr, Item, Place, Site};
use lay_ops::places::FREE;
use lay_read_tokens::front::takes_op;
use lay_read_tokens::{Ahead, Found, ReadNone};
use std::alloc::Global;

/// The rules of blocks of one level, over the readers of the next deeper level: of expressions at a
/// place, of blocks after an `else`, and of items at a site.
#[derive(Drop)]
pub struct BlockRules<P, B, I> {
    pub alloc: Global,
    /// The depth limit of the next deeper level.
    pub depth: u32,
    pub exprs: P,
    pub blocks: B,
    pub items: I,
}

impl<
    P: Fn(Global, &mut Ahead<'_>, Place, u32) -> Result<Found<Boxed<Expr>>, ReadNone>,
    B: Fn(Global, &mut Ahead<'_>, u32) -> Result<Found<Block>, ReadNone>,
    I: Fn(Global, &mut Ahead<'_>, Site, u32) -> Result<Found<Item>, ReadNone>,
> BlockRules<P, B, I> {
    /// Parses an expression of the next deeper level, and boxes it.
    #[inline(never)]
    pub fn expr(&self, at: &mut Ahead<'_>, place: Place) -> Result<Found<Boxed<Expr>>, ReadNone>
        requires { AreCode self.now.depth (P.pre self.now.exprs) (P.post self.now.exprs)
            (B.pre self.now.blocks) (B.post self.now.blocks) (I.pre self.now.items)
            (I.post self.now.items) }
        ensures read { IsFound (expr_at place self.now.depth at.old) result at.new }
        ensures within { IfOk result (λ found. found.need ≤ self.now.depth) }
    {
        (self.exprs)(self.alloc, at, place, self.depth)
    }

    /// Parses a value after an `=`, if one comes next.
    pub fn value_if(&self, at: &mut Ahead<'_>) -> Result<Found<Option<Boxed<Expr>>>, ReadNone>
        requires { AreCode self.now.depth (P.pre self.now.exprs) (P.post self.now.exprs)
            (B.pre self.now.blocks) (B.post self.now.blocks) (I.pre self.now.items)
            (I.post self.now.items) }
        ensures read { IsFound (if_read (is_op (codes "=") at.old)
            (λ ts. expr_at places.FREE self.now.depth (drop 1 ts)) at.old) result at.new }
        ensures within { IfOk result (λ found. found.need ≤ self.now.depth) }
    {
        if !takes_op(at, b"=") {
            return Ok(Found {
                node: None,
                need: 0,
            });
        }
        let value = self.expr(at, FREE)?;
        Ok(Found {
            node: Some(value.node),
            need: value.need,
        })
    }
}
