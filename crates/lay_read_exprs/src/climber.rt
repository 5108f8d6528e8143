//! Parsing of expressions: an operand, and the operators after it.
ghost use Rattle.std.specs.Prelude.{◌≡◌, ◌+◌, ◌≤◌, IfOk};
ghost use Rattle.lay_code.specs.reader.Exprs as reader;
ghost use Rattle.lay_read_tokens.specs.Answers.{IsFound};
ghost use Rattle.lay_read_shared.specs.Code.{code_within};
ghost use Rattle.lay_read_operators.specs.Answers.{AreExprs};

use lay_code::{Boxed, Expr, Place};
use lay_read_blocks::BlockHeads;
use lay_read_operators::ExprRules;
use lay_read_operators::climb::{accepted, is_ended};
use lay_read_tokens::{Ahead, Found, ReadNone};
use std::alloc::Global;

/// The rules of expressions of one level, with a reader of those that begin with a block.
#[derive(Drop)]
pub struct Climber<P, H> {
    pub rules: ExprRules<P>,
    /// The reader of closures and of expressions that begin with a block.
    pub heads: H,
}

impl<
    P: Fn(Global, &mut Ahead<'_>, Place, u32) -> Result<Found<Boxed<Expr>>, ReadNone>,
    H: BlockHeads,
> Climber<P, H> {
    /// Parses an expression at a place. What it contains is parsed at the next deeper level.
    #[tactic(auto, unfolding(lay_code::specs::reader::Exprs::expr_by))]
    #[inline(never)]
    pub fn expr_by(&self, at: &mut Ahead<'_>, place: Place) -> Result<Found<Boxed<Expr>>, ReadNone>
        requires deeper { AreExprs self.now.rules.depth (P.pre self.now.rules.exprs)
            (P.post self.now.rules.exprs) }
        requires heads { H.are_ready self.now.heads }
        requires same { H.depth self.now.heads ≡ self.now.rules.depth }
        ensures read { IsFound (reader.expr_by (code_within self.now.rules.depth)
            (self.now.rules.depth + 1) place at.old) result at.new }
        ensures within { IfOk result (λ found. found.need ≤ self.now.rules.depth + 1) }
    {
        let head = self.head(at, place.no_struct)?;
        if is_ended(at, place, head.node.get()) {
            accepted(at, place, head, self.rules.depth + 1)
        } else {
            self.rules.climb(at, place, 14, head)
        }
    }
}
