//! Parsing of expressions that begin with a block, with a word before one, or with a label, and of
//! closures.
ghost use Rattle.std.specs.Prelude.{◌≡◌, ◌+◌, ◌≤◌, None, IfOk};
ghost use Rattle.lay_code.specs.reader.Exprs as exprs;
ghost use Rattle.lay_read_tokens.specs.Answers.{IsFound};
ghost use Rattle.lay_read_shared.specs.Code.{code_within};
ghost use Rattle.lay_read_blocks.specs.Answers.{AreCode, block_head, fits};
ghost use Rattle.lay_read_branches.specs.Answers.{worded, worded_block};

use crate::rules::BranchRules;
use lay_code::{Block, Boxed, Expr, Item, Lifetime, Place, Site};
use lay_ops::operands::ExprLead;
use lay_read_blocks::BlockHeads;
use lay_read_parts::joins::{both, refused};
use lay_read_parts::parts::read_lifetime;
use lay_read_shared::boxes::boxed_found;
use lay_read_tokens::front::{is_at_keyword, is_at_opened, takes_keyword, takes_op};
use lay_read_tokens::{Ahead, Found, ReadNone};
use lay_token::Delim;
use std::alloc::Global;

impl<
    P: Fn(Global, &mut Ahead<'_>, Place, u32) -> Result<Found<Boxed<Expr>>, ReadNone> + Copy,
    B: Fn(Global, &mut Ahead<'_>, u32) -> Result<Found<Block>, ReadNone>,
    I: Fn(Global, &mut Ahead<'_>, Site, u32) -> Result<Found<Item>, ReadNone>,
> BranchRules<P, B, I> {
    /// Parses an expression that contains a block, or a closure, by its first token, unless it is
    /// nested too deep.
    #[inline(never)]
    pub fn block_head(
        &self,
        at: &mut Ahead<'_>,
        no_struct: bool,
        lead: ExprLead,
    ) -> Result<Found<Boxed<Expr>>, ReadNone>
        requires { AreCode self.now.rules.depth (P.pre self.now.rules.exprs)
            (P.post self.now.rules.exprs) (B.pre self.now.rules.blocks)
            (B.post self.now.rules.blocks) (I.pre self.now.rules.items)
            (I.post self.now.rules.items) }
        ensures read { IsFound (fits (self.now.rules.depth + 1)
            (block_head (code_within self.now.rules.depth) no_struct lead at.old)) result at.new }
        ensures within { IfOk result (λ found. found.need ≤ self.now.rules.depth + 1) }
    {
        match lead {
            ExprLead::Label => self.label_expr(at),
            ExprLead::Brace => self.labelled_expr(at, None),
            ExprLead::BlockWord => self.block_word_expr(at),
            ExprLead::Closure => self.rules.closure_expr(at, no_struct),
            _ => Err(ReadNone::NoReading),
        }
    }

    /// Parses a block or a loop after its label.
    #[tactic(auto, unfolding(lay_code::specs::reader::Exprs::label_expr))]
    #[inline(never)]
    fn label_expr(&self, at: &mut Ahead<'_>) -> Result<Found<Boxed<Expr>>, ReadNone>
        requires { AreCode self.now.rules.depth (P.pre self.now.rules.exprs)
            (P.post self.now.rules.exprs) (B.pre self.now.rules.blocks)
            (B.post self.now.rules.blocks) (I.pre self.now.rules.items)
            (I.post self.now.rules.items) }
        ensures read { IsFound (exprs.label_expr (code_within self.now.rules.depth) at.old) result
            at.new }
        ensures within { IfOk result (λ found. found.need ≤ self.now.rules.depth + 1) }
    {
        let label = read_lifetime(self.rules.alloc, at)?;
        if !takes_op(at, b":") {
            return refused(label);
        }
        self.labelled_expr(at, Some(label))
    }

    /// Parses a block or a loop, after its label if it has one.
    #[inline(never)]
    fn labelled_expr(
        &self,
        at: &mut Ahead<'_>,
        label: Option<Lifetime>,
    ) -> Result<Found<Boxed<Expr>>, ReadNone>
        requires { AreCode self.now.rules.depth (P.pre self.now.rules.exprs)
            (P.post self.now.rules.exprs) (B.pre self.now.rules.blocks)
            (B.post self.now.rules.blocks) (I.pre self.now.rules.items)
            (I.post self.now.rules.items) }
        ensures read { IsFound (exprs.labelled_expr (code_within self.now.rules.depth) label at.old)
            result at.new }
        ensures within { IfOk result (λ found. found.need ≤ self.now.rules.depth + 1) }
    {
        if is_at_opened(at, Delim::Brace) {
            let (label, body) = both(label, self.rules.block_by(at))?;
            return boxed_found(
                self.rules.alloc,
                Expr::Block {
                    label,
                    body: body.node,
                },
                body.need + 1,
            );
        }
        if takes_keyword(at, b"loop") {
            let (label, body) = both(label, self.rules.block_by(at))?;
            return boxed_found(
                self.rules.alloc,
                Expr::Loop {
                    label,
                    body: body.node,
                },
                body.need + 1,
            );
        }
        if takes_keyword(at, b"while") {
            return self.while_expr(at, label);
        }
        if takes_keyword(at, b"for") {
            return self.for_expr(at, label);
        }
        refused(label)
    }

    /// Parses an expression that contains a block and begins with a word.
    #[tactic(auto, unfolding(lay_code::specs::reader::Exprs::block_word_expr))]
    #[inline(never)]
    fn block_word_expr(&self, at: &mut Ahead<'_>) -> Result<Found<Boxed<Expr>>, ReadNone>
        requires { AreCode self.now.rules.depth (P.pre self.now.rules.exprs)
            (P.post self.now.rules.exprs) (B.pre self.now.rules.blocks)
            (B.post self.now.rules.blocks) (I.pre self.now.rules.items)
            (I.post self.now.rules.items) }
        ensures read { IsFound (fits (self.now.rules.depth + 1)
            (exprs.block_word_expr (code_within self.now.rules.depth) at.old)) result at.new }
        ensures within { IfOk result (λ found. found.need ≤ self.now.rules.depth + 1) }
    {
        if is_at_keyword(at, b"unsafe")
            || is_at_keyword(at, b"const")
            || is_at_keyword(at, b"async")
        {
            return self.worded_block(at);
        }
        self.worded(at)
    }

    /// Parses a block after its `unsafe`, `const` or `async`.
    #[inline(never)]
    fn worded_block(&self, at: &mut Ahead<'_>) -> Result<Found<Boxed<Expr>>, ReadNone>
        requires { AreCode self.now.rules.depth (P.pre self.now.rules.exprs)
            (P.post self.now.rules.exprs) (B.pre self.now.rules.blocks)
            (B.post self.now.rules.blocks) (I.pre self.now.rules.items)
            (I.post self.now.rules.items) }
        ensures read { IsFound (worded_block (code_within self.now.rules.depth) at.old) result
            at.new }
        ensures within { IfOk result (λ found. found.need ≤ self.now.rules.depth + 1) }
    {
        if takes_keyword(at, b"unsafe") {
            let body = self.rules.block_by(at)?;
            return boxed_found(
                self.rules.alloc,
                Expr::Unsafe { body: body.node },
                body.need + 1,
            );
        }
        if takes_keyword(at, b"const") {
            let body = self.rules.block_by(at)?;
            return boxed_found(
                self.rules.alloc,
                Expr::ConstBlock { body: body.node },
                body.need + 1,
            );
        }
        if takes_keyword(at, b"async") {
            let moves = takes_keyword(at, b"move");
            let body = self.rules.block_by(at)?;
            return boxed_found(
                self.rules.alloc,
                Expr::Async {
                    moves,
                    body: body.node,
                },
                body.need + 1,
            );
        }
        Err(ReadNone::NoReading)
    }

    /// Parses an `if`, a `match` or a loop.
    #[inline(always)]
    fn worded(&self, at: &mut Ahead<'_>) -> Result<Found<Boxed<Expr>>, ReadNone>
        requires { AreCode self.now.rules.depth (P.pre self.now.rules.exprs)
            (P.post self.now.rules.exprs) (B.pre self.now.rules.blocks)
            (B.post self.now.rules.blocks) (I.pre self.now.rules.items)
            (I.post self.now.rules.items) }
        ensures read { IsFound (fits (self.now.rules.depth + 1)
            (worded (code_within self.now.rules.depth) at.old)) result at.new }
        ensures within { IfOk result (λ found. found.need ≤ self.now.rules.depth + 1) }
    {
        if takes_keyword(at, b"if") {
            return self.if_expr(at);
        }
        if takes_keyword(at, b"match") {
            return self.rules.match_expr(at);
        }
        self.labelled_expr(at, None)
    }
}

impl<
    P: Fn(Global, &mut Ahead<'_>, Place, u32) -> Result<Found<Boxed<Expr>>, ReadNone> + Copy,
    B: Fn(Global, &mut Ahead<'_>, u32) -> Result<Found<Block>, ReadNone>,
    I: Fn(Global, &mut Ahead<'_>, Site, u32) -> Result<Found<Item>, ReadNone>,
> BlockHeads for BranchRules<P, B, I> {
    ghost depth = { λ it. it.rules.depth };

    ghost are_ready = { λ it. AreCode it.rules.depth (P.pre it.rules.exprs) (P.post it.rules.exprs)
        (B.pre it.rules.blocks) (B.post it.rules.blocks) (I.pre it.rules.items)
        (I.post it.rules.items) };

    fn block_head(
        &self,
        at: &mut Ahead<'_>,
        no_struct: bool,
        lead: ExprLead,
    ) -> Result<Found<Boxed<Expr>>, ReadNone> {
        BranchRules::block_head(self, at, no_struct, lead)
    }
}
