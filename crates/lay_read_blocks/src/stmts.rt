//! Parsing of statements.
ghost use Rattle.std.specs.Prelude.{◌≡◌, ◌≤◌, max, codes, is_some, option_map, IfOk};
ghost use Rattle.lay_node.specs.Ahead.{first, is_keyword, tail};
ghost use Rattle.lay_node.specs.reader.Types.{if_read};
ghost use Rattle.lay_code.specs.nodes.Code.{about_expr};
ghost use Rattle.lay_code.specs.reader.Blocks as reader;
ghost use Rattle.lay_code.specs.reader.Code.{code_in};
ghost use Rattle.lay_read_tokens.specs.Answers.{IsFound};
ghost use Rattle.lay_read_shared.specs.Code.{code_within};
ghost use Rattle.lay_read_blocks.specs.Answers.{AreCode, let_behind, let_head, let_of};

use crate::front::begins_item;
use crate::rules::BlockRules;
use lay_code::{Attr, Block, Boxed, Expr, Item, Pat, PatPlace, Place, Site, Stmt, Ty};
use lay_ops::is_call;
use lay_ops::places::STATEMENT;
use lay_ops_ends::may_precede_else;
use lay_read_parts::joins::{both, refused};
use lay_read_pats::pat_ahead;
use lay_read_shared::types::type_if;
use lay_read_tokens::attributes::attrs_ahead;
use lay_read_tokens::found::greater;
use lay_read_tokens::front::{takes_keyword, takes_mark};
use lay_read_tokens::stop::boxed;
use lay_read_tokens::{Ahead, Found, ReadNone};
use lay_token::List;
use std::alloc::Global;

/// Whether an `else` may stand after this value, if there is an `else`.
fn else_stands(value: &Option<Boxed<Expr>>, otherwise: bool) -> bool
    ensures { result ≡ reader.else_stands value.now otherwise }
{
    if !otherwise {
        return true;
    }
    match value {
        Some(value) => may_precede_else(value.get()),
        None => false,
    }
}

/// Parses the pattern of a `let`, and its type if it has one.
#[inline(never)]
fn let_head(
    alloc: Global,
    at: &mut Ahead<'_>,
    depth: u32,
) -> Result<Found<(Pat, Option<Ty>)>, ReadNone>
    ensures read { IsFound (let_head (code_within depth) at.old) result at.new }
    ensures within { IfOk result (λ found. found.need ≤ depth) }
{
    let pat = pat_ahead(alloc, at, PatPlace::Single, depth)?;
    let (pat, ty) = both(pat, type_if(alloc, at, b":", depth))?;
    Ok(Found {
        need: greater(pat.need, ty.need),
        node: (pat.node, ty.node),
    })
}

/// A `let` statement of its parts. It is a function of its own, so that the caller's frame has no
/// room for these moves while the value is read.
#[inline(never)]
fn let_of(
    attrs: List<Attr>,
    head: Found<(Pat, Option<Ty>)>,
    behind: Result<Found<(Option<Boxed<Expr>>, Option<Block>)>, ReadNone>,
) -> Result<Found<Stmt>, ReadNone>
    ensures { result ≡ let_of attrs head behind }
{
    let (head, behind) = both(head, behind)?;
    let (pat, ty) = head.node;
    let (value, otherwise) = behind.node;
    Ok(Found {
        need: greater(head.need, behind.need),
        node: Stmt::Let {
            attrs,
            pat,
            ty,
            value,
            otherwise,
        },
    })
}

impl<
    P: Fn(Global, &mut Ahead<'_>, Place, u32) -> Result<Found<Boxed<Expr>>, ReadNone>,
    B: Fn(Global, &mut Ahead<'_>, u32) -> Result<Found<Block>, ReadNone>,
    I: Fn(Global, &mut Ahead<'_>, Site, u32) -> Result<Found<Item>, ReadNone>,
> BlockRules<P, B, I> {
    /// Parses a statement.
    #[tactic(auto, unfolding(lay_code::specs::reader::Blocks::stmt_by))]
    #[inline(always)]
    pub fn stmt_by(&self, at: &mut Ahead<'_>) -> Result<Found<Stmt>, ReadNone>
        requires { AreCode self.now.depth (P.pre self.now.exprs) (P.post self.now.exprs)
            (B.pre self.now.blocks) (B.post self.now.blocks) (I.pre self.now.items)
            (I.post self.now.items) }
        ensures read { IsFound (reader.stmt_by (code_within self.now.depth) at.old) result at.new }
        ensures within { IfOk result (λ found. found.need ≤ self.now.depth) }
    {
        let begun = at.fork();
        let attrs = attrs_ahead(self.alloc, at, false)?;
        if takes_keyword(at, b"let") {
            return self.let_stmt(at, attrs);
        }
        if !begins_item(at) {
            return self.expr_stmt(at, attrs);
        }
        *at = begun;
        self.item_stmt(at)
    }

    /// Parses an item that is no macro call.
    #[inline(never)]
    fn item_stmt(&self, at: &mut Ahead<'_>) -> Result<Found<Stmt>, ReadNone>
        requires { AreCode self.now.depth (P.pre self.now.exprs) (P.post self.now.exprs)
            (B.pre self.now.blocks) (B.post self.now.blocks) (I.pre self.now.items)
            (I.post self.now.items) }
        ensures read { IsFound (reader.item_stmt (code_within self.now.depth) at.old) result
            at.new }
        ensures within { IfOk result (λ found. found.need ≤ self.now.depth) }
    {
        let found = (self.items)(self.alloc, at, Site::Module, self.depth)?;
        if is_call(&found.node) {
            return refused(found);
        }
        let item = boxed(self.alloc, found.node)?;
        Ok(Found {
            node: Stmt::Item { item },
            need: found.need,
        })
    }

    /// Parses an expression, and its `;` if it has one.
    #[tactic(auto, unfolding(lay_code::specs::reader::Blocks::expr_stmt))]
    #[inline(never)]
    fn expr_stmt(&self, at: &mut Ahead<'_>, attrs: List<Attr>) -> Result<Found<Stmt>, ReadNone>
        requires { AreCode self.now.depth (P.pre self.now.exprs) (P.post self.now.exprs)
            (B.pre self.now.blocks) (B.post self.now.blocks) (I.pre self.now.items)
            (I.post self.now.items) }
        ensures read { IsFound (reader.expr_stmt (code_within self.now.depth) attrs at.old) result
            at.new }
        ensures within { IfOk result (λ found. found.need ≤ self.now.depth) }
    {
        let (attrs, found) = both(attrs, self.expr(at, STATEMENT))?;
        let ended = takes_mark(at, b";");
        Ok(Found {
            need: found.need,
            node: Stmt::Expr {
                attrs,
                expr: found.node,
                ended,
            },
        })
    }

    /// Parses a `let` statement after its `let`.
    #[tactic(auto, unfolding(lay_code::specs::reader::Blocks::let_stmt))]
    #[inline(never)]
    fn let_stmt(&self, at: &mut Ahead<'_>, attrs: List<Attr>) -> Result<Found<Stmt>, ReadNone>
        requires { AreCode self.now.depth (P.pre self.now.exprs) (P.post self.now.exprs)
            (B.pre self.now.blocks) (B.post self.now.blocks) (I.pre self.now.items)
            (I.post self.now.items) }
        ensures read { IsFound (reader.let_stmt (code_within self.now.depth) attrs at.old) result
            at.new }
        ensures within { IfOk result (λ found. found.need ≤ self.now.depth) }
    {
        match let_head(self.alloc, at, self.depth) {
            Ok(head) => {
                let behind = self.let_behind(at);
                let_of(attrs, head, behind)
            }
            Err(none) => Err(none),
        }
    }

    /// Parses a `let` statement after its pattern and type: a value and an `else` with its block,
    /// if they come next, and a `;`.
    #[inline(never)]
    fn let_behind(
        &self,
        at: &mut Ahead<'_>,
    ) -> Result<Found<(Option<Boxed<Expr>>, Option<Block>)>, ReadNone>
        requires { AreCode self.now.depth (P.pre self.now.exprs) (P.post self.now.exprs)
            (B.pre self.now.blocks) (B.post self.now.blocks) (I.pre self.now.items)
            (I.post self.now.items) }
        ensures read { IsFound (let_behind (code_within self.now.depth) at.old) result at.new }
        ensures within { IfOk result (λ found. found.need ≤ self.now.depth) }
    {
        let value = self.value_if(at)?;
        let (value, otherwise) = both(value, self.else_if(at))?;
        if !takes_mark(at, b";") || !else_stands(&value.node, otherwise.node.is_some()) {
            return refused((value, otherwise));
        }
        Ok(Found {
            need: greater(value.need, otherwise.need),
            node: (value.node, otherwise.node),
        })
    }

    /// Parses the block after an `else`, if one comes next.
    #[inline(never)]
    fn else_if(&self, at: &mut Ahead<'_>) -> Result<Found<Option<Block>>, ReadNone>
        requires { AreCode self.now.depth (P.pre self.now.exprs) (P.post self.now.exprs)
            (B.pre self.now.blocks) (B.post self.now.blocks) (I.pre self.now.items)
            (I.post self.now.items) }
        ensures read { IsFound (if_read (first (is_keyword (codes "else")) at.old)
            (λ ts. (code_in self.now.depth).blocks (tail ts)) at.old) result at.new }
        ensures within { IfOk result (λ found. found.need ≤ self.now.depth) }
    {
        if !takes_keyword(at, b"else") {
            return Ok(Found {
                node: None,
                need: 0,
            });
        }
        let block = (self.blocks)(self.alloc, at, self.depth)?;
        Ok(Found {
            node: Some(block.node),
            need: block.need,
        })
    }
}
