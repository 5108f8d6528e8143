//! Parsing of closures.
ghost use Rattle.std.specs.Prelude.{ℕ, ◌≡◌, ◌+◌, ◌^◌, ◌<◌, ◌≤◌, codes, IfOk};
ghost use Rattle.lay_node.specs.Ahead.{is_mark};
ghost use Rattle.lay_node.specs.reader.Loops.{elements};
ghost use Rattle.lay_code.specs.nodes.Bodies.{sheds};
ghost use Rattle.lay_code.specs.nodes.Code.{about_expr};
ghost use Rattle.lay_code.specs.reader.Blocks.{body_need};
ghost use Rattle.lay_code.specs.reader.Exprs as exprs;
ghost use Rattle.lay_ops_ends.specs.Bodies.{IsShed};
ghost use Rattle.lay_read_tokens.specs.Answers.{AreFound, IsFound, IsHeld};
ghost use Rattle.lay_read_shared.specs.Code.{code_within};
ghost use Rattle.lay_read_blocks.specs.Answers.{AreCode, fits, typed_closure};

use crate::rules::BlockRules;
use lay_code::{Block, Boxed, ClosureParam, Expr, Item, PatPlace, Place, Site, TypePlace};
use lay_ops::places::plain;
use lay_ops::sheds;
use lay_ops_ends::shed;
use lay_read_parts::joins::{both, refused};
use lay_read_parts::loops::{Closer, Part, read_elements};
use lay_read_pats::pat_ahead;
use lay_read_shared::boxes::boxed_found;
use lay_read_shared::types::type_if;
use lay_read_tokens::attributes::attrs_ahead;
use lay_read_tokens::found::greater;
use lay_read_tokens::front::{pass_two, takes_keyword, takes_mark};
use lay_read_tokens::{Ahead, Found, ReadNone};
use lay_read_types::type_ahead;
use lay_token::List;
use std::alloc::Global;

/// The body of a closure without braces that aren't in the tree. In such braces it needs as much
/// depth as they do.
fn closure_body_of(found: Found<Boxed<Expr>>, no_struct: bool) -> Found<Boxed<Expr>>
    requires { found.need + 1 < 2 ^ 32 }
    ensures node { (turns : ℕ) × IsShed no_struct turns found.node result.node }
    ensures need { result.need ≡ body_need (sheds
        (about_expr found.node).kind no_struct) found.need }
{
    let need = if sheds(found.node.get(), no_struct) {
        found.need
    } else {
        found.need + 1
    };
    Found {
        node: shed(found.node, no_struct),
        need,
    }
}

/// Parameters of a closure as the elements of a list.
pub struct Params;

impl Part<ClosureParam, ()> for Params {
    ghost reads = { λ depth place ts. exprs.closure_param (code_within depth) ts };
}

impl<
    P: Fn(Global, &mut Ahead<'_>, Place, u32) -> Result<Found<Boxed<Expr>>, ReadNone>,
    B: Fn(Global, &mut Ahead<'_>, u32) -> Result<Found<Block>, ReadNone>,
    I: Fn(Global, &mut Ahead<'_>, Site, u32) -> Result<Found<Item>, ReadNone>,
> BlockRules<P, B, I> {
    /// Parses a parameter of a closure.
    #[tactic(auto, unfolding(lay_code::specs::reader::Exprs::closure_param))]
    #[inline(never)]
    fn closure_param(&self, at: &mut Ahead<'_>, _place: ()) -> Result<Found<ClosureParam>, ReadNone>
        requires { AreCode self.now.depth (P.pre self.now.exprs) (P.post self.now.exprs)
            (B.pre self.now.blocks) (B.post self.now.blocks) (I.pre self.now.items)
            (I.post self.now.items) }
        ensures read { IsFound (exprs.closure_param (code_within self.now.depth) at.old) result
            at.new }
        ensures within { IfOk result (λ found. found.need ≤ self.now.depth) }
    {
        let attrs = attrs_ahead(self.alloc, at, false)?;
        let (attrs, pat) = both(
            attrs,
            pat_ahead(self.alloc, at, PatPlace::Single, self.depth),
        )?;
        let ((attrs, pat), ty) = both((attrs, pat), type_if(self.alloc, at, b":", self.depth))?;
        Ok(Found {
            need: greater(pat.need, ty.need),
            node: ClosureParam {
                attrs,
                pat: pat.node,
                ty: ty.node,
            },
        })
    }

    /// Parses parameters, and the `|` after them.
    #[tactic(auto, using(lay_read_shared::proofs::Left::param_leaves))]
    #[inline(never)]
    fn params(&self, at: &mut Ahead<'_>) -> Result<Found<List<ClosureParam>>, ReadNone>
        requires { AreCode self.now.depth (P.pre self.now.exprs) (P.post self.now.exprs)
            (B.pre self.now.blocks) (B.post self.now.blocks) (I.pre self.now.items)
            (I.post self.now.items) }
        ensures read { IsHeld AreFound (elements (is_mark (codes "|"))
            (exprs.closure_param (code_within self.now.depth)) at.old) result at.new }
        ensures within { IfOk result (λ found. found.need ≤ self.now.depth) }
    {
        read_elements::<Params, BlockRules<P, B, I>, ClosureParam, (), _>(
            self.alloc,
            at,
            self.depth,
            Closer::Bar,
            self,
            BlockRules::closure_param,
            (),
        )
    }

    /// Parses a closure, unless it is nested too deep.
    #[tactic(auto, unfolding(lay_code::specs::reader::Exprs::closure_expr))]
    #[inline(never)]
    pub fn closure_expr(
        &self,
        at: &mut Ahead<'_>,
        no_struct: bool,
    ) -> Result<Found<Boxed<Expr>>, ReadNone>
        requires { AreCode self.now.depth (P.pre self.now.exprs) (P.post self.now.exprs)
            (B.pre self.now.blocks) (B.post self.now.blocks) (I.pre self.now.items)
            (I.post self.now.items) }
        ensures read { IsFound (fits (self.now.depth + 1)
            (exprs.closure_expr (code_within self.now.depth) no_struct at.old)) result at.new }
        ensures within { IfOk result (λ found. found.need ≤ self.now.depth + 1) }
    {
        let is_async = takes_keyword(at, b"async");
        let moves = takes_keyword(at, b"move");
        if !takes_mark(at, b"|") {
            return Err(ReadNone::NoReading);
        }
        let params = self.params(at)?;
        self.closure_body(at, no_struct, is_async, moves, params)
    }

    /// Parses a closure after its parameters, unless it is nested too deep.
    #[inline(never)]
    fn closure_body(
        &self,
        at: &mut Ahead<'_>,
        no_struct: bool,
        is_async: bool,
        moves: bool,
        params: Found<List<ClosureParam>>,
    ) -> Result<Found<Boxed<Expr>>, ReadNone>
        requires code { AreCode self.now.depth (P.pre self.now.exprs) (P.post self.now.exprs)
            (B.pre self.now.blocks) (B.post self.now.blocks) (I.pre self.now.items)
            (I.post self.now.items) }
        requires within { params.need ≤ self.now.depth }
        ensures read { IsFound (fits (self.now.depth + 1)
            (exprs.closure_body (code_within self.now.depth) no_struct is_async moves params.node params.need at.old)) result at.new }
        ensures within { IfOk result (λ found. found.need ≤ self.now.depth + 1) }
    {
        if at.op_is(b"->") {
            return self.typed_closure(at, is_async, moves, params);
        }
        let (params, found) = both(params, self.expr(at, plain(0, no_struct)))?;
        let body = closure_body_of(found, no_struct);
        if body.need > self.depth {
            return refused((params, body));
        }
        boxed_found(
            self.alloc,
            Expr::Closure {
                is_async,
                moves,
                params: params.node,
                body: body.node,
            },
            greater(params.need, body.need) + 1,
        )
    }

    /// Parses a closure with a return type, from its `->` on.
    #[inline(never)]
    fn typed_closure(
        &self,
        at: &mut Ahead<'_>,
        is_async: bool,
        moves: bool,
        params: Found<List<ClosureParam>>,
    ) -> Result<Found<Boxed<Expr>>, ReadNone>
        requires code { AreCode self.now.depth (P.pre self.now.exprs) (P.post self.now.exprs)
            (B.pre self.now.blocks) (B.post self.now.blocks) (I.pre self.now.items)
            (I.post self.now.items) }
        requires within { params.need ≤ self.now.depth }
        ensures read { IsFound (typed_closure
            (code_within self.now.depth) is_async moves params.node params.need at.old) result
            at.new }
        ensures within { IfOk result (λ found. found.need ≤ self.now.depth + 1) }
    {
        pass_two(at);
        let (params, output) = both(
            params,
            type_ahead(self.alloc, at, TypePlace::NoBounds, self.depth),
        )?;
        let ((params, output), body) = both((params, output), self.block_by(at))?;
        boxed_found(
            self.alloc,
            Expr::TypedClosure {
                is_async,
                moves,
                params: params.node,
                output: output.node,
                body: body.node,
            },
            greater(params.need, greater(output.need, body.need)) + 1,
        )
    }
}
