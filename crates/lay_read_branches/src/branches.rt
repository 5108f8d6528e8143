//! Parsing of branches, and of the expressions with conditions.
ghost use Rattle.std.specs.Prelude.{◌≡◌, ◌+◌, ◌≤◌, codes, drop, max, IfOk};
ghost use Rattle.lay_node.specs.Ahead.{first, is_keyword, tail};
ghost use Rattle.lay_node.specs.reader.Loops.{repeat};
ghost use Rattle.lay_node.specs.reader.Types.{if_read};
ghost use Rattle.lay_code.specs.reader.Blocks as reader;
ghost use Rattle.lay_code.specs.reader.Exprs as exprs;
ghost use Rattle.lay_read_tokens.specs.Answers.{AreFound, IsFound, IsHeld};
ghost use Rattle.lay_read_shared.specs.Code.{code_within};
ghost use Rattle.lay_read_blocks.specs.Answers.{AreCode};
ghost use Rattle.lay_read_branches.specs.Answers.{AreBranches, branches};

use crate::rules::BranchRules;
use lay_code::{Block, Boxed, Branch, Expr, Item, Lifetime, PatPlace, Place, Site};
use lay_ops::places::plain;
use lay_read_parts::joins::{both, prepended, refused};
use lay_read_parts::loops::Part;
use lay_read_pats::pat_ahead;
use lay_read_shared::boxes::boxed_found;
use lay_read_shared::loops::{Going, read_parts};
use lay_read_tokens::found::greater;
use lay_read_tokens::front::{pass_two, takes_keyword, takes_op};
use lay_read_tokens::{Ahead, Found, ReadNone};
use lay_token::List;
use std::alloc::Global;

/// Branches after `else if` as consecutive parts.
pub struct Branches;

impl Part<Branch, ()> for Branches {
    ghost reads = { λ depth place ts. reader.branch_by (code_within depth) (drop 2 ts) };
}

/// A branch and those after it, in one list. It is a function of its own, so that the caller's
/// frame has no room for these moves while branches are read.
#[inline(never)]
fn branches_of(
    first: Found<Branch>,
    more: Result<Found<List<Branch>>, ReadNone>,
) -> Result<Found<List<Branch>>, ReadNone>
    ensures { AreBranches first more result }
{
    let (first, more) = both(first, more)?;
    let need = greater(first.need, more.need);
    let node = prepended(first.node, more.node)?;
    Ok(Found { node, need })
}

impl<
    P: Fn(Global, &mut Ahead<'_>, Place, u32) -> Result<Found<Boxed<Expr>>, ReadNone> + Copy,
    B: Fn(Global, &mut Ahead<'_>, u32) -> Result<Found<Block>, ReadNone>,
    I: Fn(Global, &mut Ahead<'_>, Site, u32) -> Result<Found<Item>, ReadNone>,
> BranchRules<P, B, I> {
    /// Parses a branch after its `if`.
    #[tactic(auto, unfolding(lay_code::specs::reader::Blocks::branch_by))]
    #[inline(never)]
    pub fn branch_by(&self, at: &mut Ahead<'_>) -> Result<Found<Branch>, ReadNone>
        requires { AreCode self.now.rules.depth (P.pre self.now.rules.exprs)
            (P.post self.now.rules.exprs) (B.pre self.now.rules.blocks)
            (B.post self.now.rules.blocks) (I.pre self.now.rules.items)
            (I.post self.now.rules.items) }
        ensures read { IsFound (reader.branch_by (code_within self.now.rules.depth) at.old) result
            at.new }
        ensures within { IfOk result (λ found. found.need ≤ self.now.rules.depth) }
    {
        let condition = self.condition_by(at)?;
        let (condition, body) = both(condition, self.rules.block_by(at))?;
        Ok(Found {
            need: greater(condition.need, body.need),
            node: Branch {
                condition: condition.node,
                body: body.node,
            },
        })
    }

    /// Parses a branch after its `else if`.
    #[inline(never)]
    fn else_branch(&self, at: &mut Ahead<'_>, _place: ()) -> Result<Found<Branch>, ReadNone>
        requires { AreCode self.now.rules.depth (P.pre self.now.rules.exprs)
            (P.post self.now.rules.exprs) (B.pre self.now.rules.blocks)
            (B.post self.now.rules.blocks) (I.pre self.now.rules.items)
            (I.post self.now.rules.items) }
        ensures read { IsFound (reader.branch_by (code_within self.now.rules.depth) (drop 2 at.old))
            result at.new }
        ensures within { IfOk result (λ found. found.need ≤ self.now.rules.depth) }
    {
        pass_two(at);
        self.branch_by(at)
    }

    /// Parses the block after an `else`, if one comes next. It counts as many levels as the blocks
    /// of the branches.
    #[inline(never)]
    fn otherwise(&self, at: &mut Ahead<'_>) -> Result<Found<Option<Block>>, ReadNone>
        requires { AreCode self.now.rules.depth (P.pre self.now.rules.exprs)
            (P.post self.now.rules.exprs) (B.pre self.now.rules.blocks)
            (B.post self.now.rules.blocks) (I.pre self.now.rules.items)
            (I.post self.now.rules.items) }
        ensures read { IsFound (if_read (first (is_keyword (codes "else")) at.old) (λ us.
            reader.block_by (code_within self.now.rules.depth) (tail us)) at.old) result at.new }
        ensures within { IfOk result (λ found. found.need ≤ self.now.rules.depth) }
    {
        if !takes_keyword(at, b"else") {
            return Ok(Found {
                node: None,
                need: 0,
            });
        }
        let block = self.rules.block_by(at)?;
        Ok(Found {
            node: Some(block.node),
            need: block.need,
        })
    }

    /// Parses the first branch after its `if`, and the branches after `else if`.
    #[inline(never)]
    fn branches(&self, at: &mut Ahead<'_>) -> Result<Found<List<Branch>>, ReadNone>
        requires { AreCode self.now.rules.depth (P.pre self.now.rules.exprs)
            (P.post self.now.rules.exprs) (B.pre self.now.rules.blocks)
            (B.post self.now.rules.blocks) (I.pre self.now.rules.items)
            (I.post self.now.rules.items) }
        ensures read { IsFound (branches (code_within self.now.rules.depth) at.old) result at.new }
        ensures within { IfOk result (λ found. found.need ≤ self.now.rules.depth) }
    {
        match self.branch_by(at) {
            Ok(first) => {
                let more = self.else_branches(at);
                branches_of(first, more)
            }
            Err(none) => Err(none),
        }
    }

    /// Parses the branches after `else if`, as long as one begins.
    #[tactic(auto, using(lay_read_shared::proofs::Left::branch_leaves))]
    #[inline(never)]
    fn else_branches(&self, at: &mut Ahead<'_>) -> Result<Found<List<Branch>>, ReadNone>
        requires { AreCode self.now.rules.depth (P.pre self.now.rules.exprs)
            (P.post self.now.rules.exprs) (B.pre self.now.rules.blocks)
            (B.post self.now.rules.blocks) (I.pre self.now.rules.items)
            (I.post self.now.rules.items) }
        ensures read { IsHeld AreFound (repeat exprs.begins_else_if
            (λ us. reader.branch_by (code_within self.now.rules.depth) (drop 2 us)) at.old) result
            at.new }
        ensures within { IfOk result (λ found. found.need ≤ self.now.rules.depth) }
    {
        read_parts::<Branches, BranchRules<P, B, I>, Branch, (), _>(
            self.rules.alloc,
            at,
            self.rules.depth,
            Going::ElseIfs,
            self,
            BranchRules::else_branch,
            (),
        )
    }

    /// Parses an `if` with all its branches, after the word `if`.
    #[tactic(auto, using(crate::proofs::Chains::if_is))]
    #[inline(never)]
    pub fn if_expr(&self, at: &mut Ahead<'_>) -> Result<Found<Boxed<Expr>>, ReadNone>
        requires { AreCode self.now.rules.depth (P.pre self.now.rules.exprs)
            (P.post self.now.rules.exprs) (B.pre self.now.rules.blocks)
            (B.post self.now.rules.blocks) (I.pre self.now.rules.items)
            (I.post self.now.rules.items) }
        ensures read { IsFound (exprs.if_expr (code_within self.now.rules.depth) at.old) result
            at.new }
        ensures within { IfOk result (λ found. found.need ≤ self.now.rules.depth + 1) }
    {
        let branches = self.branches(at)?;
        let (branches, otherwise) = both(branches, self.otherwise(at))?;
        boxed_found(
            self.rules.alloc,
            Expr::If {
                branches: branches.node,
                otherwise: otherwise.node,
            },
            greater(branches.need, otherwise.need) + 1,
        )
    }

    /// Parses a `while` loop after its `while`.
    #[tactic(auto, unfolding(lay_code::specs::reader::Exprs::while_expr))]
    #[inline(never)]
    pub fn while_expr(
        &self,
        at: &mut Ahead<'_>,
        label: Option<Lifetime>,
    ) -> Result<Found<Boxed<Expr>>, ReadNone>
        requires { AreCode self.now.rules.depth (P.pre self.now.rules.exprs)
            (P.post self.now.rules.exprs) (B.pre self.now.rules.blocks)
            (B.post self.now.rules.blocks) (I.pre self.now.rules.items)
            (I.post self.now.rules.items) }
        ensures read { IsFound (exprs.while_expr (code_within self.now.rules.depth) label at.old)
            result at.new }
        ensures within { IfOk result (λ found. found.need ≤ self.now.rules.depth + 1) }
    {
        let (label, found) = both(label, self.branch_by(at))?;
        let Found { node, need } = found;
        let (condition, body) = node.into_parts();
        boxed_found(
            self.rules.alloc,
            Expr::While {
                label,
                condition,
                body,
            },
            need + 1,
        )
    }

    /// Parses a `for` loop after its `for`.
    #[tactic(auto, unfolding(lay_code::specs::reader::Exprs::for_expr))]
    #[inline(never)]
    pub fn for_expr(
        &self,
        at: &mut Ahead<'_>,
        label: Option<Lifetime>,
    ) -> Result<Found<Boxed<Expr>>, ReadNone>
        requires { AreCode self.now.rules.depth (P.pre self.now.rules.exprs)
            (P.post self.now.rules.exprs) (B.pre self.now.rules.blocks)
            (B.post self.now.rules.blocks) (I.pre self.now.rules.items)
            (I.post self.now.rules.items) }
        ensures read { IsFound (exprs.for_expr (code_within self.now.rules.depth) label at.old)
            result at.new }
        ensures within { IfOk result (λ found. found.need ≤ self.now.rules.depth + 1) }
    {
        let (label, pat) = both(
            label,
            pat_ahead(
                self.rules.alloc,
                at,
                PatPlace::Alternatives,
                self.rules.depth,
            ),
        )?;
        if !takes_keyword(at, b"in") {
            return refused((label, pat));
        }
        let ((label, pat), iterated) = both((label, pat), self.rules.expr(at, plain(0, true)))?;
        let ((label, (pat, iterated)), body) = both(
            (label, (pat, iterated)),
            self.rules.block_by(at),
        )?;
        boxed_found(
            self.rules.alloc,
            Expr::For {
                label,
                pat: pat.node,
                iterated: iterated.node,
                body: body.node,
            },
            greater(pat.need, greater(iterated.need, body.need)) + 1,
        )
    }
}
