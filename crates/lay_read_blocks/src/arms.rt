//! Parsing of the arms of a match.
ghost use Rattle.std.specs.Prelude.{ℕ, ◌≡◌, ◌+◌, ◌^◌, ◌<◌, ◌≤◌, codes, if◌then◌else◌, Some, None, IfOk};
ghost use Rattle.lay_node.specs.Ahead.{first, is_keyword, tail};
ghost use Rattle.lay_node.specs.reader.Types.{if_read};
ghost use Rattle.lay_code.specs.nodes.Bodies.{is_lone_body};
ghost use Rattle.lay_code.specs.nodes.Code.{about_expr};
ghost use Rattle.lay_code.specs.nodes.Places.{FREE as free};
ghost use Rattle.lay_code.specs.reader.Blocks as reader;
ghost use Rattle.lay_code.specs.reader.Code.{expr_at};
ghost use Rattle.lay_code.specs.reader.Exprs as exprs;
ghost use Rattle.lay_read_shared.specs.alone.ArmFronts.{arm_begun, body_begun};
ghost use Rattle.lay_read_tokens.specs.Answers.{IsFound};
ghost use Rattle.lay_ops_ends.specs.Bodies.{IsBare};
ghost use Rattle.lay_read_shared.specs.Code.{code_within};
ghost use Rattle.lay_read_blocks.specs.Answers.{AreCode, arm_behind, fits};

use crate::rules::BlockRules;
use lay_code::{Arm, Attr, Block, Boxed, Expr, Item, Pat, PatPlace, Place, Site, Stmt};
use lay_ops::places::{FREE, STATEMENT, plain};
use lay_ops::{is_free, is_lone_body};
use lay_ops_ends::undressed;
use lay_read_parts::joins::{both, refused};
use lay_read_parts::loops::Part;
use lay_read_pats::pat_ahead;
use lay_read_shared::boxes::boxed_found;
use lay_read_shared::loops::{Going, read_parts};
use lay_read_tokens::attributes::attrs_ahead;
use lay_read_tokens::found::greater;
use lay_read_tokens::front::{
    is_at_closer, pass_two, takes_closer, takes_keyword, takes_mark, takes_opener,
};
use lay_read_tokens::{Ahead, Found, ReadNone};
use lay_token::{Delim, List};
use std::alloc::Global;

/// Arms as consecutive parts.
pub struct Arms;

impl Part<Arm, u32> for Arms {
    ghost reads = { λ depth place ts. reader.arm_by (code_within place) ts };
}

/// Moves past the comma of an arm, and says whether the arm ends there. The comma may be missing
/// before the `}`, and anywhere if `free`.
fn takes_arm_end(at: &mut Ahead<'_>, free: bool) -> bool
    ensures { (if result then Some at.new else None) ≡ reader.arm_end free at.old }
{
    takes_mark(at, b",") || free || is_at_closer(at, Delim::Brace)
}

/// The body of an arm without braces that aren't in the tree. In such braces it needs as much depth
/// as they do.
fn body_of(found: Found<Boxed<Expr>>) -> Found<Boxed<Expr>>
    requires { found.need + 1 < 2 ^ 32 }
    ensures node { (turns : ℕ) × IsBare turns found.node result.node }
    ensures need { result.need ≡ reader.body_need
        (is_lone_body (about_expr found.node).kind) found.need }
{
    let need = if is_lone_body(found.node.get()) {
        found.need
    } else {
        found.need + 1
    };
    Found {
        node: undressed(found.node),
        need,
    }
}

impl<
    P: Fn(Global, &mut Ahead<'_>, Place, u32) -> Result<Found<Boxed<Expr>>, ReadNone>,
    B: Fn(Global, &mut Ahead<'_>, u32) -> Result<Found<Block>, ReadNone>,
    I: Fn(Global, &mut Ahead<'_>, Site, u32) -> Result<Found<Item>, ReadNone>,
> BlockRules<P, B, I> {
    /// Parses the body of an arm after its `=>`. The flag says that after this body the comma may
    /// be left out.
    #[inline(never)]
    fn body_begun(&self, at: &mut Ahead<'_>) -> Result<Found<(Boxed<Expr>, bool)>, ReadNone>
        requires { AreCode self.now.depth (P.pre self.now.exprs) (P.post self.now.exprs)
            (B.pre self.now.blocks) (B.post self.now.blocks) (I.pre self.now.items)
            (I.post self.now.items) }
        ensures read { IsFound (body_begun (code_within self.now.depth) at.old) result at.new }
        ensures within { IfOk result (λ found. found.need ≤ self.now.depth + 1) }
    {
        let found = self.expr(at, STATEMENT)?;
        let free = is_free(found.node.get());
        let body = body_of(found);
        Ok(Found {
            need: body.need,
            node: (body.node, free),
        })
    }

    /// Parses a guard, if one comes next.
    #[inline(never)]
    fn guard_if(&self, at: &mut Ahead<'_>) -> Result<Found<Option<Boxed<Expr>>>, ReadNone>
        requires { AreCode self.now.depth (P.pre self.now.exprs) (P.post self.now.exprs)
            (B.pre self.now.blocks) (B.post self.now.blocks) (I.pre self.now.items)
            (I.post self.now.items) }
        ensures read { IsFound (if_read (first (is_keyword (codes "if")) at.old)
            (λ us. expr_at free self.now.depth (tail us)) at.old) result at.new }
        ensures within { IfOk result (λ found. found.need ≤ self.now.depth) }
    {
        if !takes_keyword(at, b"if") {
            return Ok(Found {
                node: None,
                need: 0,
            });
        }
        let guard = self.expr(at, FREE)?;
        Ok(Found {
            node: Some(guard.node),
            need: guard.need,
        })
    }

    /// Parses an arm. What it contains is parsed at the depth limit of these rules, so the arm
    /// needs at most one level more.
    #[tactic(auto, using(lay_read_shared::proofs::alone_lemmas::ArmBegun::arm_by_is))]
    #[inline(never)]
    fn arm_by(&self, at: &mut Ahead<'_>, _depth: u32) -> Result<Found<Arm>, ReadNone>
        requires { AreCode self.now.depth (P.pre self.now.exprs) (P.post self.now.exprs)
            (B.pre self.now.blocks) (B.post self.now.blocks) (I.pre self.now.items)
            (I.post self.now.items) }
        ensures read { IsFound (reader.arm_by (code_within self.now.depth) at.old) result at.new }
        ensures within { IfOk result (λ found. found.need ≤ self.now.depth + 1) }
    {
        let Found { node, need } = self.arm_begun(at)?;
        let (arm, free) = node;
        if !takes_arm_end(at, free) {
            return refused(arm);
        }
        Ok(Found { node: arm, need })
    }

    /// Parses an arm up to its comma. The flag says that after its body the comma may be left out.
    #[tactic(auto, unfolding(lay_read_shared::specs::alone::ArmFronts::arm_begun))]
    #[inline(never)]
    pub fn arm_begun(&self, at: &mut Ahead<'_>) -> Result<Found<(Arm, bool)>, ReadNone>
        requires { AreCode self.now.depth (P.pre self.now.exprs) (P.post self.now.exprs)
            (B.pre self.now.blocks) (B.post self.now.blocks) (I.pre self.now.items)
            (I.post self.now.items) }
        ensures read { IsFound (arm_begun (code_within self.now.depth) at.old) result at.new }
        ensures within { IfOk result (λ found. found.need ≤ self.now.depth + 1) }
    {
        let attrs = attrs_ahead(self.alloc, at, false)?;
        let (attrs, pat) = both(
            attrs,
            pat_ahead(self.alloc, at, PatPlace::Alternatives, self.depth),
        )?;
        let ((attrs, pat), guard) = both((attrs, pat), self.guard_if(at))?;
        self.arm_behind(at, attrs, pat, guard)
    }

    /// Parses an arm after its pattern and its guard.
    #[inline(never)]
    fn arm_behind(
        &self,
        at: &mut Ahead<'_>,
        attrs: List<Attr>,
        pat: Found<Pat>,
        guard: Found<Option<Boxed<Expr>>>,
    ) -> Result<Found<(Arm, bool)>, ReadNone>
        requires code { AreCode self.now.depth (P.pre self.now.exprs) (P.post self.now.exprs)
            (B.pre self.now.blocks) (B.post self.now.blocks) (I.pre self.now.items)
            (I.post self.now.items) }
        requires pat { pat.need ≤ self.now.depth }
        requires guard { guard.need ≤ self.now.depth }
        ensures read { IsFound (arm_behind (code_within self.now.depth) attrs (pat.node, pat.need)
            (guard.node, guard.need) at.old) result at.new }
        ensures within { IfOk result (λ found. found.need ≤ self.now.depth + 1) }
    {
        if !at.op_is(b"=>") {
            return refused((attrs, (pat, guard)));
        }
        pass_two(at);
        let ((attrs, (pat, guard)), found) = both((attrs, (pat, guard)), self.body_begun(at))?;
        let (body, free) = found.node;
        Ok(Found {
            need: greater(pat.need, greater(guard.need, found.need)),
            node: (
                Arm {
                    attrs,
                    pat: pat.node,
                    guard: guard.node,
                    body,
                },
                free,
            ),
        })
    }

    /// Parses a match after its `match`, unless it is nested too deep.
    #[tactic(auto, unfolding(lay_code::specs::reader::Exprs::match_expr), using(lay_read_shared::proofs::Left::arm_leaves))]
    #[inline(never)]
    pub fn match_expr(&self, at: &mut Ahead<'_>) -> Result<Found<Boxed<Expr>>, ReadNone>
        requires { AreCode self.now.depth (P.pre self.now.exprs) (P.post self.now.exprs)
            (B.pre self.now.blocks) (B.post self.now.blocks) (I.pre self.now.items)
            (I.post self.now.items) }
        ensures read { IsFound (fits (self.now.depth + 1)
            (exprs.match_expr (code_within self.now.depth) at.old)) result at.new }
        ensures within { IfOk result (λ found. found.need ≤ self.now.depth + 1) }
    {
        let scrutinee = self.expr(at, plain(0, true))?;
        if !takes_opener(at, Delim::Brace) {
            return refused(scrutinee);
        }
        let (scrutinee, attrs) = both(scrutinee, attrs_ahead(self.alloc, at, true))?;
        let ((scrutinee, attrs), arms) = both(
            (scrutinee, attrs),
            read_parts::<Arms, BlockRules<P, B, I>, Arm, u32, _>(
                self.alloc,
                at,
                self.depth + 1,
                Going::Items,
                self,
                BlockRules::arm_by,
                self.depth,
            ),
        )?;
        let need = greater(scrutinee.need, arms.need);
        if !takes_closer(at, Delim::Brace) || need > self.depth {
            return refused(((scrutinee, attrs), arms));
        }
        boxed_found(
            self.alloc,
            Expr::Match {
                scrutinee: scrutinee.node,
                attrs,
                arms: arms.node,
            },
            need + 1,
        )
    }
}
