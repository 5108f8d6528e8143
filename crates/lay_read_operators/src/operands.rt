//! Parsing of operators of one precedence level with their operands.
ghost use Rattle.std.specs.Prelude.{◌≡◌, ◌+◌, ◌<◌, ◌≤◌, drop, IfOk};
ghost use Rattle.lay_code.specs.nodes.Code.{about_expr};
ghost use Rattle.lay_code.specs.nodes.Places as places;
ghost use Rattle.lay_code.specs.reader.Exprs as reader;
ghost use Rattle.lay_read_tokens.specs.Answers.{AreFound, IsFound, IsHeld};
ghost use Rattle.lay_read_shared.specs.Code.{code_within};
ghost use Rattle.lay_read_operators.specs.Answers.{AreExprs};

use crate::rules::ExprRules;
use lay_code::{Boxed, Expr, Op, Place};
use lay_ops::ahead::{begins_operand, binary, is_angle, strength};
use lay_ops::places::{before_op, plain};
use lay_ops::stands;
use lay_read_parts::joins::{both, refused};
use lay_read_parts::loops::Part;
use lay_read_shared::boxes::boxed_found;
use lay_read_shared::loops::{Going, read_parts};
use lay_read_tokens::found::greater;
use lay_read_tokens::front::pass;
use lay_read_tokens::{Ahead, Found, ReadNone};
use lay_token::List;
use std::alloc::Global;

/// Operators with their operands as consecutive parts.
pub struct Operands;

impl Part<(Op, Boxed<Expr>), (u8, bool)> for Operands {
    ghost reads = { λ depth place ts. reader.operand (code_within depth) place.0 place.1 ts };
}

/// Moves past `count` tokens, or as many as there are.
#[tactic(auto, using(crate::proofs::Steps::tail_dropped))]
pub fn pass_tokens(at: &mut Ahead<'_>, count: usize)
    ensures { at.new ≡ drop count at.old }
{
    for _passed in 0..count {
        pass(at);
    }
}

/// Whether an operand of this precedence level may end before the next tokens.
fn operand_ends(at: &Ahead<'_>, operand: &Expr, level: u8, no_struct: bool) -> bool
    requires { level < 14 }
    ensures { result ≡ reader.operand_ends level no_struct (about_expr operand.now) at.now }
{
    if strength(at) == level + 1 {
        level != 4
            && stands(
                operand,
                before_op(level + 1, no_struct, false, is_angle(at)),
            )
    } else {
        true
    }
}

impl<P: Fn(Global, &mut Ahead<'_>, Place, u32) -> Result<Found<Boxed<Expr>>, ReadNone>> ExprRules<
    P,
> {
    /// Parses operators of one precedence level with their operands, as long as one begins.
    #[tactic(auto, unfolding(lay_code::specs::reader::Exprs::operands), using(lay_read_shared::proofs::Left::operand_leaves))]
    #[inline(never)]
    pub fn operands(
        &self,
        at: &mut Ahead<'_>,
        level: u8,
        no_struct: bool,
    ) -> Result<Found<List<(Op, Boxed<Expr>)>>, ReadNone>
        requires deeper { AreExprs self.now.depth (P.pre self.now.exprs) (P.post self.now.exprs) }
        requires level { level < 14 }
        ensures read { IsHeld AreFound (reader.operands (code_within self.now.depth) level no_struct
            at.old) result at.new }
        ensures within { IfOk result (λ found. found.need ≤ self.now.depth) }
    {
        read_parts::<Operands, ExprRules<P>, (Op, Boxed<Expr>), (u8, bool), _>(
            self.alloc,
            at,
            self.depth,
            Going::Operands(level),
            self,
            ExprRules::operand,
            (level, no_struct),
        )
    }

    /// Parses an operator of this precedence level, and its operand.
    #[tactic(auto, unfolding(lay_code::specs::reader::Exprs::operand))]
    #[inline(never)]
    fn operand(
        &self,
        at: &mut Ahead<'_>,
        place: (u8, bool),
    ) -> Result<Found<(Op, Boxed<Expr>)>, ReadNone>
        requires deeper { AreExprs self.now.depth (P.pre self.now.exprs) (P.post self.now.exprs) }
        requires level { place.0 < 14 }
        ensures read { IsFound (reader.operand (code_within self.now.depth) place.0 place.1 at.old)
            result at.new }
        ensures within { IfOk result (λ found. found.need ≤ self.now.depth) }
    {
        let (level, no_struct) = place;
        let op = match binary(at) {
            Some(op) => op,
            None => return Err(ReadNone::NoReading),
        };
        pass_tokens(at, op.text().len());
        let found = self.inner(at, plain(level + 1, no_struct))?;
        if !operand_ends(at, found.node.get(), level, no_struct) {
            return refused(found);
        }
        Ok(Found {
            need: found.need,
            node: (op, found.node),
        })
    }

    /// Parses an operand of this precedence level, if one begins.
    #[inline(never)]
    pub fn operand_if(
        &self,
        at: &mut Ahead<'_>,
        level: u8,
        no_struct: bool,
    ) -> Result<Found<Option<Boxed<Expr>>>, ReadNone>
        requires { AreExprs self.now.depth (P.pre self.now.exprs) (P.post self.now.exprs) }
        ensures read { IsFound (reader.operand_if (code_within self.now.depth) level no_struct
            at.old) result at.new }
        ensures within { IfOk result (λ found. found.need ≤ self.now.depth) }
    {
        if !begins_operand(at, no_struct) {
            return Ok(Found {
                node: None,
                need: 0,
            });
        }
        let found = self.inner(at, plain(level, no_struct))?;
        Ok(Found {
            node: Some(found.node),
            need: found.need,
        })
    }

    /// Parses the operators of one precedence level after an expression with their operands, and
    /// gives the whole.
    #[tactic(auto, unfolding(lay_code::specs::reader::Exprs::chain_expr))]
    #[inline(never)]
    pub fn chain_expr(
        &self,
        at: &mut Ahead<'_>,
        level: u8,
        no_struct: bool,
        lhs: Found<Boxed<Expr>>,
    ) -> Result<Found<Boxed<Expr>>, ReadNone>
        requires deeper { AreExprs self.now.depth (P.pre self.now.exprs) (P.post self.now.exprs) }
        requires level { level < 14 }
        requires within { lhs.need ≤ self.now.depth }
        ensures read { IsFound (reader.chain_expr (code_within self.now.depth) level no_struct
            (lhs.node, lhs.need) at.old) result at.new }
        ensures within { IfOk result (λ found. found.need ≤ self.now.depth + 1) }
    {
        let (lhs, more) = both(lhs, self.operands(at, level, no_struct))?;
        boxed_found(
            self.alloc,
            Expr::Chain {
                first: lhs.node,
                rest: more.node,
            },
            greater(lhs.need, more.need) + 1,
        )
    }
}
