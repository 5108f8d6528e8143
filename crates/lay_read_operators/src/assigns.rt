//! Parsing of assignments.
ghost use Rattle.std.specs.Prelude.{◌≡◌, ◌+◌, ◌≤◌, IfOk, IfErr};
ghost use Rattle.lay_code.specs.reader.Exprs as reader;
ghost use Rattle.lay_code.specs.reader.Exprs.{targets_of, value_of};
ghost use Rattle.lay_read_tokens.specs.Answers.{IsFound};
ghost use Rattle.lay_read_shared.specs.Code.{code_within};
ghost use Rattle.lay_read_operators.specs.Answers.{AreExprs};

use crate::rules::ExprRules;
use lay_code::{Boxed, Expr, Op, Place};
use lay_read_parts::joins::both;
use lay_read_shared::boxes::boxed_found;
use lay_read_tokens::found::greater;
use lay_read_tokens::stop::keep;
use lay_read_tokens::{Ahead, Found, ReadNone};
use lay_token::List;
use std::alloc::Global;

/// Splits operands with operators between them into targets and the value.
fn split(
    alloc: Global,
    first: Boxed<Expr>,
    rest: List<(Op, Boxed<Expr>)>,
) -> Result<(List<(Boxed<Expr>, Op)>, Boxed<Expr>), ReadNone>
    ensures targets { IfOk result (λ split. split.0 ≡ targets_of first rest) }
    ensures value { IfOk result (λ split. split.1 ≡ value_of first rest) }
    ensures err { IfErr result (λ none. none ≡ ReadNone.NoMemory) }
{
    let mut targets = List::new(alloc);
    let mut value = first;
    let mut rest = rest.into_vec();
    rest.reverse();
    while let Some((op, operand)) = rest.pop() {
        keep(&mut targets, (value, op))?;
        value = operand;
    }
    Ok((targets, value))
}

impl<P: Fn(Global, &mut Ahead<'_>, Place, u32) -> Result<Found<Boxed<Expr>>, ReadNone>> ExprRules<
    P,
> {
    /// Parses the assignments after an expression, and gives the whole.
    #[tactic(auto, unfolding(lay_code::specs::reader::Exprs::assign_expr))]
    #[inline(never)]
    pub fn assign_expr(
        &self,
        at: &mut Ahead<'_>,
        no_struct: bool,
        lhs: Found<Boxed<Expr>>,
    ) -> Result<Found<Boxed<Expr>>, ReadNone>
        requires deeper { AreExprs self.now.depth (P.pre self.now.exprs) (P.post self.now.exprs) }
        requires within { lhs.need ≤ self.now.depth }
        ensures read { IsFound (reader.assign_expr (code_within self.now.depth) no_struct
            (lhs.node, lhs.need) at.old) result at.new }
        ensures within { IfOk result (λ found. found.need ≤ self.now.depth + 1) }
    {
        let (lhs, more) = both(lhs, self.operands(at, 0, no_struct))?;
        let need = greater(lhs.need, more.need) + 1;
        let (targets, value) = split(self.alloc, lhs.node, more.node)?;
        boxed_found(self.alloc, Expr::Assign { targets, value }, need)
    }
}
