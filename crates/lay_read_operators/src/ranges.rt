//! Parsing of ranges.
ghost use Rattle.std.specs.Prelude.{◌≡◌, ◌+◌, ◌≤◌, IfOk};
ghost use Rattle.lay_code.specs.reader.Exprs as reader;
ghost use Rattle.lay_read_tokens.specs.Answers.{IsFound};
ghost use Rattle.lay_read_shared.specs.Code.{code_within};
ghost use Rattle.lay_read_operators.specs.Answers.{AreExprs};

use crate::rules::ExprRules;
use lay_code::{Boxed, Expr, Place};
use lay_read_parts::joins::{both, refused};
use lay_read_shared::boxes::boxed_found;
use lay_read_tokens::found::greater;
use lay_read_tokens::front::{pass, pass_two};
use lay_read_tokens::{Ahead, Found, ReadNone};
use std::alloc::Global;

impl<P: Fn(Global, &mut Ahead<'_>, Place, u32) -> Result<Found<Boxed<Expr>>, ReadNone>> ExprRules<
    P,
> {
    /// Parses a range, from its `..` or `..=` on.
    #[tactic(auto, unfolding(lay_code::specs::reader::Exprs::range_expr))]
    #[inline(never)]
    pub fn range_expr(
        &self,
        at: &mut Ahead<'_>,
        no_struct: bool,
        start: Found<Option<Boxed<Expr>>>,
    ) -> Result<Found<Boxed<Expr>>, ReadNone>
        requires deeper { AreExprs self.now.depth (P.pre self.now.exprs) (P.post self.now.exprs) }
        requires within { start.need ≤ self.now.depth }
        ensures read { IsFound (reader.range_expr
            (code_within self.now.depth) no_struct start.node start.need at.old) result at.new }
        ensures within { IfOk result (λ found. found.need ≤ self.now.depth + 1) }
    {
        let inclusive = at.op_is(b"..=");
        pass_two(at);
        if inclusive {
            pass(at);
        }
        self.range_by(at, no_struct, start, inclusive)
    }

    /// Parses the end of a range, if it has one, after its operator.
    #[inline(never)]
    fn range_by(
        &self,
        at: &mut Ahead<'_>,
        no_struct: bool,
        start: Found<Option<Boxed<Expr>>>,
        inclusive: bool,
    ) -> Result<Found<Boxed<Expr>>, ReadNone>
        requires deeper { AreExprs self.now.depth (P.pre self.now.exprs) (P.post self.now.exprs) }
        requires within { start.need ≤ self.now.depth }
        ensures read { IsFound (reader.range_by
            (code_within self.now.depth) no_struct start.node start.need inclusive at.old) result
            at.new }
        ensures within { IfOk result (λ found. found.need ≤ self.now.depth + 1) }
    {
        let (start, end) = both(start, self.operand_if(at, 2, no_struct))?;
        if inclusive && end.node.is_none() {
            return refused((start, end));
        }
        boxed_found(
            self.alloc,
            Expr::Range {
                start: start.node,
                inclusive,
                end: end.node,
            },
            greater(start.need, end.need) + 1,
        )
    }
}
