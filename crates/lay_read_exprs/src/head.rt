//! Parsing of operands, by their first token.
ghost use Rattle.std.specs.Prelude.{◌≡◌, ◌+◌, ◌≤◌, Some, IfOk};
ghost use Rattle.lay_code.specs.Operands.{expr_lead_at};
ghost use Rattle.lay_code.specs.reader.Exprs as reader;
ghost use Rattle.lay_ops.specs.Leads.{told};
ghost use Rattle.lay_read_tokens.specs.Answers.{IsFound};
ghost use Rattle.lay_read_shared.specs.Code.{code_within};
ghost use Rattle.lay_read_blocks.specs.Answers.{fits};
ghost use Rattle.lay_read_operators.specs.Answers.{AreExprs};

use crate::climber::Climber;
use lay_code::{Boxed, Expr, Place};
use lay_ops::ahead::expr_lead_at;
use lay_ops::operands::ExprLead;
use lay_read_blocks::BlockHeads;
use lay_read_parts::leads::is_at_literal;
use lay_read_parts::parts::read_literal;
use lay_read_shared::boxes::boxed_found;
use lay_read_tokens::front::pass;
use lay_read_tokens::{Ahead, Found, ReadNone};
use std::alloc::Global;

/// Parses a literal.
#[tactic(auto, using(lay_read_parts::proofs::Steps::literal_is))]
fn literal_expr(alloc: Global, at: &mut Ahead<'_>) -> Result<Found<Boxed<Expr>>, ReadNone>
    ensures read { IsFound (reader.literal_expr at.old) result at.new }
    ensures within { IfOk result (λ found. found.need ≡ 1) }
{
    let passes = is_at_literal(at);
    let literal = read_literal(alloc, at, passes)?;
    boxed_found(alloc, Expr::Lit { literal }, 1)
}

impl<
    P: Fn(Global, &mut Ahead<'_>, Place, u32) -> Result<Found<Boxed<Expr>>, ReadNone>,
    H: BlockHeads,
> Climber<P, H> {
    /// Parses an operand with its prefix operators, without any operators after it, unless it is
    /// nested too deep.
    #[inline(never)]
    pub fn head(&self, at: &mut Ahead<'_>, no_struct: bool) -> Result<Found<Boxed<Expr>>, ReadNone>
        requires deeper { AreExprs self.now.rules.depth (P.pre self.now.rules.exprs)
            (P.post self.now.rules.exprs) }
        requires heads { H.are_ready self.now.heads }
        requires same { H.depth self.now.heads ≡ self.now.rules.depth }
        ensures read { IsFound (fits (self.now.rules.depth + 1)
            (reader.head_by (code_within self.now.rules.depth) no_struct (expr_lead_at at.old)
            at.old)) result at.new }
        ensures within { IfOk result (λ found. found.need ≤ self.now.rules.depth + 1) }
    {
        match expr_lead_at(at) {
            Some(lead) => self.head_by(at, no_struct, lead),
            None => Err(ReadNone::NoReading),
        }
    }

    /// Parses an operand by its first token.
    #[inline(never)]
    fn head_by(
        &self,
        at: &mut Ahead<'_>,
        no_struct: bool,
        lead: ExprLead,
    ) -> Result<Found<Boxed<Expr>>, ReadNone>
        requires deeper { AreExprs self.now.rules.depth (P.pre self.now.rules.exprs)
            (P.post self.now.rules.exprs) }
        requires heads { H.are_ready self.now.heads }
        requires same { H.depth self.now.heads ≡ self.now.rules.depth }
        ensures read { IsFound (fits (self.now.rules.depth + 1)
            (reader.head_by (code_within self.now.rules.depth) no_struct (Some (told lead)) at.old))
            result at.new }
        ensures within { IfOk result (λ found. found.need ≤ self.now.rules.depth + 1) }
    {
        match lead {
            ExprLead::Literal => literal_expr(self.rules.alloc, at),
            ExprLead::Path => self.path_or_call(at, no_struct),
            ExprLead::Prefix => self.unary_expr(at, no_struct),
            ExprLead::Label | ExprLead::Brace | ExprLead::BlockWord | ExprLead::Closure => {
                self.heads.block_head(at, no_struct, lead)
            }
            ExprLead::Range => {
                let start = Found {
                    node: None,
                    need: 0,
                };
                self.rules.range_expr(at, no_struct, start)
            }
            _ => {
                pass(at);
                self.marked(at, no_struct, lead)
            }
        }
    }
}
