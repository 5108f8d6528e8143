//! Parsing of expressions in delimiters.
ghost use Rattle.std.specs.Prelude.{◌≡◌, ◌+◌, ◌^◌, ◌<◌, ◌≤◌, IfOk};
ghost use Rattle.lay_code.specs.reader.Exprs as reader;
ghost use Rattle.lay_read_tokens.specs.Answers.{IsFound};
ghost use Rattle.lay_read_shared.specs.Code.{code_within};
ghost use Rattle.lay_read_exprs.specs.Answers.{array_by};
ghost use Rattle.lay_read_operators.specs.Answers.{AreExprs};

use crate::climber::Climber;
use lay_code::{Boxed, Expr, Place};
use lay_ops::places::FREE;
use lay_read_parts::joins::{both, prepended, refused};
use lay_read_shared::boxes::{boxed_found, unboxed};
use lay_read_tokens::found::greater;
use lay_read_tokens::front::{takes_closer, takes_mark};
use lay_read_tokens::tokens::read_tokens;
use lay_read_tokens::{Ahead, Found, ReadNone};
use lay_token::{Delim, List};
use std::alloc::Global;

/// Parses the rest of an array `[a; n]` after its `;`.
fn repeat_by(
    alloc: Global,
    at: &mut Ahead<'_>,
    element: Found<Boxed<Expr>>,
) -> Result<Found<Boxed<Expr>>, ReadNone>
    requires { element.need + 1 < 2 ^ 32 }
    ensures read { IsFound (reader.repeat_by (element.node, element.need) at.old) result at.new }
    ensures within { IfOk result (λ found. found.need ≡ element.need + 1) }
{
    let (element, length) = both(element, read_tokens(alloc, at))?;
    if !takes_closer(at, Delim::Bracket) || length.as_slice().is_empty() {
        return refused((element, length));
    }
    boxed_found(
        alloc,
        Expr::Repeat {
            element: element.node,
            length,
        },
        element.need + 1,
    )
}

impl<P: Fn(Global, &mut Ahead<'_>, Place, u32) -> Result<Found<Boxed<Expr>>, ReadNone>, H> Climber<
    P,
    H,
> {
    /// Parses an expression after its `(`.
    #[tactic(auto, unfolding(lay_code::specs::reader::Exprs::paren_expr))]
    #[inline(never)]
    pub fn paren_expr(&self, at: &mut Ahead<'_>) -> Result<Found<Boxed<Expr>>, ReadNone>
        requires { AreExprs self.now.rules.depth (P.pre self.now.rules.exprs)
            (P.post self.now.rules.exprs) }
        ensures read { IsFound (reader.paren_expr (code_within self.now.rules.depth) at.old) result
            at.new }
        ensures within { IfOk result (λ found. found.need ≤ self.now.rules.depth + 1) }
    {
        if takes_closer(at, Delim::Paren) {
            return boxed_found(
                self.rules.alloc,
                Expr::Tuple {
                    elements: List::new(self.rules.alloc),
                },
                1,
            );
        }
        let first = self.rules.inner(at, FREE)?;
        self.paren_by(at, first)
    }

    /// Parses an expression after its `(` and the first expression in it.
    #[inline(never)]
    fn paren_by(
        &self,
        at: &mut Ahead<'_>,
        first: Found<Boxed<Expr>>,
    ) -> Result<Found<Boxed<Expr>>, ReadNone>
        requires deeper { AreExprs self.now.rules.depth (P.pre self.now.rules.exprs)
            (P.post self.now.rules.exprs) }
        requires within { first.need ≤ self.now.rules.depth }
        ensures read { IsFound (reader.paren_by (code_within self.now.rules.depth)
            (first.node, first.need) at.old) result at.new }
        ensures within { IfOk result (λ found. found.need ≤ self.now.rules.depth + 1) }
    {
        if takes_closer(at, Delim::Paren) {
            return boxed_found(
                self.rules.alloc,
                Expr::Paren { inner: first.node },
                first.need + 1,
            );
        }
        if !takes_mark(at, b",") {
            return refused(first);
        }
        let (first, more) = both(first, self.rules.boxed_elements(at, Delim::Paren))?;
        let elements = unboxed(self.rules.alloc, prepended(first.node, more.node)?)?;
        boxed_found(
            self.rules.alloc,
            Expr::Tuple { elements },
            greater(first.need, more.need) + 1,
        )
    }

    /// Parses an array after its `[`.
    #[tactic(auto, unfolding(lay_code::specs::reader::Exprs::bracket_expr))]
    #[inline(never)]
    pub fn bracket_expr(&self, at: &mut Ahead<'_>) -> Result<Found<Boxed<Expr>>, ReadNone>
        requires { AreExprs self.now.rules.depth (P.pre self.now.rules.exprs)
            (P.post self.now.rules.exprs) }
        ensures read { IsFound (reader.bracket_expr (code_within self.now.rules.depth) at.old)
            result at.new }
        ensures within { IfOk result (λ found. found.need ≤ self.now.rules.depth + 1) }
    {
        if takes_closer(at, Delim::Bracket) {
            return boxed_found(
                self.rules.alloc,
                Expr::Array {
                    elements: List::new(self.rules.alloc),
                },
                1,
            );
        }
        let first = self.rules.inner(at, FREE)?;
        if takes_mark(at, b";") {
            repeat_by(self.rules.alloc, at, first)
        } else {
            self.array_by(at, first)
        }
    }

    /// Parses an array after its `[` and the first element, if no `;` follows.
    #[inline(never)]
    fn array_by(
        &self,
        at: &mut Ahead<'_>,
        first: Found<Boxed<Expr>>,
    ) -> Result<Found<Boxed<Expr>>, ReadNone>
        requires deeper { AreExprs self.now.rules.depth (P.pre self.now.rules.exprs)
            (P.post self.now.rules.exprs) }
        requires within { first.need ≤ self.now.rules.depth }
        ensures read { IsFound (array_by (code_within self.now.rules.depth) (first.node, first.need)
            at.old) result at.new }
        ensures within { IfOk result (λ found. found.need ≤ self.now.rules.depth + 1) }
    {
        if takes_closer(at, Delim::Bracket) {
            let elements = unboxed(
                self.rules.alloc,
                prepended(first.node, List::new(self.rules.alloc))?,
            )?;
            return boxed_found(self.rules.alloc, Expr::Array { elements }, first.need + 1);
        }
        if !takes_mark(at, b",") {
            return refused(first);
        }
        let (first, more) = both(first, self.rules.boxed_elements(at, Delim::Bracket))?;
        let elements = unboxed(self.rules.alloc, prepended(first.node, more.node)?)?;
        boxed_found(
            self.rules.alloc,
            Expr::Array { elements },
            greater(first.need, more.need) + 1,
        )
    }
}
