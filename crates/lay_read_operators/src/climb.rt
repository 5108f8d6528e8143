//! Precedence climbing: the operators after an expression, the tightest first.
ghost use Rattle.std.specs.Prelude.{◌≡◌, ◌+◌, ◌<◌, ◌≤◌, nat_le, nat_lt, ◌&&◌, IfOk};
ghost use Rattle.lay_code.specs.Operators as operators;
ghost use Rattle.lay_code.specs.nodes.Exprs as nodes;
ghost use Rattle.lay_code.specs.nodes.Code.{about_expr};
ghost use Rattle.lay_code.specs.nodes.Places as places;
ghost use Rattle.lay_code.specs.reader.Exprs as reader;
ghost use Rattle.lay_read_tokens.specs.Answers.{IsFound};
ghost use Rattle.lay_read_shared.specs.Code.{code_within};
ghost use Rattle.lay_read_operators.specs.Answers.{AreExprs, climb_once, climbed};

use crate::rules::ExprRules;
use lay_code::{Boxed, Expr, Place, Start};
use lay_ops::ahead::{is_angle, is_dot_or_try, strength};
use lay_ops::places::before_op;
use lay_ops::{is_block_like, stands};
use lay_read_parts::joins::refused;
use lay_read_tokens::{Ahead, Found, ReadNone};
use std::alloc::Global;

/// Whether an expression begins a statement or the body of an arm.
fn begins(start: Start) -> bool
    ensures { result ≡ places.begins start }
{
    !matches!(start, Start::No)
}

/// Whether an expression is the whole of a statement or of the body of an arm.
fn is_whole(start: Start) -> bool
    ensures { result ≡ places.is_whole start }
{
    matches!(start, Start::Whole)
}

/// The place of the expression before an operator of this precedence level.
fn left_place(at: &Ahead<'_>, place: Place, level: u8) -> Place
    requires { level < 14 }
    ensures { result ≡ reader.left_place place level at.now }
{
    let first = begins(place.start) && !(level == 13 && is_dot_or_try(at));
    before_op(level + 1, place.no_struct, first, is_angle(at))
}

/// Whether the expression has ended as a statement: only `.` and `?` could go on with it, and
/// neither comes next.
pub fn is_ended(at: &Ahead<'_>, place: Place, expr: &Expr) -> bool
    ensures { result ≡ reader.is_ended place (about_expr expr.now) at.now }
{
    is_whole(place.start) && is_block_like(expr) && !is_dot_or_try(at)
}

/// Whether the next tokens may follow the root of the expression.
fn root_follows(at: &Ahead<'_>, place: Place, expr: &Expr) -> bool
    ensures { result ≡ nodes.root_follows (about_expr expr.now) place at.now }
{
    if is_whole(place.start) && is_block_like(expr) {
        !is_dot_or_try(at)
    } else {
        strength(at) <= place.level
    }
}

/// The expression, if it may stand at the place, the next tokens may follow it, and it is nested no
/// deeper than `budget`.
pub fn accepted(
    at: &Ahead<'_>,
    place: Place,
    found: Found<Boxed<Expr>>,
    budget: u32,
) -> Result<Found<Boxed<Expr>>, ReadNone>
    ensures read { IsFound (reader.accepted budget place (found.node, found.need) at.now) result
        at.now }
    ensures within { IfOk result (λ read. read.need ≤ budget) }
{
    let passes = stands(found.node.get(), place)
        && root_follows(at, place, found.node.get())
        && found.need <= budget;
    if passes { Ok(found) } else { refused(found) }
}

/// Whether an operator comes next that the place allows and whose precedence level is below
/// `reached`.
fn goes_on(at: &Ahead<'_>, place: Place, reached: u8) -> bool
    ensures { result ≡ (nat_lt place.level (operators.strength at.now)
        && nat_le (operators.strength at.now) reached) }
{
    let strength = strength(at);
    place.level < strength && strength <= reached
}

impl<P: Fn(Global, &mut Ahead<'_>, Place, u32) -> Result<Found<Boxed<Expr>>, ReadNone>> ExprRules<
    P,
> {
    /// Parses the operators after an expression that the place allows, the tightest first. Their
    /// precedence level is below `from`.
    #[inline(never)]
    pub fn climb(
        &self,
        at: &mut Ahead<'_>,
        place: Place,
        from: u8,
        head: Found<Boxed<Expr>>,
    ) -> Result<Found<Boxed<Expr>>, ReadNone>
        requires deeper { AreExprs self.now.depth (P.pre self.now.exprs) (P.post self.now.exprs) }
        requires level { from ≤ 14 }
        ensures read { IsFound (climbed (code_within self.now.depth) (self.now.depth + 1) place from
            (head.node, head.need) at.old) result at.new }
        ensures within { IfOk result (λ found. found.need ≤ self.now.depth + 1) }
    {
        let mut lhs = head;
        let mut reached = from;
        while goes_on(at, place, reached) {
            reached = strength(at) - 1;
            lhs = self.climb_once(at, place, reached, lhs)?;
        }
        accepted(at, place, lhs, self.depth + 1)
    }

    /// Parses the operators of one precedence level after an expression, if the expression may
    /// stand before them and the whole isn't nested too deep.
    #[inline(never)]
    fn climb_once(
        &self,
        at: &mut Ahead<'_>,
        place: Place,
        level: u8,
        lhs: Found<Boxed<Expr>>,
    ) -> Result<Found<Boxed<Expr>>, ReadNone>
        requires deeper { AreExprs self.now.depth (P.pre self.now.exprs) (P.post self.now.exprs) }
        requires level { level < 14 }
        ensures read { IsFound (climb_once (code_within self.now.depth)
            (self.now.depth + 1) place level (lhs.node, lhs.need) at.old) result at.new }
        ensures within { IfOk result (λ found. found.need ≤ self.now.depth + 1) }
    {
        if lhs.need > self.depth || !stands(lhs.node.get(), left_place(at, place, level)) {
            return refused(lhs);
        }
        self.stage(at, level, place.no_struct, lhs)
    }

    /// Parses the operators of this precedence level, or the postfix steps, after an expression, by
    /// the rule of the level.
    #[inline(never)]
    fn stage(
        &self,
        at: &mut Ahead<'_>,
        level: u8,
        no_struct: bool,
        lhs: Found<Boxed<Expr>>,
    ) -> Result<Found<Boxed<Expr>>, ReadNone>
        requires deeper { AreExprs self.now.depth (P.pre self.now.exprs) (P.post self.now.exprs) }
        requires level { level < 14 }
        requires within { lhs.need ≤ self.now.depth }
        ensures read { IsFound (reader.stage (code_within self.now.depth) level no_struct
            (lhs.node, lhs.need) at.old) result at.new }
        ensures within { IfOk result (λ found. found.need ≤ self.now.depth + 1) }
    {
        match level {
            0 => self.assign_expr(at, no_struct, lhs),
            1 => {
                let start = Found {
                    node: Some(lhs.node),
                    need: lhs.need,
                };
                self.range_expr(at, no_struct, start)
            }
            11 => self.cast_expr(at, lhs),
            13 => self.postfix_expr(at, lhs),
            _ => self.chain_expr(at, level, no_struct, lhs),
        }
    }
}
