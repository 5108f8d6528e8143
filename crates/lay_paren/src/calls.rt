//! `parenthesize`: puts the parentheses that a tree lacks.
ghost use Rattle.std.specs.Prelude.{◌≡◌, ◌<◌, ◌≤◌, IfOk, MatchResult, OnOk, Ok, Err};
ghost use Rattle.lay_form.specs.Depth.{least_depth};
ghost use Rattle.lay_code.specs.nodes.Code.{about_expr};
ghost use Rattle.lay_paren.specs.Least.{least};
ghost use Rattle.lay_paren.specs.declared.calls.ParenError.TheVariants.{TooDeep};

use crate::exprs::place_expr;
use crate::slots::Slot;
use lay_code::{Expr, Place};
use lay_depth::expr_depth;
use lay_token::NoMemory;
use std::alloc::Global;

/// The greatest depth of what a file holds.
const DEPTH: u32 = 256;

/// Why `parenthesize` failed. The tree that it was given is dropped.
#[derive(Clone, Copy, Debug, PartialEq, Eq)]
pub enum ParenError {
    /// With its parentheses the tree is deeper than a file may be.
    TooDeep,
    /// Memory could not be allocated.
    NoMemory,
}

/// Puts parentheses round each part of the expression that doesn't fit where it stands, and round
/// no other. The expression itself stands at `place`, and gets a pair too if it doesn't fit there.
/// `parenthesize_law` says for which trees the result may stand at the place, and that no pair can
/// be left out. `place.level` is at most 14.
///
/// It is one walk over the tree, in place. It takes linear time, allocates the pairs only, and
/// needs stack in proportion to the depth of the tree.
pub fn parenthesize(alloc: Global, expr: Expr, place: Place) -> Result<Expr, ParenError>
    ensures least { IfOk result (λ made. made ≡ least expr place) }
    ensures within { IfOk result (λ made. least_depth (about_expr made).form ≤ 256) }
    ensures too_deep { result ≡ Err TooDeep → 256 < least_depth (about_expr (least expr place)).form }
{
    let mut made = expr;
    let answer = placed(alloc, &mut made, place);
    kept(made, answer)
}

/// The value, unless `answer` is an error.
fn kept<A: Drop>(value: A, answer: Result<(), ParenError>) -> Result<A, ParenError>
    ensures { MatchResult result (λ kept. (kept ≡ value) × (answer ≡ Ok tt)) (λ why. answer ≡ Err why) }
{
    answer?;
    Ok(value)
}

/// Puts the parentheses that the expression lacks. The error is `TooDeep` if it is then deeper than
/// a file may be.
#[tactic(auto, using(crate::proofs::Becoming::whole, crate::proofs::Becoming::too_deep))]
fn placed(alloc: Global, expr: &mut Expr, place: Place) -> Result<(), ParenError>
    ensures least { OnOk result (expr.new ≡ least expr.old place) }
    ensures within { OnOk result (least_depth (about_expr expr.new).form ≤ 256) }
    ensures too_deep { result ≡ Err TooDeep → 256 < least_depth (about_expr (least expr.old place)).form }
{
    if let Err(NoMemory) = place_expr(alloc, expr, place, Slot::Any) {
        return Err(ParenError::NoMemory);
    }
    if expr_depth(expr) > DEPTH {
        return Err(ParenError::TooDeep);
    }
    Ok(())
}
