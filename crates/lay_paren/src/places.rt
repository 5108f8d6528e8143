//! The places of the parts of expressions, computed from the place of the whole.
ghost use Rattle.std.specs.Prelude.{◌≡◌, ◌≤◌, map};
ghost use Rattle.lay_code.specs.Operators.{is_angle_op};
ghost use Rattle.lay_code.specs.nodes.Code.{about_step};
ghost use Rattle.lay_code.specs.nodes.Exprs.{first_step, is_tuple_index};
ghost use Rattle.lay_code.specs.nodes.Places as places;
ghost use Rattle.lay_code.specs.nodes.PlacesTable.{as_node};
ghost use Rattle.lay_paren.specs.InPlace.{first_place, operand_before};
ghost use Rattle.lay_paren_defs.specs.Traversal as parts;

use lay_code::{Boxed, Expr, Op, Place, Start, Step};
use lay_ops::places::before_op;
use lay_ops::{begins_dotted, first_level};

/// Whether a place begins a statement or the body of an arm.
pub(crate) fn begins(start: Start) -> bool
    ensures { result ≡ places.begins start }
{
    !matches!(start, Start::No)
}

/// The place of a part on the right edge of a node: of level `level`, and otherwise as the node's.
pub(crate) fn as_node(place: Place, level: u8) -> Place
    ensures { result ≡ as_node place level }
{
    Place {
        level,
        no_struct: place.no_struct,
        start: Start::No,
        op_after: place.op_after,
        lt_after: place.lt_after,
    }
}

/// The precedence level of the operators of a chain, given its operands after the first.
#[tactic(auto, using(crate::proofs::Levels::level_is, crate::proofs::Levels::level_low))]
pub(crate) fn level_by(rest: &[(Op, Boxed<Expr>)]) -> u8
    ensures level { result ≡ parts.level_by rest.now }
    ensures low { result ≤ 10 }
{
    first_level(rest)
}

/// The place of the first operand of a chain, given the other operands.
pub(crate) fn first_place(rest: &[(Op, Boxed<Expr>)], place: Place) -> Place
    ensures { result ≡ first_place place rest.now }
{
    let first = begins(place.start);
    before_op(level_by(rest) + 1, place.no_struct, first, angle_next(rest))
}

/// The place of an operand of a chain after its operator; `next` is the operator that follows, if
/// one does.
pub(crate) fn operand_place(next: Option<Op>, level: u8, place: Place) -> Place
    requires { level ≤ 10 }
    ensures { result ≡ operand_before place level next }
{
    match next {
        Some(op) => before_op(level + 1, place.no_struct, false, is_angle(op)),
        None => as_node(place, level + 1),
    }
}

/// Whether the first of the operators is `<` or `<<`.
fn angle_next(rest: &[(Op, Boxed<Expr>)]) -> bool
    ensures { result ≡ parts.angle_next rest.now }
{
    match rest {
        [(op, _), ..] => is_angle(*op),
        [] => false,
    }
}

/// Whether an operator is `<` or `<<`.
fn is_angle(op: Op) -> bool
    ensures { result ≡ is_angle_op op }
{
    matches!(op, Op::Less | Op::Shl)
}

/// The place of the expression before these postfix steps.
pub(crate) fn base_place(steps: &[Step], place: Place) -> Place
    ensures { result ≡ parts.base_place place (map about_step steps.now) }
{
    before_op(
        14,
        place.no_struct,
        begins(place.start) && !begins_dotted(steps),
        false,
    )
}

/// Whether the first of the steps is a tuple index.
pub(crate) fn is_index_first(steps: &[Step]) -> bool
    ensures { result ≡ first_step is_tuple_index (map about_step steps.now) }
{
    match steps {
        [step, ..] => is_tuple_index(step),
        [] => false,
    }
}

/// Whether a step is a tuple index.
#[tactic(auto, using(crate::proofs::Beginning::step_kind))]
fn is_tuple_index(step: &Step) -> bool
    ensures { result ≡ is_tuple_index (about_step step.now).kind }
{
    matches!(step, Step::TupleIndex { .. })
}
