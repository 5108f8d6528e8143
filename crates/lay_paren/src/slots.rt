//! Slots: rules that a node has for a part beside the part's place.
ghost use Rattle.std.specs.Prelude.{◌≡◌, not, ◌&&◌};
ghost use Rattle.lay_code.specs.nodes.Code.{about_expr};
ghost use Rattle.lay_code.specs.nodes.Exprs.{is_prefix_lead, is_brace_lead, is_label_lead};
ghost use Rattle.lay_paren_defs.specs.loose.Slots.{fits, slot_fits};
ghost use Rattle.lay_paren.specs.InPlace.{parts_least, slot_of};
ghost use Rattle.lay_ops.specs.Leads.{told};

use crate::leads::lead;
use lay_code::{Expr, Place};
use lay_ops::operands::ExprLead;
use lay_ops::{is_number, may};

/// What a node requires of a part beside the part's place. (For a value before an `else` there is a
/// function instead.)
#[derive(Clone, Copy)]
pub(crate) enum Slot {
    /// Nothing.
    Any,
    /// The operand of a prefix operator.
    Prefixed,
    /// The operand of a `return` or of a labelled `break`, or the end of a range.
    Optional,
    /// The operand of an unlabelled `break`.
    Unlabelled,
    /// What stands directly before a tuple index.
    BeforeIndex,
}

/// Whether an expression fits its place and its slot, once its parts have their parentheses.
#[tactic(auto, using(crate::proofs::Beginning::may_is))]
pub(crate) fn fits(expr: &Expr, place: Place, slot: Slot) -> bool
    ensures { result ≡ fits (about_expr (parts_least place expr.now)) place (slot_of slot) }
{
    may(expr, place) && fits_slot(expr, place, slot)
}

/// Whether an expression fits its slot.
#[tactic(auto, using(crate::proofs::Beginning::number_is))]
fn fits_slot(expr: &Expr, place: Place, slot: Slot) -> bool
    ensures { result ≡ slot_fits (slot_of slot) place.no_struct (about_expr (parts_least place expr.now)) }
{
    match slot {
        Slot::Any => true,
        Slot::Prefixed => !is_prefix(lead(expr, place)),
        Slot::Optional => begins_free(lead(expr, place), place.no_struct),
        Slot::Unlabelled => is_unlabelled(lead(expr, place), place.no_struct),
        Slot::BeforeIndex => !is_number(expr),
    }
}

/// Whether an expression begins with a prefix operator.
fn is_prefix(lead: ExprLead) -> bool
    ensures { result ≡ is_prefix_lead (told lead) }
{
    matches!(lead, ExprLead::Prefix)
}

/// Whether an expression doesn't begin with a `{` where no struct literal may stand.
fn begins_free(lead: ExprLead, no_struct: bool) -> bool
    ensures { result ≡ not (no_struct && is_brace_lead (told lead)) }
{
    !(no_struct && matches!(lead, ExprLead::Brace))
}

/// Whether an expression begins neither with such a `{` nor with a lifetime.
fn is_unlabelled(lead: ExprLead, no_struct: bool) -> bool
    ensures { result ≡ (not (no_struct && is_brace_lead (told lead)) && not (is_label_lead (told lead))) }
{
    begins_free(lead, no_struct) && !matches!(lead, ExprLead::Label)
}
