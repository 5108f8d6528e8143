//! The layout of where clauses.
ghost use Rattle.std.specs.Prelude.{cond};
ghost use Rattle.lay_stream.specs.Fed.{Did};
ghost use Rattle.lay_form.specs.Stream.{stream_of};
ghost use Rattle.lay_node.specs.nodes.Where.{predicate_form, wheres_before_body, wheres_before_semicolon};
ghost use Rattle.lay_out_types.specs.Calls.{Adds};

use crate::calls::add_text;
use crate::generics::add_asked;
use crate::lists::{add_predicates_close, add_predicates_lead};
use crate::parts::{add_binder, add_outlived};
use crate::types::add_type;
use lay_node::{Predicate, Wheres};
use lay_stream::Emit;

/// Emits the layout of a where clause, before a body or before a `;`: nothing if it has no
/// predicates.
pub fn put_wheres<E: Emit>(out: &mut E, wheres: &Wheres, body: bool) -> Result<(), E::Fault>
    ensures { let form = cond body (wheres_before_body wheres.now)
        (wheres_before_semicolon wheres.now) in
        Did E.meanings out.old (stream_of form) result out.new }
{
    let predicates = wheres.predicates.as_slice();
    let mut done = Ok(());
    for (index, predicate) in predicates.iter().enumerate() {
        done = add_predicates_lead(out, done, index == 0);
        done = add_predicate(out, done, predicate);
    }
    add_predicates_close(out, done, body, predicates.is_empty())
}

/// Emits a predicate of a where clause. Without bounds the `:` stands alone.
fn add_predicate<E: Emit>(
    out: &mut E,
    before: Result<(), E::Fault>,
    predicate: &Predicate,
) -> Result<(), E::Fault>
    ensures { Adds E.meanings before out.old (stream_of (predicate_form predicate.now)) result
        out.new }
{
    match predicate {
        Predicate::Region { lifetime, bounds } => {
            let bounds = bounds.as_slice();
            let lifetime = add_text(out, before, lifetime.text.as_bytes());
            if bounds.is_empty() {
                return add_text(out, lifetime, b":");
            }
            add_outlived(out, lifetime, bounds)
        },
        Predicate::Bounded { binder, ty, bounds } => {
            let bounds = bounds.as_slice();
            let binder = add_binder(out, before, binder);
            let ty = add_type(out, binder, ty);
            if bounds.is_empty() {
                return add_text(out, ty, b":");
            }
            add_asked(out, ty, bounds)
        },
    }
}
