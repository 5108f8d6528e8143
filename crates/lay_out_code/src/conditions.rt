//! The layout of conditions and their links.
ghost use Rattle.std.specs.Prelude.{[], ◌++◌, map};
ghost use Rattle.lay_form.specs.Stream.{stream_of};
ghost use Rattle.lay_code.specs.nodes.Code.{about_condition, about_link};
ghost use Rattle.lay_code.specs.nodes.Conditions.{condition_form};
ghost use Rattle.lay_paren_defs.specs.Enclosed.{enclose_condition, enclose_link};
ghost use Rattle.lay_out_exprs.specs.Blocks.{lead_row, link_between};
ghost use Rattle.lay_out_types.specs.Calls.{Adds};
ghost use Rattle.lay_out_types.specs.Rows.{row};
ghost use Rattle.lay_out_code.specs.Parts.{head_end, link_told};

use crate::exprs::add_expr;
use lay_code::{Condition, Link};
use lay_out_exprs::blocks::{add_condition_lead, add_let_lead, add_link_lead};
use lay_out_types::lists::{add_begin, add_end};
use lay_paren_defs::Enclose;
use lay_stream::Emit;

/// Emits the word before a condition, and the condition, in a group of their own.
#[cycle(code)]
pub fn add_condition<E: Emit, X: Enclose>(
    out: &mut E,
    before: Result<(), E::Fault>,
    word: &[u8],
    condition: &Condition,
) -> Result<(), E::Fault>
    ensures { let told = stream_of (about_condition (enclose_condition X.on condition.now)).form in
        Adds E.meanings before out.old (lead_row word.now ++ (told ++ head_end)) result out.new }
{
    let lead = add_condition_lead(out, before, word);
    let links = add_links::<E, X>(out, lead, condition.links.as_slice());
    add_end(out, links)
}

/// Emits the links of a condition. Two or more are in a group of their own.
#[cycle(code)]
fn add_links<E: Emit, X: Enclose>(
    out: &mut E,
    before: Result<(), E::Fault>,
    links: &[Link],
) -> Result<(), E::Fault>
    ensures { let told = map about_link (map (enclose_link X.on) links.now) in
        Adds E.meanings before out.old (stream_of (condition_form told)) result out.new }
{
    match links {
        [] => before,
        [link] => add_link::<E, X>(out, before, link),
        [_, _, ..] => {
            let group = add_begin(out, before);
            let row = add_link_row::<E, X>(out, group, links);
            add_end(out, row)
        },
    }
}

/// Emits links, with `&&` between them.
#[cycle(code)]
fn add_link_row<E: Emit, X: Enclose>(
    out: &mut E,
    before: Result<(), E::Fault>,
    links: &[Link],
) -> Result<(), E::Fault>
    ensures { let parts = map link_told (map (enclose_link X.on) links.now) in
        Adds E.meanings before out.old (row [] link_between parts) result out.new }
{
    let mut done = before;
    for (index, link) in links.iter().enumerate() {
        done = add_link_lead(out, done, index == 0);
        done = add_link::<E, X>(out, done, link);
    }
    done
}

/// Emits a link.
#[cycle(code)]
fn add_link<E: Emit, X: Enclose>(
    out: &mut E,
    before: Result<(), E::Fault>,
    link: &Link,
) -> Result<(), E::Fault>
    ensures { Adds E.meanings before out.old (stream_of (link_told (enclose_link X.on link.now)))
        result out.new }
{
    match link {
        Link::Expr { expr } => add_expr::<E, X>(out, before, false, expr.get()),
        Link::Let { pat, value } => {
            let lead = add_let_lead(out, before, pat);
            add_expr::<E, X>(out, lead, false, value.get())
        },
    }
}
