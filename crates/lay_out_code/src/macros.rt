//! The layout of macro calls and macro definitions as items.
ghost use Rattle.lay_form.specs.Form.{Done};
ghost use Rattle.lay_form.specs.Stream.{stream_of};
ghost use Rattle.lay_node.specs.nodes.Call.{before_rules, end_form};
ghost use Rattle.lay_code.specs.nodes.Item.{call_item_form, rules_form};
ghost use Rattle.lay_out_types.specs.Calls.{Adds};

use crate::calls::add_group;
use lay_code::{Group, MacroCall, Name};
use lay_out_types::calls::{add_call, add_text, add_word};
use lay_piece::Delim;
use lay_stream::Emit;

/// Emits a macro definition.
pub fn add_macro_rules<E: Emit>(
    out: &mut E,
    before: Result<(), E::Fault>,
    name: &Name,
    rules: &Group,
) -> Result<(), E::Fault>
    ensures { Adds E.meanings before out.old (stream_of (rules_form name.now rules.now)) result
        out.new }
{
    let word = add_text(out, before, b"macro_rules! ");
    let name = add_word(out, word, name.raw, &name.text);
    let blank = add_before_rules(out, name, rules.delim);
    let group = add_group(out, blank, rules);
    add_item_end(out, group, rules.delim)
}

/// Emits the blank before rules in braces.
fn add_before_rules<E: Emit>(
    out: &mut E,
    before: Result<(), E::Fault>,
    delim: Delim,
) -> Result<(), E::Fault>
    ensures { Adds E.meanings before out.old (stream_of (before_rules delim Done)) result out.new }
{
    match delim {
        Delim::Brace => add_text(out, before, b" "),
        _ => before,
    }
}

/// Emits a macro call as an item.
pub fn add_call_item<E: Emit>(
    out: &mut E,
    before: Result<(), E::Fault>,
    call: &MacroCall,
) -> Result<(), E::Fault>
    ensures { Adds E.meanings before out.old (stream_of (call_item_form call.now)) result out.new }
{
    let group = add_call(out, before, call);
    add_item_end(out, group, call.tokens.delim)
}

/// Emits the end of an item after a group: nothing after braces, else a `;`.
fn add_item_end<E: Emit>(
    out: &mut E,
    before: Result<(), E::Fault>,
    delim: Delim,
) -> Result<(), E::Fault>
    ensures { Adds E.meanings before out.old (stream_of (end_form delim)) result out.new }
{
    match delim {
        Delim::Brace => before,
        _ => add_text(out, before, b";"),
    }
}
