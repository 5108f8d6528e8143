//! The loops over consecutive parts, and what is laid out around parts and bodies.
ghost use Rattle.std.specs.Prelude.{◌<◌, cond, map, OnOk};
ghost use Rattle.lay_layout.specs.Machine.{IsNested};
ghost use Rattle.lay_piece.specs.declared.kind.Delim.TheVariants.{Paren};
ghost use Rattle.lay_form.specs.Form.{Form, closer, opener};
ghost use Rattle.lay_form.specs.Notation.{comma_list, fields};
ghost use Rattle.lay_form.specs.Stream.{stream_of};
ghost use Rattle.lay_node.specs.nodes.Fields.{blank_if};
ghost use Rattle.lay_out_types.specs.Calls.{Adds};
ghost use Rattle.lay_out_heads.specs.FieldRows.{body_closed, body_opened, fields_between, fields_closed, fields_opened};

use crate::calls::{add_break, add_inside};
use lay_out_tokens::HARD_BREAK;
use lay_out_tokens::notation::{CLOSING_HARD_BREAK, NEVER_BREAK};
use lay_out_types::calls::{add_either, add_text};
use lay_out_types::lists::{add_close, add_end, add_lead};
use lay_stream::Emit;

/// A part whose layout doesn't depend on where it stands.
pub trait Part {
    /// The form of the part.
    ghost form: { Self → Form };

    /// Emits the layout of the part.
    fn add<E: Emit>(&self, out: &mut E, before: Result<(), E::Fault>) -> Result<(), E::Fault>
        ensures { Adds E.meanings before out.old (stream_of (form self.now)) result out.new };
}

/// Emits parts in parentheses, with a `,` between them. The flag says whether a comma may follow
/// the last one.
pub(crate) fn add_parens<E: Emit, P: Part>(
    out: &mut E,
    before: Result<(), E::Fault>,
    parts: &[P],
    may: bool,
) -> Result<(), E::Fault>
    ensures { let parens = comma_list may (opener Paren) (closer Paren) (map P.form parts.now) in
        Adds E.meanings before out.old (stream_of parens) result out.new }
{
    let mut done = before;
    for (index, part) in parts.iter().enumerate() {
        done = add_lead(out, done, index == 0, b"(");
        done = part.add(out, done);
    }
    add_close(out, done, may, parts.is_empty(), b"()", b")")
}

/// Emits parts in braces, each on a line of its own with a `,` after it. The braces have a leading
/// blank or not.
pub fn add_braces<E: Emit, P: Part>(
    out: &mut E,
    before: Result<(), E::Fault>,
    parts: &[P],
    lead: bool,
) -> Result<(), E::Fault>
    ensures { let braces = fields (blank_if lead) (map P.form parts.now) in
        Adds E.meanings before out.old (stream_of braces) result out.new }
{
    let mut done = before;
    for (index, part) in parts.iter().enumerate() {
        done = add_line(out, done, index == 0, lead);
        done = part.add(out, done);
    }
    close_braces(out, done, parts.is_empty(), lead)
}

/// Emits what stands before a part in braces: the `{` before the first one, else a comma; and a
/// newline.
fn add_line<E: Emit>(
    out: &mut E,
    before: Result<(), E::Fault>,
    first: bool,
    lead: bool,
) -> Result<(), E::Fault>
    ensures { Adds E.meanings before out.old (cond first (fields_opened lead) fields_between) result
        out.new }
{
    if first {
        let body = open_body(out, before, lead);
        return add_break(out, body, HARD_BREAK);
    }
    let comma = add_text(out, before, b",");
    add_break(out, comma, HARD_BREAK)
}

/// Closes the braces, on a line of their own, after the last `,`. Without parts both braces are one
/// text.
fn close_braces<E: Emit>(
    out: &mut E,
    before: Result<(), E::Fault>,
    bare: bool,
    lead: bool,
) -> Result<(), E::Fault>
    requires { OnOk before (IsNested (E.meanings.groups out.old) (fields_closed lead bare)) }
    ensures { Adds E.meanings before out.old (fields_closed lead bare) result out.new }
{
    if bare {
        return add_either(out, before, lead, b" {}", b"{}");
    }
    let last = add_text(out, before, b",");
    close_body(out, last)
}

/// Opens a body. What stands before its brace is measured up to the brace, which has a leading
/// blank or not, as the flag says.
pub fn open_body<E: Emit>(
    out: &mut E,
    before: Result<(), E::Fault>,
    lead: bool,
) -> Result<(), E::Fault>
    ensures { Adds E.meanings before out.old (body_opened lead) result out.new }
{
    let brace = add_either(out, before, lead, b" {", b"{");
    let never = add_break(out, brace, NEVER_BREAK);
    add_inside(out, never)
}

/// Closes a body, on a line of its own.
pub fn close_body<E: Emit>(out: &mut E, before: Result<(), E::Fault>) -> Result<(), E::Fault>
    requires { OnOk before (0 < E.meanings.groups out.old) }
    ensures { Adds E.meanings before out.old body_closed result out.new }
{
    let line = add_break(out, before, CLOSING_HARD_BREAK);
    let end = add_end(out, line);
    add_text(out, end, b"}")
}
