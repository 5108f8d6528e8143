//! The layout of operators, casts and labels.
ghost use Rattle.std.specs.Prelude.{◌≡◌, [], ◌∷◌, map, codes, false};
ghost use Rattle.lay_layout.specs.declared.layout.Tok.TheVariants as tok;
ghost use Rattle.lay_form.specs.Form.{Done, Never, Soft};
ghost use Rattle.lay_form.specs.Layout.{break_of, text_of_bits};
ghost use Rattle.lay_form.specs.Stream.{stream_of};
ghost use Rattle.lay_node.specs.nodes.Types.{about_type};
ghost use Rattle.lay_code.specs.Operators.{op_text};
ghost use Rattle.lay_code.specs.nodes.Exprs.{label_form, prefix_bits, types_form};
ghost use Rattle.lay_out_exprs.specs.Parts.{prefix_texts};
ghost use Rattle.lay_out_types.specs.Calls.{Adds};

use lay_code::{Lifetime, Op, Prefix, Ty};
use lay_out_tokens::notation::{NEVER_BREAK, SPACE_BREAK};
use lay_out_types::add_type;
use lay_out_types::calls::add_text;
use lay_stream::Emit;

/// Emits what stands between two operands: a break, the operator and a blank.
pub fn add_operator<E: Emit>(
    out: &mut E,
    before: Result<(), E::Fault>,
    op: Op,
) -> Result<(), E::Fault>
    ensures { Adds E.meanings before out.old
        (tok.Break (break_of (Soft false 1)) ∷ tok.Text (op_text op) ∷ tok.Text (codes " ") ∷ [])
        result out.new }
{
    before?;
    out.brk(SPACE_BREAK)?;
    out.text(op.text())?;
    out.text(b" ")
}

/// Emits what stands between the target of an assignment and its value: the operator between
/// blanks, and a break that is never a newline, at which the measured width ends.
pub fn add_assignment<E: Emit>(
    out: &mut E,
    before: Result<(), E::Fault>,
    op: Op,
) -> Result<(), E::Fault>
    ensures { Adds E.meanings before out.old
        (tok.Text (codes " ") ∷ tok.Text (op_text op) ∷ tok.Text (codes " ")
        ∷ tok.Break (break_of Never) ∷ [])
        result out.new }
{
    before?;
    out.text(b" ")?;
    out.text(op.text())?;
    out.text(b" ")?;
    out.brk(NEVER_BREAK)
}

/// Emits prefix operators.
pub fn add_prefixes<E: Emit>(
    out: &mut E,
    before: Result<(), E::Fault>,
    prefixes: &[Prefix],
) -> Result<(), E::Fault>
    ensures { Adds E.meanings before out.old (prefix_texts prefixes.now) result out.new }
{
    let mut done = before;
    for prefix in prefixes {
        done = add_text(out, done, prefix_text(*prefix));
    }
    done
}

/// The text of a prefix operator, with a blank after its last word.
fn prefix_text(prefix: Prefix) -> &'static [u8]
    ensures { result.now ≡ text_of_bits (prefix_bits prefix) }
{
    match prefix {
        Prefix::Neg => b"-",
        Prefix::Deref => b"*",
        Prefix::Bang => b"!",
        Prefix::Amp => b"&",
        Prefix::AmpMut => b"&mut ",
        Prefix::RawConst => b"&raw const ",
        Prefix::RawMut => b"&raw mut ",
    }
}

/// Emits the types of a cast, each with an `as` before it.
pub fn add_casts<E: Emit>(
    out: &mut E,
    before: Result<(), E::Fault>,
    types: &[Ty],
) -> Result<(), E::Fault>
    ensures { Adds E.meanings before out.old (stream_of (types_form (map about_type types.now)))
        result out.new }
{
    let mut done = before;
    for ty in types {
        done = add_text(out, done, b" as ");
        done = add_type(out, done, ty);
    }
    done
}

/// Emits a label after `continue` or `break`, if there is one.
pub fn add_label<E: Emit>(
    out: &mut E,
    before: Result<(), E::Fault>,
    label: &Option<Lifetime>,
) -> Result<(), E::Fault>
    ensures { Adds E.meanings before out.old (stream_of (label_form label.now Done)) result
        out.new }
{
    match label {
        None => before,
        Some(label) => {
            let blank = add_text(out, before, b" ");
            add_text(out, blank, label.text.as_bytes())
        },
    }
}
