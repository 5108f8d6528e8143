//! The layout of attributes and documentation.
ghost use Rattle.std.specs.Prelude.{◌≡◌, ◌||◌, [], ◌∷◌, codes};
ghost use Rattle.lay_layout.specs.declared.layout.Tok.TheVariants as tok;
ghost use Rattle.lay_stream.specs.Fed.{Did};
ghost use Rattle.lay_form.specs.Form.{Done};
ghost use Rattle.lay_form.specs.Stream.{stream_of};
ghost use Rattle.lay_node.specs.nodes.Attr.{attr_form, attr_part, behind_attr, input_form, is_inner, is_line};
ghost use Rattle.lay_node.specs.nodes.Attr.{meta_path_form};
ghost use Rattle.lay_node.specs.declared.attr.Attr.TheVariants as attr;
ghost use Rattle.lay_node.specs.declared.attr.MetaInput.TheVariants as input;

use crate::notation::HARD_BREAK;
use crate::simple_paths::put_simple_path;
use crate::tokens::{put_group, put_tokens};
use crate::words::{is_block, put_doc, put_either};
use lay_node::{Attr, MetaInput, MetaPath, Tokens};
use lay_stream::Emit;

/// Emits the layout of an attribute within other parts: an inner one alone; an outer one with a
/// newline after it if `own_line` or if it is a line comment, else with a blank.
pub fn put_attr<E: Emit>(out: &mut E, attr: &Attr, own_line: bool) -> Result<(), E::Fault>
    ensures { Did E.meanings out.old (stream_of (attr_part own_line attr.now Done)) result out.new }
{
    put_bare_attr(out, attr)?;
    put_behind_attr(out, attr, own_line)
}

/// Emits an attribute, and nothing after it.
pub fn put_bare_attr<E: Emit>(out: &mut E, attr: &Attr) -> Result<(), E::Fault>
    ensures { Did E.meanings out.old (stream_of (attr_form attr.now)) result out.new }
{
    match attr {
        Attr::Doc { inner, text } => put_doc(out, *inner, text.as_bytes()),
        Attr::Meta { inner, path, input } => put_meta(out, *inner, path, input),
    }
}

/// Emits what follows an attribute within other parts.
fn put_behind_attr<E: Emit>(out: &mut E, attr: &Attr, own_line: bool) -> Result<(), E::Fault>
    ensures { Did E.meanings out.old (stream_of (behind_attr own_line attr.now Done)) result
        out.new }
{
    if is_inner(attr) {
        return Ok(());
    }
    if own_line || is_line(attr) {
        return out.brk(HARD_BREAK);
    }
    out.text(b" ")
}

/// Whether the attribute is an inner one.
fn is_inner(attr: &Attr) -> bool
    ensures { result ≡ is_inner attr.now }
{
    match attr {
        Attr::Doc { inner, .. } => *inner,
        Attr::Meta { inner, .. } => *inner,
    }
}

/// Whether the attribute is laid out as a line comment.
fn is_line(attr: &Attr) -> bool
    ensures { result ≡ is_line attr.now }
{
    match attr {
        Attr::Doc { inner, text } => !is_block(*inner, text.as_bytes()),
        Attr::Meta { .. } => false,
    }
}

/// Emits an attribute that isn't documentation.
fn put_meta<E: Emit>(
    out: &mut E,
    inner: bool,
    path: &MetaPath,
    input: &MetaInput,
) -> Result<(), E::Fault>
    ensures { Did E.meanings out.old (stream_of (attr_form (attr.Meta inner path.now input.now)))
        result out.new }
{
    put_either(out, inner, b"#![", b"#[")?;
    put_meta_path(out, path)?;
    put_input(out, input)?;
    out.text(b"]")
}

/// Emits the name of an attribute.
fn put_meta_path<E: Emit>(out: &mut E, path: &MetaPath) -> Result<(), E::Fault>
    ensures { Did E.meanings out.old (stream_of (meta_path_form path.now)) result out.new }
{
    match path {
        MetaPath::Path(path) => put_simple_path(out, path),
        MetaPath::Unsafe => out.text(b"unsafe"),
    }
}

/// Emits the input of an attribute.
fn put_input<E: Emit>(out: &mut E, input: &MetaInput) -> Result<(), E::Fault>
    ensures { Did E.meanings out.old (stream_of (input_form input.now Done)) result out.new }
{
    match input {
        MetaInput::Bare => Ok(()),
        MetaInput::Group(group) => put_group(out, group),
        MetaInput::Value(tokens) => put_value(out, tokens),
    }
}

/// Emits a `=` and tokens.
fn put_value<E: Emit>(out: &mut E, tokens: &Tokens) -> Result<(), E::Fault>
    ensures { Did E.meanings out.old (stream_of (input_form (input.Value tokens.now) Done)) result
        out.new }
{
    out.text(b" = ")?;
    put_tokens(out, tokens)
}
