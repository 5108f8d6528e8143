//! The layout of words, documentation, and other single tokens.
ghost use Rattle.std.specs.Prelude.{◌≡◌, [], ◌∷◌, cond, codes, true, false};
ghost use Rattle.lay_piece.specs.Docs.{doc_form};
ghost use Rattle.lay_layout.specs.declared.layout.Tok.TheVariants as tok;
ghost use Rattle.lay_stream.specs.Fed.{Did};
ghost use Rattle.lay_form.specs.Form.{Done, Leaf};
ghost use Rattle.lay_form.specs.Layout.{is_block};
ghost use Rattle.lay_form.specs.Stream.{feed_doc, feed_text, stream_of};
ghost use Rattle.lay_node.specs.Words.{leaf_of};

use lay_stream::Emit;
use lay_token::{DocForm, Kind, Text, doc_form};

/// Emits a word or a name; a raw one with its `r#`.
pub fn put_word<E: Emit>(out: &mut E, raw: bool, text: &Text) -> Result<(), E::Fault>
    ensures { Did E.meanings out.old (stream_of (leaf_of raw text.now Done)) result out.new }
{
    if !raw {
        return out.text(text.as_bytes());
    }
    put_raw(out, text.as_bytes())
}

/// Emits a token as it is spelled, given its kind and text.
pub fn put_token<E: Emit>(out: &mut E, kind: Kind, text: &[u8]) -> Result<(), E::Fault>
    ensures { Did E.meanings out.old (stream_of (Leaf kind text.now Done)) result out.new }
{
    match kind {
        Kind::RawIdent => put_raw(out, text),
        Kind::Doc { inner, .. } => put_doc(out, inner, text),
        _ => out.text(text),
    }
}

/// Emits a raw identifier.
fn put_raw<E: Emit>(out: &mut E, text: &[u8]) -> Result<(), E::Fault>
    ensures { Did E.meanings out.old (tok.Text (codes "r#") ∷ tok.Text text.now ∷ []) result
        out.new }
{
    out.text(b"r#")?;
    out.text(text)
}

/// Emits documentation: as a line comment, or as a block comment if its text has several lines.
pub fn put_doc<E: Emit>(out: &mut E, inner: bool, text: &[u8]) -> Result<(), E::Fault>
    ensures { Did E.meanings out.old (feed_doc inner
        (is_block (doc_form inner text.now)) text.now []) result out.new }
{
    if is_block(inner, text) {
        return put_block(out, inner, text);
    }
    put_line(out, inner, text)
}

/// Whether documentation of this text is laid out as a block comment.
pub fn is_block(inner: bool, text: &[u8]) -> bool
    ensures { result ≡ is_block (doc_form inner text.now) }
{
    match doc_form(text, inner) {
        DocForm::Block => true,
        _ => false,
    }
}

/// Emits a block comment.
fn put_block<E: Emit>(out: &mut E, inner: bool, text: &[u8]) -> Result<(), E::Fault>
    ensures { Did E.meanings out.old (feed_doc inner true text.now []) result out.new }
{
    put_either(out, inner, b"/*!", b"/**")?;
    put_text(out, text)?;
    out.text(b"*/")
}

/// Emits a line comment.
fn put_line<E: Emit>(out: &mut E, inner: bool, text: &[u8]) -> Result<(), E::Fault>
    ensures { Did E.meanings out.old (feed_doc inner false text.now []) result out.new }
{
    put_either(out, inner, b"//!", b"///")?;
    put_text(out, text)
}

/// Emits `if_inner` for an inner attribute, else `if_outer`.
pub fn put_either<E: Emit>(
    out: &mut E,
    inner: bool,
    if_inner: &[u8],
    if_outer: &[u8],
) -> Result<(), E::Fault>
    ensures { Did E.meanings out.old (tok.Text (cond inner if_inner.now if_outer.now) ∷ []) result
        out.new }
{
    if inner {
        return out.text(if_inner);
    }
    out.text(if_outer)
}

/// Emits a text, if it isn't empty.
fn put_text<E: Emit>(out: &mut E, text: &[u8]) -> Result<(), E::Fault>
    ensures { Did E.meanings out.old (feed_text text.now []) result out.new }
{
    if text.is_empty() {
        return Ok(());
    }
    out.text(text)
}
