//! The layout of simple paths.
ghost use Rattle.lay_stream.specs.Fed.{Did};
ghost use Rattle.lay_form.specs.Form.{Done};
ghost use Rattle.lay_form.specs.Notation.{when};
ghost use Rattle.lay_form.specs.Stream.{stream_of};
ghost use Rattle.lay_node.specs.Words.{colons, leaf_of};
ghost use Rattle.lay_node.specs.nodes.SimplePath.{simple_path_form, simple_words_form};
ghost use Rattle.lay_out_tokens.specs.Parts.{further_words};

use crate::words::put_word;
use lay_node::{SimplePath, Word};
use lay_stream::Emit;

/// Emits a simple path.
pub fn put_simple_path<E: Emit>(out: &mut E, path: &SimplePath) -> Result<(), E::Fault>
    ensures { Did E.meanings out.old (stream_of (simple_path_form path.now)) result out.new }
{
    put_global(out, path.global)?;
    put_words(out, path.words.as_slice())
}

/// Emits the `::` that a path may begin with.
pub fn put_global<E: Emit>(out: &mut E, global: bool) -> Result<(), E::Fault>
    ensures { Did E.meanings out.old (stream_of (when global colons Done)) result out.new }
{
    if global {
        return out.text(b"::");
    }
    Ok(())
}

/// Emits words, with a `::` between them.
fn put_words<E: Emit>(out: &mut E, words: &[Word]) -> Result<(), E::Fault>
    ensures { Did E.meanings out.old (stream_of (simple_words_form words.now Done)) result out.new }
{
    match words {
        [] => Ok(()),
        [first, rest @ ..] => put_joined(out, first, rest),
    }
}

/// Emits a word, and others after it.
fn put_joined<E: Emit>(out: &mut E, first: &Word, rest: &[Word]) -> Result<(), E::Fault>
    ensures { Did E.meanings out.old
        (stream_of (leaf_of first.now.raw first.now.text (further_words rest.now))) result out.new }
{
    put_word(out, first.raw, &first.text)?;
    put_further_words(out, rest)
}

/// Emits words, each with a `::` before it.
fn put_further_words<E: Emit>(out: &mut E, words: &[Word]) -> Result<(), E::Fault>
    ensures { Did E.meanings out.old (stream_of (further_words words.now)) result out.new }
{
    for word in words {
        out.text(b"::")?;
        put_word(out, word.raw, &word.text)?;
    }
    Ok(())
}
