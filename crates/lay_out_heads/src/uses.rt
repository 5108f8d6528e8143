//! The layout of use trees.
ghost use Rattle.std.specs.Prelude.{map, true};
ghost use Rattle.lay_stream.specs.Fed.{Did};
ghost use Rattle.lay_piece.specs.declared.kind.Delim.TheVariants.{Brace};
ghost use Rattle.lay_form.specs.Form.{Done, closer, opener};
ghost use Rattle.lay_form.specs.Notation.{comma_list};
ghost use Rattle.lay_form.specs.Stream.{stream_of};
ghost use Rattle.lay_node.specs.nodes.Facts.{forms};
ghost use Rattle.lay_node.specs.nodes.Use.{about_use, about_use_end, rename_form, words_form};
ghost use Rattle.lay_out_types.specs.Calls.{Adds};

use lay_node::{GivenName, UseEnd, UseTree, Word};
use lay_out_types::calls::{add_if, add_text, add_word};
use lay_out_types::lists::{add_close, add_lead};
use lay_stream::Emit;

/// Emits the layout of a use tree.
pub fn put_use<E: Emit>(out: &mut E, tree: &UseTree) -> Result<(), E::Fault>
    ensures { Did E.meanings out.old (stream_of (about_use tree.now).form) result out.new }
{
    add_use(out, Ok(()), tree)
}

/// Emits a use tree.
#[cycle(add_use)]
fn add_use<E: Emit>(
    out: &mut E,
    before: Result<(), E::Fault>,
    tree: &UseTree,
) -> Result<(), E::Fault>
    ensures { Adds E.meanings before out.old (stream_of (about_use tree.now).form) result out.new }
{
    let global = add_if(out, before, tree.global, b"::");
    let words = add_words(out, global, tree.path.as_slice());
    add_use_end(out, words, &tree.end)
}

/// Emits the end of a use tree, after its path.
#[cycle(add_use)]
fn add_use_end<E: Emit>(
    out: &mut E,
    before: Result<(), E::Fault>,
    end: &UseEnd,
) -> Result<(), E::Fault>
    ensures { Adds E.meanings before out.old (stream_of (about_use_end end.now).form) result
        out.new }
{
    match end {
        UseEnd::Word { word, rename } => {
            let word = add_word(out, before, word.raw, &word.text);
            add_rename(out, word, rename)
        },
        UseEnd::Glob => add_text(out, before, b"*"),
        UseEnd::Group { trees } => add_trees(out, before, trees.as_slice()),
    }
}

/// Emits use trees in braces.
#[cycle(add_use)]
fn add_trees<E: Emit>(
    out: &mut E,
    before: Result<(), E::Fault>,
    trees: &[UseTree],
) -> Result<(), E::Fault>
    ensures { let group = comma_list true (opener Brace) (closer Brace)
        (forms (map about_use trees.now)) in
        Adds E.meanings before out.old (stream_of group) result out.new }
{
    let mut done = before;
    for (index, tree) in trees.iter().enumerate() {
        done = add_lead(out, done, index == 0, b"{");
        done = add_use(out, done, tree);
    }
    add_close(out, done, true, trees.is_empty(), b"{}", b"}")
}

/// Emits words, each with a `::` after it.
fn add_words<E: Emit>(
    out: &mut E,
    before: Result<(), E::Fault>,
    words: &[Word],
) -> Result<(), E::Fault>
    ensures { Adds E.meanings before out.old (stream_of (words_form words.now Done)) result
        out.new }
{
    let mut done = before;
    for word in words {
        done = add_word(out, done, word.raw, &word.text);
        done = add_text(out, done, b"::");
    }
    done
}

/// Emits `as` and another name, or `as _`; nothing if the name isn't changed.
pub fn add_rename<E: Emit>(
    out: &mut E,
    before: Result<(), E::Fault>,
    rename: &Option<GivenName>,
) -> Result<(), E::Fault>
    ensures { Adds E.meanings before out.old (stream_of (rename_form rename.now)) result out.new }
{
    match rename {
        None => before,
        Some(rename) => {
            let sign = add_text(out, before, b" as ");
            match rename {
                GivenName::Underscore => add_text(out, sign, b"_"),
                GivenName::Name(name) => add_word(out, sign, name.raw, &name.text),
            }
        },
    }
}
