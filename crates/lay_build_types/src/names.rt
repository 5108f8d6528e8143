//! Builders of names, and of paths of names.
ghost use Rattle.std.specs.Prelude.{◌≡◌, ◌↔◌, IsTrue, MatchBool};
ghost use Rattle.lay_piece.specs.declared.kind.Kind.TheVariants as kinds;
ghost use Rattle.lay_form.specs.Pieces.{is_text_of};
ghost use Rattle.lay_build_types.specs.Answers.{Gives, Makes, Refuses};
ghost use Rattle.lay_build_types.specs.Kinds.{form_of_name};
ghost use Rattle.lay_build_types.specs.Nodes as node;

use crate::built::{BuildError, kept};
use crate::joins::keep;
use crate::kinds::BuiltName;
use lay_code::{Args, Name, Path, PathStart, Word};
use lay_piece::word::is_path_word;
use lay_piece::{Class, Kind, piece_at, word_class};
use lay_text::{List, NoMemory, Text};
use std::alloc::Global;
use std::str;

/// A name; a keyword becomes a raw identifier. The error is `BadName` if the text is not an
/// identifier, or is `_`, `crate`, `self`, `super` or `Self`.
pub fn name(alloc: Global, text: &[u8]) -> Result<BuiltName, BuildError>
    ensures { MatchBool (node.may_be_name text.now) (Makes form_of_name (node.name text.now) result) (Refuses BuildError.BadName result) }
{
    if !is_identifier(text) || is_path_word(text) {
        return Err(BuildError::BadName);
    }
    let raw = is_raw(word_class(text));
    match Text::from_bytes(alloc, text) {
        Ok(text) => kept(Ok((Name { raw, text }, 0))),
        Err(NoMemory) => Err(BuildError::NoMemory),
    }
}

/// Whether a text is an identifier, and nothing more.
fn is_identifier(text: &[u8]) -> bool
    ensures { result ≡ is_text_of kinds.Ident text.now }
{
    match str::from_utf8(text) {
        Ok(text) => match piece_at(text, false) {
            Some(piece) => is_ident(piece.kind) && piece.len == text.len(),
            None => false,
        },
        Err(_) => false,
    }
}

/// Whether a piece of this kind is an identifier.
fn is_ident(kind: Kind) -> bool
    ensures { IsTrue result ↔ kind ≡ kinds.Ident }
{
    matches!(kind, Kind::Ident)
}

/// Whether words of this class can only be names as raw identifiers.
fn is_raw(class: Class) -> bool
    ensures { result ≡ node.is_raw class }
{
    matches!(class, Class::Strict | Class::Reserved)
}

/// The path of these names; the last one has these generic arguments.
pub fn path(
    alloc: Global,
    first: Name,
    rest: List<Name>,
    arguments: Args,
) -> Result<Path, BuildError>
    ensures { Gives result (λ path. path ≡ node.path first rest arguments) }
{
    let segments = segments(alloc, first, rest, arguments)?;
    Ok(Path {
        start: PathStart::Local,
        segments,
    })
}

/// The segments of a path of these names; the last one has these generic arguments.
fn segments(
    alloc: Global,
    first: Name,
    rest: List<Name>,
    arguments: Args,
) -> Result<List<(Word, Args)>, BuildError>
    ensures { Gives result (λ segments. segments ≡ node.segments first rest arguments) }
{
    let mut segments = List::new(alloc);
    let mut last = first;
    let mut rest = rest.into_vec();
    rest.reverse();
    while let Some(next) = rest.pop() {
        keep(&mut segments, (word(last), Args::None))?;
        last = next;
    }
    keep(&mut segments, (word(last), arguments))?;
    Ok(segments)
}

/// The name as a word of a path.
fn word(name: Name) -> Word
    ensures { result ≡ node.word name }
{
    let Name { raw, text } = name;
    Word { raw, text }
}
