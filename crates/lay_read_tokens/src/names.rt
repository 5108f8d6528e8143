//! Parsing of names and of the words of paths.
ghost use Rattle.std.specs.Prelude.{◌≡◌, is_some, option_map};
ghost use Rattle.lay_piece.specs.Word.{class_of};
ghost use Rattle.lay_node.specs.Words.{is_path_class, is_plain};
ghost use Rattle.lay_node.specs.reader.Words as reader;
ghost use Rattle.lay_read_tokens.specs.Answers.{IsGot, named, worded};

use crate::ahead::Ahead;
use crate::front::{pass, takes_colons, takes_underscore};
use crate::stop::{ReadNone, copy_of, keep};
use lay_node::{GivenName, Name, Word};
use lay_token::word::{Class, word_class};
use lay_token::{Kind, List, Token};
use std::alloc::Global;

/// Whether a word is no keyword.
pub fn is_plain(word: &[u8]) -> bool
    ensures { result ≡ is_plain (class_of word.now) }
{
    matches!(word_class(word), Class::Plain)
}

/// Whether a word may stand in a path.
fn is_path_word(word: &[u8]) -> bool
    ensures { result ≡ is_path_class (class_of word.now) }
{
    matches!(word_class(word), Class::Plain | Class::PathWord)
}

/// Whether the token is a name; if it is, whether it is a raw identifier.
fn name_of(token: &Token) -> Option<bool>
    ensures { option_map (named token.now.text) result
        ≡ reader.name_by token.now.kind token.now.text }
{
    match token.kind {
        Kind::Ident if is_plain(token.text.as_bytes()) => Some(false),
        Kind::RawIdent => Some(true),
        _ => None,
    }
}

/// Whether the token is a word of a path; if it is, whether it is a raw identifier.
fn word_of(token: &Token) -> Option<bool>
    ensures { option_map (worded token.now.text) result
        ≡ reader.word_by token.now.kind token.now.text }
{
    match token.kind {
        Kind::Ident if is_path_word(token.text.as_bytes()) => Some(false),
        Kind::RawIdent => Some(true),
        _ => None,
    }
}

/// Parses a name.
#[tactic(auto, unfolding(lay_node::specs::reader::Words::name))]
pub fn read_name(alloc: Global, at: &mut Ahead<'_>) -> Result<Name, ReadNone>
    ensures { IsGot (reader.name at.old) result at.new }
{
    let token = match at.peek(0) {
        Some(token) => token,
        None => return Err(ReadNone::NoReading),
    };
    match name_of(token) {
        Some(raw) => {
            let text = copy_of(alloc, &token.text)?;
            pass(at);
            Ok(Name { raw, text })
        }
        None => Err(ReadNone::NoReading),
    }
}

/// Whether a name comes next.
#[tactic(auto, unfolding(lay_node::specs::reader::Words::name))]
pub fn is_at_name(at: &Ahead<'_>) -> bool
    ensures { result ≡ is_some (reader.name at.now) }
{
    match at.peek(0) {
        Some(token) => name_of(token).is_some(),
        None => false,
    }
}

/// Parses a word of a path.
#[tactic(auto, unfolding(lay_node::specs::reader::Words::word))]
pub fn read_word(alloc: Global, at: &mut Ahead<'_>) -> Result<Word, ReadNone>
    ensures { IsGot (reader.word at.old) result at.new }
{
    let token = match at.peek(0) {
        Some(token) => token,
        None => return Err(ReadNone::NoReading),
    };
    match word_of(token) {
        Some(raw) => {
            let text = copy_of(alloc, &token.text)?;
            pass(at);
            Ok(Word { raw, text })
        }
        None => Err(ReadNone::NoReading),
    }
}

/// Parses the words of a path that have a `::` after them.
pub fn read_path_words(alloc: Global, at: &mut Ahead<'_>) -> Result<List<Word>, ReadNone>
    ensures { IsGot (reader.path_words at.old) result at.new }
{
    let mut words = List::new(alloc);
    while begins_path_word(at) {
        let word = read_path_word(alloc, at)?;
        keep(&mut words, word)?;
    }
    Ok(words)
}

/// Whether a word comes next, and then a `::`.
#[tactic(auto, unfolding(lay_node::specs::reader::Words::path_word, lay_node::specs::reader::Words::word))]
fn begins_path_word(at: &Ahead<'_>) -> bool
    ensures { result ≡ reader.begins_path_word at.now }
{
    match at.peek(0) {
        Some(token) => {
            let mut behind = at.fork();
            pass(&mut behind);
            word_of(token).is_some() && behind.op_is(b"::")
        }
        None => false,
    }
}

/// Parses a word and the `::` after it.
#[tactic(auto, unfolding(lay_node::specs::reader::Words::path_word))]
fn read_path_word(alloc: Global, at: &mut Ahead<'_>) -> Result<Word, ReadNone>
    ensures { IsGot (reader.path_word at.old) result at.new }
{
    let word = read_word(alloc, at)?;
    if takes_colons(at) {
        Ok(word)
    } else {
        Err(ReadNone::NoReading)
    }
}

/// Parses a name, or `_`.
pub fn read_given_name(alloc: Global, at: &mut Ahead<'_>) -> Result<GivenName, ReadNone>
    ensures { IsGot (reader.given_name at.old) result at.new }
{
    if takes_underscore(at) {
        return Ok(GivenName::Underscore);
    }
    let name = read_name(alloc, at)?;
    Ok(GivenName::Name(name))
}
