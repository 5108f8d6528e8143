//! Parsing of simple paths.
ghost use Rattle.std.specs.Prelude.{◌≡◌};
ghost use Rattle.lay_node.specs.reader.Loops.{repeat};
ghost use Rattle.lay_node.specs.reader.SimplePath as reader;
ghost use Rattle.lay_read_tokens.specs.Answers.{BeginWith, IsGot, IsHeld};

use crate::ahead::Ahead;
use crate::front::{is_at_colons, pass_two, takes_colons};
use crate::names::read_word;
use crate::stop::{ReadNone, keep};
use lay_node::{SimplePath, Word};
use lay_token::List;
use std::alloc::Global;

/// Parses a simple path.
#[tactic(auto, unfolding(lay_node::specs::reader::SimplePath::simple_path))]
pub fn read_simple_path(alloc: Global, at: &mut Ahead<'_>) -> Result<SimplePath, ReadNone>
    ensures { IsGot (reader.simple_path at.old) result at.new }
{
    let global = takes_colons(at);
    let first = read_word(alloc, at)?;
    let words = read_words(alloc, at, first)?;
    Ok(SimplePath { global, words })
}

/// Parses the words of a simple path after the word `first`, each with a `::` before it, and gives
/// all of them.
fn read_words(alloc: Global, at: &mut Ahead<'_>, first: Word) -> Result<List<Word>, ReadNone>
    ensures { IsHeld (BeginWith first) (repeat reader.begins_colons reader.further_word at.old)
        result at.new }
{
    let mut words = List::new(alloc);
    keep(&mut words, first)?;
    while is_at_colons(at) {
        let word = read_further_word(alloc, at)?;
        keep(&mut words, word)?;
    }
    Ok(words)
}

/// Parses a `::` and a word.
fn read_further_word(alloc: Global, at: &mut Ahead<'_>) -> Result<Word, ReadNone>
    ensures { IsGot (reader.further_word at.old) result at.new }
{
    pass_two(at);
    read_word(alloc, at)
}
