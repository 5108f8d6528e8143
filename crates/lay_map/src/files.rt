//! The units of the tokens that spell a file.
ghost use Rattle.std.specs.Prelude.{IfOk, List as Items};
ghost use Rattle.std.specs.Str.{IsCharBoundary};
ghost use Rattle.lay_token.specs.Lexes.{Lexes};
ghost use Rattle.lay_token.specs.declared.token.Token.{Token as TokenValue};
ghost use Rattle.lay_code.specs.Reading.{SpellsFile, top};
ghost use Rattle.lay_map.specs.Ahead.{tokens_of};
ghost use Rattle.lay_map.specs.Places.{ArePlaces};
ghost use Rattle.lay_read_tokens.specs.Answers.{AreLexed};

use crate::ahead::Ahead;
use crate::marker::Marker;
use crate::unit::{Span, Unit, units_of_spans};
use lay_code::File;
use lay_lex::one_by_one::Cursor;
use lay_nest::Nested;
use lay_out_code::put_file;
use lay_text::{List, NoMemory};
use std::alloc::Global;

/// The units of the tokens, which spell the file, in order: each token that matters, and the tokens
/// of one documentation together. Punctuation that the grammar allows but doesn't require is in no
/// unit.
///
/// The tokens are those that some text lexes to. If a unit begins after 2^32 bytes, or is as long,
/// the error is `NoMemory`.
pub fn units(alloc: Global, file: &File, nested: &Nested) -> Result<List<Unit>, NoMemory>
    requires lexed { AreLexed nested.now }
    requires spells { SpellsFile top file.now nested.now }
    ensures { IfOk result (λ list. ArePlaces file.now nested.now list) }
{
    let cursor = nested.cursor();
    let spans = found(alloc, file, Ahead::Tokens(cursor.as_slice()))?;
    units_of_spans(alloc, spans.as_slice())
}

/// The units of the tokens of a text, lexed from the byte offset `start` on. No list of these
/// tokens is made, and each unit is kept in 8 bytes.
pub fn units_of_text(
    alloc: Global,
    file: &File,
    text: &str,
    start: usize,
) -> Result<List<Span>, NoMemory>
    requires border { IsCharBoundary text.now start }
    requires read { (tokens : Items TokenValue) × Lexes text.now start tokens
        × SpellsFile top file.now tokens }
    ensures { IfOk result (λ list. (tokens : Items TokenValue) → Lexes text.now start tokens
        → ArePlaces file.now tokens list) }
{
    found(alloc, file, Ahead::Text(Cursor::new(text, start)))
}

/// The units of these tokens.
fn found(alloc: Global, file: &File, tokens: Ahead<'_>) -> Result<List<Span>, NoMemory>
    requires lexed { AreLexed (tokens_of tokens) }
    requires spells { SpellsFile top file.now (tokens_of tokens) }
    ensures { IfOk result (λ list. ArePlaces file.now (tokens_of tokens.entry) list) }
{
    let mut marker = Marker::new(alloc, tokens, file.shebang.is_some());
    put_file(&mut marker, file)?;
    marker.into_units()
}
