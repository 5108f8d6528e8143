//! Facts about single tokens.
ghost use Rattle.std.specs.Prelude.{◌≡◌, [], ◌∷◌, IfOk, drop};
ghost use Rattle.lay_token.specs.declared.token.Token.{Token as TokenValue};
ghost use Rattle.lay_map.specs.spelling.Choice.{alike, closes, is_doc, is_semicolon, more_doc, opens};
ghost use Rattle.lay_lex.specs.one_by_one.Ahead.{Tells};
ghost use Rattle.lay_map.specs.Ahead.{tokens_of};
ghost use Rattle.lay_map.specs.Walks.{is_said, last_of, unit_from};

use crate::ahead::Ahead;
use crate::unit::Unit;
use crate::walk::Sought;
use lay_lex::one_by_one::Lexeme;
use lay_text::NoMemory;
use lay_token::{Delim, Kind};

/// Whether a token of this kind is an opening brace.
pub(crate) fn opens(kind: Kind) -> bool
    ensures { result ≡ opens kind }
{
    matches!(kind, Kind::Opener(Delim::Brace))
}

/// Whether a token of this kind is a closing brace.
pub(crate) fn closes(kind: Kind) -> bool
    ensures { result ≡ closes kind }
{
    matches!(kind, Kind::Closer(Delim::Brace))
}

/// Whether the token is a `;`.
pub(crate) fn is_semicolon(lexeme: &Lexeme<'_>) -> bool
    ensures { result ≡ is_semicolon lexeme.now.kind lexeme.now.text.now }
{
    match lexeme.kind {
        Kind::Punct => b";".as_slice() == lexeme.text,
        _ => false,
    }
}

/// Whether the token matches what is searched, as far as its first byte tells.
#[inline(always)]
pub(crate) fn says(sought: Sought, lexeme: &Lexeme<'_>) -> bool
    ensures { result ≡ is_said sought lexeme.now.kind lexeme.now.text.now }
{
    match sought {
        Sought::First(byte) => begins(lexeme.text, byte),
        Sought::Docs => is_doc(lexeme.kind) || begins(lexeme.text, b'#'),
    }
}

/// Whether a token of this kind is documentation.
fn is_doc(kind: Kind) -> bool
    ensures { result ≡ is_doc kind }
{
    matches!(kind, Kind::Doc { .. })
}

/// Whether a text begins with a byte.
fn begins(text: &[u8], byte: u8) -> bool
    ensures { result ≡ alike text.now (byte ∷ []) }
{
    match text {
        [first, ..] => *first == byte,
        [] => false,
    }
}

/// How many more tokens documentation has that begins with a token of this kind: `#[doc = "text"]`
/// has six tokens, and `#![doc = "text"]` seven.
pub(crate) fn more_doc(inner: bool, kind: Kind) -> usize
    ensures { result ≡ more_doc inner kind }
{
    if is_doc(kind) {
        0
    } else if inner {
        6
    } else {
        5
    }
}

/// Moves past `more` tokens, or as many as there are. Gives the last of them, or `first` if there
/// are none.
#[inline(always)]
pub(crate) fn last_of<'a>(first: Lexeme<'a>, ahead: &mut Ahead<'a>, more: usize) -> Lexeme<'a>
    ensures last { (t : TokenValue) → Tells first.entry t
        → Tells result (last_of more t (tokens_of ahead.old)) }
    ensures behind { tokens_of ahead.new ≡ drop more (tokens_of ahead.old) }
{
    let mut last = first;
    let mut left = more;
    while left > 0 {
        match ahead.next() {
            Some(lexeme) => {
                last = lexeme;
                left -= 1;
            }
            None => return last,
        }
    }
    last
}

/// The unit that reaches from a token to another.
#[inline(always)]
pub(crate) fn unit_from(first: &Lexeme<'_>, last: &Lexeme<'_>) -> Unit
    ensures { (t u : TokenValue) → Tells first.now t → Tells last.now u → result ≡ unit_from t u }
{
    Unit {
        at: first.at,
        len: last.at.saturating_add(last.len).saturating_sub(first.at),
    }
}
