//! Lookahead: tests of the next tokens, and moves past them.
ghost use Rattle.std.specs.Prelude.{◌≡◌, ◌&&◌, if◌then◌else◌, drop, codes, Some, None};
ghost use Rattle.lay_token.specs.Operators.{is_op};
ghost use Rattle.lay_node.specs.Ahead as ahead;
ghost use Rattle.lay_node.specs.Ahead.{first, same_delim, tail, more_items};
ghost use Rattle.lay_node.specs.reader.Attr.{begins_group};
ghost use Rattle.lay_node.specs.reader.Loops.{element_end};
ghost use Rattle.lay_read_tokens.specs.Answers.{is_underscore};

use crate::ahead::Ahead;
use lay_token::{Delim, Kind, Token};

/// Whether the token is this keyword.
#[inline]
pub fn is_keyword(token: &Token, word: &[u8]) -> bool
    ensures { result ≡ ahead.is_keyword word.now token.now }
{
    matches!(token.kind, Kind::Ident) && token.text.as_bytes() == word
}

/// Whether the token is punctuation with this character.
fn is_mark(token: &Token, character: &[u8]) -> bool
    ensures { result ≡ ahead.is_mark character.now token.now }
{
    matches!(token.kind, Kind::Punct) && token.text.as_bytes() == character
}

/// Whether two delimiters are the same.
fn is_same(delim: Delim, other: Delim) -> bool
    ensures { result ≡ same_delim delim other }
{
    match delim {
        Delim::Paren => matches!(other, Delim::Paren),
        Delim::Bracket => matches!(other, Delim::Bracket),
        Delim::Brace => matches!(other, Delim::Brace),
    }
}

/// Whether the token opens a group with this delimiter.
fn opens(token: &Token, delim: Delim) -> bool
    ensures { result ≡ ahead.opens delim token.now }
{
    match token.kind {
        Kind::Opener(found) => is_same(delim, found),
        _ => false,
    }
}

/// Whether the token closes a group with this delimiter.
fn closes(token: &Token, delim: Delim) -> bool
    ensures { result ≡ ahead.closes delim token.now }
{
    match token.kind {
        Kind::Closer(found) => is_same(delim, found),
        _ => false,
    }
}

/// Moves past the next token, if there is one.
pub fn pass(at: &mut Ahead<'_>)
    ensures { at.new ≡ tail at.old }
{
    if !at.is_end() {
        at.step();
    }
}

/// Moves past the next token, if `found`.
fn pass_if(at: &mut Ahead<'_>, found: bool)
    ensures { at.new ≡ (if found then tail at.old else at.old) }
{
    if found {
        pass(at);
    }
}

/// Whether this keyword comes next.
pub fn is_at_keyword(at: &Ahead<'_>, word: &[u8]) -> bool
    ensures { result ≡ first (ahead.is_keyword word.now) at.now }
{
    match at.peek(0) {
        Some(token) => is_keyword(token, word),
        None => false,
    }
}

/// Moves past this keyword if it comes next, and says whether it did.
pub fn takes_keyword(at: &mut Ahead<'_>, word: &[u8]) -> bool
    ensures found { result ≡ first (ahead.is_keyword word.now) at.old }
    ensures passed { at.new ≡ (if result then tail at.old else at.old) }
{
    let found = is_at_keyword(at, word);
    pass_if(at, found);
    found
}

/// Whether punctuation with this character comes next.
pub fn is_at_mark(at: &Ahead<'_>, character: &[u8]) -> bool
    ensures { result ≡ first (ahead.is_mark character.now) at.now }
{
    match at.peek(0) {
        Some(token) => is_mark(token, character),
        None => false,
    }
}

/// Moves past punctuation with this character if it comes next, and says whether it did.
pub fn takes_mark(at: &mut Ahead<'_>, character: &[u8]) -> bool
    ensures found { result ≡ first (ahead.is_mark character.now) at.old }
    ensures passed { at.new ≡ (if result then tail at.old else at.old) }
{
    let found = is_at_mark(at, character);
    pass_if(at, found);
    found
}

/// Whether an opener comes next.
pub(crate) fn is_at_opener(at: &Ahead<'_>) -> bool
    ensures { result ≡ first begins_group at.now }
{
    match at.peek(0) {
        Some(token) => matches!(token.kind, Kind::Opener(_)),
        None => false,
    }
}

/// Whether an opener of this delimiter comes next.
pub fn is_at_opened(at: &Ahead<'_>, delim: Delim) -> bool
    ensures { result ≡ first (ahead.opens delim) at.now }
{
    match at.peek(0) {
        Some(token) => opens(token, delim),
        None => false,
    }
}

/// Moves past an opener of this delimiter if it comes next, and says whether it did.
pub fn takes_opener(at: &mut Ahead<'_>, delim: Delim) -> bool
    ensures found { result ≡ first (ahead.opens delim) at.old }
    ensures passed { at.new ≡ (if result then tail at.old else at.old) }
{
    let found = is_at_opened(at, delim);
    pass_if(at, found);
    found
}

/// Whether a closer of this delimiter comes next.
pub fn is_at_closer(at: &Ahead<'_>, delim: Delim) -> bool
    ensures { result ≡ first (ahead.closes delim) at.now }
{
    match at.peek(0) {
        Some(token) => closes(token, delim),
        None => false,
    }
}

/// Moves past a closer of this delimiter if it comes next, and says whether it did.
pub fn takes_closer(at: &mut Ahead<'_>, delim: Delim) -> bool
    ensures found { result ≡ first (ahead.closes delim) at.old }
    ensures passed { at.new ≡ (if result then tail at.old else at.old) }
{
    let found = is_at_closer(at, delim);
    pass_if(at, found);
    found
}

/// Moves past a `_` if it comes next, and says whether it did.
pub fn takes_underscore(at: &mut Ahead<'_>) -> bool
    ensures found { result ≡ first is_underscore at.old }
    ensures passed { at.new ≡ (if result then tail at.old else at.old) }
{
    let found = match at.peek(0) {
        Some(token) => matches!(token.kind, Kind::Underscore),
        None => false,
    };
    pass_if(at, found);
    found
}

/// Moves past this operator of one character if it comes next, and says whether it did.
pub fn takes_op(at: &mut Ahead<'_>, op: &[u8]) -> bool
    ensures found { result ≡ is_op op.now at.old }
    ensures passed { at.new ≡ (if result then drop 1 at.old else at.old) }
{
    let found = at.op_is(op);
    if found {
        pass(at);
    }
    found
}

/// Moves past two tokens, or as many as there are.
pub fn pass_two(at: &mut Ahead<'_>)
    ensures { at.new ≡ drop 2 at.old }
{
    pass(at);
    pass(at);
}

/// Whether a `::` comes next.
pub fn is_at_colons(at: &Ahead<'_>) -> bool
    ensures { result ≡ is_op (codes "::") at.now }
{
    at.op_is(b"::")
}

/// Moves past a `::` if it comes next, and says whether it did.
pub fn takes_colons(at: &mut Ahead<'_>) -> bool
    ensures found { result ≡ is_op (codes "::") at.old }
    ensures passed { at.new ≡ (if result then drop 2 at.old else at.old) }
{
    let found = is_at_colons(at);
    if found {
        pass_two(at);
    }
    found
}

/// Moves past a `,` after an element of a list. Without a `,` it says whether the closer of the
/// list comes next.
pub fn takes_element_end(at: &mut Ahead<'_>, delim: Delim) -> bool
    ensures { (if result then Some at.new else None) ≡ element_end (ahead.closes delim) at.old }
{
    takes_mark(at, b",") || is_at_closer(at, delim)
}

/// Whether another item may follow: a token is left, and it is no `}`.
pub fn has_items(at: &Ahead<'_>) -> bool
    ensures { result ≡ more_items at.now }
{
    match at.peek(0) {
        Some(token) => !closes(token, Delim::Brace),
        None => false,
    }
}
