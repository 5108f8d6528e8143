//! Lookahead: what kind of node the next tokens begin.
ghost use Rattle.std.specs.Prelude.{◌≡◌, option_map};
ghost use Rattle.lay_piece.specs.Word.{class_of};
ghost use Rattle.lay_node.specs.Begins.{is_literal_token};
ghost use Rattle.lay_node.specs.Ahead.{first};
ghost use Rattle.lay_node.specs.Ahead as ahead;
ghost use Rattle.lay_node.specs.Begins as begins;
ghost use Rattle.lay_node.specs.Words as words;
ghost use Rattle.lay_node.specs.reader.Functions as functions;
ghost use Rattle.lay_node.specs.reader.Patterns as patterns;
ghost use Rattle.lay_node.specs.reader.Types as reader;
ghost use Rattle.lay_read_parts.specs.Leads.{told};

use lay_read_tokens::Ahead;
use lay_read_tokens::front::{is_at_closer, is_at_keyword, is_at_mark, is_at_opened, takes_colons};
use lay_token::word::{Class, word_class};
use lay_token::{Delim, Kind, Token};

/// The tokens that can begin a type.
#[derive(Clone, Copy)]
pub enum Lead {
    Path,
    Paren,
    Never,
    Infer,
    Pointer,
    Reference,
    Bracket,
    Impl,
    Dyn,
    Func,
}

/// How a type begins with the next tokens, if one does.
#[tactic(auto, unfolding(lay_node::specs::Begins::lead_at))]
pub fn lead_at(at: &Ahead<'_>) -> Option<Lead>
    ensures { option_map told result ≡ begins.lead_at at.now }
{
    match at.peek(0) {
        Some(token) => match token.kind {
            Kind::Ident => lead_of_word(token.text.as_bytes()),
            Kind::RawIdent => Some(Lead::Path),
            Kind::Underscore => Some(Lead::Infer),
            Kind::Punct => lead_of_punct(token.text.as_bytes(), at),
            Kind::Opener(Delim::Paren) => Some(Lead::Paren),
            Kind::Opener(Delim::Bracket) => Some(Lead::Bracket),
            _ => None,
        },
        None => None,
    }
}

/// How a type begins with this word, if one does.
fn lead_of_word(word: &[u8]) -> Option<Lead>
    ensures { option_map told result ≡ begins.lead_of_word word.now }
{
    if matches!(word_class(word), Class::Plain | Class::PathWord) {
        Some(Lead::Path)
    } else if word == b"impl".as_slice() {
        Some(Lead::Impl)
    } else if word == b"dyn".as_slice() {
        Some(Lead::Dyn)
    } else if word == b"fn".as_slice()
        || word == b"unsafe".as_slice()
        || word == b"extern".as_slice()
        || word == b"for".as_slice()
    {
        Some(Lead::Func)
    } else {
        None
    }
}

/// How a type begins with this punctuation, if one does.
fn lead_of_punct(character: &[u8], at: &Ahead<'_>) -> Option<Lead>
    ensures { option_map told result ≡ begins.lead_of_punct character.now at.now }
{
    if character == b"!".as_slice() {
        Some(Lead::Never)
    } else if character == b"*".as_slice() {
        Some(Lead::Pointer)
    } else if character == b"&".as_slice() {
        Some(Lead::Reference)
    } else if character == b"<".as_slice() || at.op_is(b"::") {
        Some(Lead::Path)
    } else {
        None
    }
}

/// Whether a lifetime comes next.
pub fn is_at_lifetime(at: &Ahead<'_>) -> bool
    ensures { result ≡ first ahead.is_lifetime at.now }
{
    match at.peek(0) {
        Some(token) => matches!(token.kind, Kind::Lifetime),
        None => false,
    }
}

/// Whether a bound comes next.
pub fn begins_bound(at: &Ahead<'_>) -> bool
    ensures { result ≡ begins.begins_bound at.now }
{
    is_at_lifetime(at)
        || is_at_keyword(at, b"use")
        || is_at_opened(at, Delim::Paren)
        || is_at_mark(at, b"?")
        || is_at_keyword(at, b"for")
        || matches!(lead_at(at), Some(Lead::Path))
}

/// Whether a predicate of a where clause comes next.
pub(crate) fn begins_predicate(at: &Ahead<'_>) -> bool
    ensures { result ≡ begins.begins_predicate at.now }
{
    is_at_lifetime(at) || lead_at(at).is_some()
}

/// Whether a parameter of a function type comes next.
pub(crate) fn begins_param(at: &Ahead<'_>) -> bool
    ensures { result ≡ reader.begins_param at.now }
{
    !(is_at_closer(at, Delim::Paren) || at.op_is(b"..."))
}

/// Whether a parameter of a function comes next.
pub(crate) fn begins_fn_param(at: &Ahead<'_>) -> bool
    ensures { result ≡ functions.begins_fn_param at.now }
{
    !is_at_closer(at, Delim::Paren)
}

/// Whether a field of a struct pattern comes next.
pub(crate) fn begins_field(at: &Ahead<'_>) -> bool
    ensures { result ≡ patterns.begins_field at.now }
{
    !(is_at_closer(at, Delim::Brace) || at.op_is(b".."))
}

/// Whether generic arguments open with the next token.
pub fn opens_args(at: &Ahead<'_>) -> bool
    ensures { result ≡ ahead.opens_args at.now }
{
    at.op_is(b"<") || at.op_is(b"<<") || at.op_is(b"<-")
}

/// Whether a `::` comes next, and then generic arguments open.
pub fn opens_args_late(at: &Ahead<'_>) -> bool
    ensures { result ≡ ahead.opens_args_late at.now }
{
    let mut behind = at.fork();
    takes_colons(&mut behind) && opens_args(&behind)
}

/// Whether the token is a literal.
fn is_literal(token: &Token) -> bool
    ensures { result ≡ words.is_literal token.now.kind token.now.text }
{
    match token.kind {
        Kind::Ident => token.text.as_bytes() == b"true".as_slice()
            || token.text.as_bytes() == b"false".as_slice(),
        Kind::Char
        | Kind::Str
        | Kind::RawStr
        | Kind::Byte
        | Kind::ByteStr
        | Kind::RawByteStr
        | Kind::CStr
        | Kind::RawCStr
        | Kind::Int
        | Kind::Float => true,
        _ => false,
    }
}

/// Whether a literal comes next.
pub fn is_at_literal(at: &Ahead<'_>) -> bool
    ensures { result ≡ first is_literal_token at.now }
{
    match at.peek(0) {
        Some(token) => is_literal(token),
        None => false,
    }
}

/// Whether a number comes next.
pub fn is_at_number(at: &Ahead<'_>) -> bool
    ensures { result ≡ first (λ token. words.is_number token.kind) at.now }
{
    match at.peek(0) {
        Some(token) => matches!(token.kind, Kind::Int | Kind::Float),
        None => false,
    }
}

/// Whether a const generic argument comes next.
pub fn begins_const(at: &Ahead<'_>) -> bool
    ensures { result ≡ reader.begins_const at.now }
{
    is_at_literal(at) || is_at_mark(at, b"-") || is_at_opened(at, Delim::Brace)
}
