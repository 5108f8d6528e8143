//! From a token to the value of the string literal that it is.
ghost use Rattle.std.specs.Prelude.{◌≡◌, ◌<◌, ◌==◌, IfOk, IsUtf8, not};
ghost use Rattle.std.specs.Str.{chars};
ghost use Rattle.lay_piece.specs.Value.{value_of};
ghost use Rattle.lay_cook.specs.Cooking.{CookedAs, IsString};
ghost use Rattle.lay_cook.specs.Steps.{IsLiteral, ends, ends_in_mark};
ghost use Rattle.lay_piece.specs.declared.kind.Kind.TheVariants as kind;

use crate::raw::raw_value;
use crate::strings::{next, push_value};
use lay_token::{Kind, NoMemory, Text, Token};
use std::alloc::Global;

/// The value of a token as a string.
#[derive(Debug, Drop)]
pub enum Cooked {
    /// The value of a string literal without suffix.
    Str(Text),
    /// None: the token is no string literal, or one with a suffix.
    NotText,
}

/// The value of a string literal without suffix (Rust Reference, "String literals", "Raw string
/// literals"). The only error is out of memory.
pub fn cook(alloc: Global, token: &Token) -> Result<Cooked, NoMemory>
    requires text { IsString token.now }
    ensures { IfOk result (CookedAs (value_of token.now.kind (chars token.now.text))) }
{
    match token.kind {
        Kind::Str => cook_string(alloc, piece_of(&token.text)),
        Kind::RawStr => cook_raw(alloc, piece_of(&token.text)),
        _ => Ok(Cooked::NotText),
    }
}

/// The text as a `str`.
fn piece_of(text: &Text) -> &str
    requires { IsUtf8 text.now }
    ensures { result.now ≡ text.now }
{
    unsafe { std::str::from_utf8_unchecked(text.as_bytes()) }
}

/// The value of a string literal, unless it has a suffix.
fn cook_string(alloc: Global, piece: &str) -> Result<Cooked, NoMemory>
    requires { IsLiteral kind.Str (chars piece.now) }
    ensures { IfOk result (CookedAs (value_of kind.Str (chars piece.now))) }
{
    if has_suffix(piece) {
        return Ok(Cooked::NotText);
    }
    let (_, inside) = next(piece);
    let mut value = Text::new(alloc);
    push_value(&mut value, inside)?;
    Ok(Cooked::Str(value))
}

/// The value of a raw string literal, unless it has a suffix.
fn cook_raw(alloc: Global, piece: &str) -> Result<Cooked, NoMemory>
    requires { IsLiteral kind.RawStr (chars piece.now) }
    ensures { IfOk result (CookedAs (value_of kind.RawStr (chars piece.now))) }
{
    if has_suffix(piece) {
        return Ok(Cooked::NotText);
    }
    let (_, quoted) = next(piece);
    let value = Text::from_bytes(alloc, raw_value(quoted))?;
    Ok(Cooked::Str(value))
}

/// Whether a string literal ends in a suffix: without one, it ends in a quote or a `#`.
fn has_suffix(piece: &str) -> bool
    ensures { result ≡ not (ends_in_mark (chars piece.now)) }
{
    !(ends_in('"', piece) || ends_in('#', piece))
}

/// Whether the text ends with this ASCII character.
fn ends_in(mark: char, s: &str) -> bool
    requires { mark < 128 }
    ensures { result ≡ ends (λ c. c == mark) (chars s.now) }
{
    s.ends_with(mark)
}
