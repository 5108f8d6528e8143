//! The values of string literals; the functions get the text after the opening quote.
ghost use Rattle.std.specs.Prelude.{◌≡◌, ◌≢◌, ◌≤◌, ◌<◌, ◌∷◌, ◌++◌, [], length, IsTrue, OnOk, encode_utf8_all, option_to_list};
ghost use Rattle.std.specs.Str.{chars};
ghost use Rattle.std.specs.Char.{is_ascii_hexdigit};
ghost use Rattle.lay_piece.specs.Chars.{after, front, hex_value};
ghost use Rattle.lay_piece.specs.Quoted.{Digits, Escape, Hex, Open, Plain, Turned, is_short_escape};
ghost use Rattle.lay_piece.specs.Value.{short_escape, string_value};
ghost use Rattle.lay_piece.specs.declared.piece.quoted.Contents.TheVariants as of;
ghost use Rattle.lay_cook.specs.Steps.{Closes, Reads, is_unmarked};

use lay_token::piece::chars::{CharSet, behind, first};
use lay_token::{NoMemory, Text};

/// Appends the value of a string literal to a text.
pub fn push_value(value: &mut Text, inside: &str) -> Result<(), NoMemory>
    requires { Closes Plain (chars inside.now) }
    ensures { OnOk result (value.new ≡ value.old
        ++ encode_utf8_all (string_value Plain (chars inside.now))) }
{
    let mut rest = inside;
    'runs: loop {
        let (run, mark) = run(rest);
        value.push_bytes(run)?;
        match behind('\\', mark) {
            None => return Ok(()),
            Some(turned) => {
                let (escaped, tail) = escape(turned);
                push_escaped(value, escaped)?;
                rest = tail;
            }
        }
    }
}

/// The leading characters that stand for themselves, and the text after them.
fn run(s: &str) -> (&[u8], &str)
    ensures run { result.0.now ≡ encode_utf8_all (front is_unmarked (chars s.now)) }
    ensures rest { chars result.1.now ≡ after is_unmarked (chars s.now) }
    ensures shorter { length result.1.now ≤ length s.now }
{
    let rest = after_run(s);
    (&s.as_bytes()[..s.len() - rest.len()], rest)
}

/// The text after the leading characters that stand for themselves.
fn after_run(s: &str) -> &str
    ensures run { chars result.now ≡ after is_unmarked (chars s.now) }
    ensures shorter { length result.now ≤ length s.now }
{
    let mut rest = s;
    while let Some((c, tail)) = first(rest) {
        if c == '"' || c == '\\' {
            break;
        }
        rest = tail;
    }
    rest
}

/// Appends the character that an escape stands for, if it stands for one.
fn push_escaped(value: &mut Text, escaped: Option<char>) -> Result<(), NoMemory>
    ensures { OnOk result (value.new ≡ value.old ++ encode_utf8_all (option_to_list escaped)) }
{
    match escaped {
        None => Ok(()),
        Some(c) => value.push_bytes(c.encode_utf8(&mut [0; 4]).as_bytes()),
    }
}

/// The character that an escape stands for, and the text after it; `s` follows the backslash. An
/// escaped line end stands for no character.
fn escape(s: &str) -> (Option<char>, &str)
    requires { Closes Turned (chars s.now) }
    ensures value { Reads Turned (chars s.now) (option_to_list result.0) (chars result.1.now) }
    ensures shorter { length result.1.now ≤ length s.now }
{
    let (c, tail) = next(s);
    match c {
        '\n' => (None, CharSet::Skipped.after(tail)),
        'x' => {
            let (value, rest) = byte_value(tail);
            (Some(value), rest)
        }
        'u' => {
            let (value, rest) = char_value(tail);
            (Some(value), rest)
        }
        _ => (Some(short_escape(c)), tail),
    }
}

/// The character that an escape of one letter or mark stands for, as `\n`.
fn short_escape(c: char) -> char
    requires { IsTrue (is_short_escape of.Chars c) }
    ensures { result ∷ [] ≡ short_escape c }
{
    match c {
        'n' => '\n',
        'r' => '\r',
        't' => '\t',
        '0' => '\0',
        _ => c,
    }
}

/// The character of the two digits after `\x`, and the text after them.
fn byte_value(s: &str) -> (char, &str)
    requires { Closes (Escape Hex) (chars s.now) }
    ensures value { Reads (Escape Hex) (chars s.now) (result.0 ∷ []) (chars result.1.now) }
    ensures shorter { length result.1.now ≤ length s.now }
{
    let (high, tail) = next(s);
    let (low, rest) = next(tail);
    ((16 * digit(high) + digit(low)) as char, rest)
}

/// The character of the digits after `\u`, and the text after their closing brace.
fn char_value(s: &str) -> (char, &str)
    requires { Closes (Escape Open) (chars s.now) }
    ensures value { Reads (Escape Open) (chars s.now) (result.0 ∷ []) (chars result.1.now) }
    ensures shorter { length result.1.now ≤ length s.now }
{
    let (_, digits) = next(s);
    let mut value = 0u32;
    let mut rest = digits;
    'digits: loop {
        let (c, tail) = next(rest);
        rest = tail;
        match c {
            '}' => return (char::from_u32(value).unwrap(), rest),
            '_' => {}
            _ => value = 16 * value + digit(c) as u32,
        }
    }
}

/// The value of a hexadecimal digit.
fn digit(c: char) -> u8
    requires { IsTrue (is_ascii_hexdigit c) }
    ensures value { result ≡ hex_value c }
    ensures small { result < 16 }
{
    match c {
        '0'..='9' => c as u8 - 48,
        'A'..='F' => c as u8 - 55,
        _ => c as u8 - 87,
    }
}

/// The first character of a text that isn't empty, and the text after it.
pub fn next(s: &str) -> (char, &str)
    requires { chars s.now ≢ [] }
    ensures parts { chars s.now ≡ result.0 ∷ chars result.1.now }
    ensures shorter { length result.1.now < length s.now }
{
    match first(s) {
        Some(next) => next,
        None => unreachable!(),
    }
}
