//! From an input to the text that is lexed.
ghost use Rattle.std.specs.Prelude.{◌≡◌, ◌==◌, codes, true, false, IfOk, IsUtf8, encode_utf8_all};
ghost use Rattle.std.specs.List.{list_any};
ghost use Rattle.std.specs.Str.{chars, IsCharBoundary};
ghost use Rattle.lay_piece.specs.Chars.{after, begins, behind, front, is_white};
ghost use Rattle.lay_token.specs.Source.{folded, is_in_line, is_no_command, is_shebang, source, source_of, without_mark};
ghost use Rattle.lay_lex.specs.Source.{Answers, seen};

use crate::ends::without_end;
use crate::gap::is_white;
use lay_token::piece::chars::first;
use lay_token::{FormatError, List, NoMemory, Refusal, Text};
use std::alloc::Global;

/// An input, prepared for lexing.
#[derive(Debug, Drop)]
pub struct Source {
    /// The shebang line, without the LF that ends it and without any CR before that.
    pub shebang: Option<Text>,
    /// The whole text, without a byte order mark and with one LF for each CR LF.
    pub text: List<u8>,
    /// The byte offset where lexing begins: after the shebang line.
    pub start: usize,
}

impl Source {
    /// The whole text, as a `str`.
    pub fn as_str(&self) -> &str
        requires { IsUtf8 self.now.text }
        ensures { result.now ≡ self.now.text }
    {
        unsafe { std::str::from_utf8_unchecked(self.text.as_slice()) }
    }
}

/// Prepares an input for lexing (Rust Reference, "Input format"). The only syntax error is
/// `NotUtf8`.
pub fn normalise(alloc: Global, bytes: &[u8]) -> Result<Source, FormatError>
    ensures answer { Answers (source bytes.now) result }
    // The text can be lexed from its start on.
    ensures ready { IfOk result (λ given. IsUtf8 given.text
        × IsCharBoundary given.text given.start) }
{
    let text = match std::str::from_utf8(bytes) {
        Ok(text) => text,
        Err(error) => {
            let at = error.valid_up_to();
            return Err(FormatError::Refused(Refusal::NotUtf8 { at }));
        }
    };
    match source_of(alloc, text) {
        Ok(source) => Ok(source),
        Err(_) => Err(FormatError::NoMemory),
    }
}

/// Prepares a text for lexing.
fn source_of(alloc: Global, s: &str) -> Result<Source, NoMemory>
    ensures { IfOk result (λ given. seen given ≡ source_of (folded (without_mark (chars s.now)))) }
{
    let text = folded(alloc, without_mark(s))?;
    let whole = unsafe { std::str::from_utf8_unchecked(text.as_slice()) };
    let (shebang, start) = shebang(alloc, whole)?;
    Ok(Source {
        shebang,
        text: List::from_vec(text),
        start,
    })
}

/// The text without a byte order mark at its beginning.
fn without_mark(s: &str) -> &str
    ensures { chars result.now ≡ without_mark (chars s.now) }
{
    match first(s) {
        Some(('\u{feff}', tail)) => tail,
        _ => s,
    }
}

/// The text with one LF for each CR LF.
fn folded(alloc: Global, s: &str) -> Result<Vec<u8>, NoMemory>
    ensures { IfOk result (λ text. (text.items ≡ encode_utf8_all (folded (chars s.now)))
        × (chars text.items ≡ folded (chars s.now)) × IsUtf8 text.items) }
{
    let mut text = Vec::with_capacity(alloc, s.len())?;
    let mut rest = s.as_bytes();
    if !has_return(rest) {
        text.extend_from_slice(rest)?;
        return Ok(text);
    }
    while let Some((byte, tail)) = rest.split_first() {
        if !(*byte == b'\r' && begins_line_feed(tail)) {
            text.push(*byte)?;
        }
        rest = tail;
    }
    Ok(text)
}

/// Whether the bytes hold a CR.
fn has_return(bytes: &[u8]) -> bool
    ensures { result ≡ list_any (λ b. b == 13) bytes.now }
{
    bytes.contains(&b'\r')
}

/// Whether the bytes begin with an LF.
fn begins_line_feed(bytes: &[u8]) -> bool
    ensures { result ≡ begins (λ c. c == 10) bytes.now }
{
    match bytes.first() {
        Some(byte) => *byte == b'\n',
        None => false,
    }
}

/// The shebang line of a text, if it has one, and the byte offset where lexing begins.
fn shebang(alloc: Global, text: &str) -> Result<(Option<Text>, usize), NoMemory>
    ensures { IfOk result (λ given. (given.0 ≡ (source_of (chars text.now)).shebang)
        × (given.1 ≡ (source_of (chars text.now)).start)) }
{
    if !begins_shebang(text) {
        return Ok((None, 0));
    }
    let line = first_line(text);
    if !is_shebang(line) {
        return Ok((None, 0));
    }
    let shebang = Text::from_bytes(alloc, without_end(b'\r', line))?;
    let start = if line.len() < text.len() {
        line.len() + 1
    } else {
        line.len()
    };
    Ok((Some(shebang), start))
}

/// Whether the text begins with `#!`. If it doesn't, no line end is searched, which might be far
/// away.
fn begins_shebang(text: &str) -> bool
    ensures { result ≡ behind false (codes "#!") (λ _. true) (chars text.now) }
{
    match first(text) {
        Some(('#', tail)) => match first(tail) {
            Some(('!', _)) => true,
            _ => false,
        },
        _ => false,
    }
}

/// The first line, without the LF that ends it.
fn first_line(s: &str) -> &str
    ensures { chars result.now ≡ front is_in_line (chars s.now) }
{
    &s[..s.len() - after_line(s).len()]
}

/// The text after the first line, with the LF that ends the line.
fn after_line(s: &str) -> &str
    ensures { chars result.now ≡ after is_in_line (chars s.now) }
{
    let mut rest = s;
    while let Some((c, tail)) = first(rest) {
        if c == '\n' {
            break;
        }
        rest = tail;
    }
    rest
}

/// Whether the first line is a shebang line.
fn is_shebang(line: &str) -> bool
    ensures { result ≡ is_shebang (chars line.now) }
{
    match first(line) {
        Some(('#', tail)) => match first(tail) {
            Some(('!', rest)) => !is_no_command(after_white(rest)),
            _ => false,
        },
        _ => false,
    }
}

/// Whether the text is empty, or begins an attribute or a comment.
fn is_no_command(s: &str) -> bool
    ensures { result ≡ is_no_command (chars s.now) }
{
    match first(s) {
        Some(('[', _)) | None => true,
        Some(('/', tail)) => match first(tail) {
            Some(('/', _)) | Some(('*', _)) => true,
            _ => false,
        },
        _ => false,
    }
}

/// The text after the leading white space.
fn after_white(s: &str) -> &str
    ensures { chars result.now ≡ after is_white (chars s.now) }
{
    let mut rest = s;
    while let Some((c, tail)) = first(rest) {
        if !is_white(c) {
            break;
        }
        rest = tail;
    }
    rest
}
