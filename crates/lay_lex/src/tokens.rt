//! From pieces to tokens: their texts, and which tokens are joint.
ghost use Rattle.std.specs.Prelude.{◌≡◌, ◌&&◌, ◌<◌, Bool, codes, cond, if◌then◌else◌, true, false, length, vec_len, vec_capacity, IfOk, OnOk, encode_utf8_all};
ghost use Rattle.std.specs.Str.{bytes_eq, chars};
ghost use Rattle.lay_token.specs.Lexes as lexes;
ghost use Rattle.lay_token.specs.Lexes.{doc_text, is_index_place, is_point, is_punct, is_separator, text_of_piece};
ghost use Rattle.lay_lex.specs.Added.{before, ends_in_mark, ends_joint, last_joint, token_of, within};

use crate::ends::{before_last, behind_first, has_line_feed, without_end};
use crate::window::{Stop, Window};
use lay_token::{Kind, List, NoMemory, Text, Token};
use std::alloc::Global;

/// What stands before a place, as far as it decides whether a number there may be a tuple index.
#[derive(Clone, Copy, Debug, PartialEq, Eq)]
pub enum Before {
    /// Anything but a point, or nothing.
    Other,
    /// A point.
    Point,
    /// A point that is joint with a point before it.
    Points,
}

impl Before {
    /// The state after punctuation; `point` says that it is a point, `touches` that no gap stands
    /// before it.
    pub fn behind(self, point: bool, touches: bool) -> Before
        ensures { before result ≡ cond point (cond
            (is_point (before self) && touches) lexes.Points lexes.Point) lexes.Other }
    {
        if !point {
            Before::Other
        } else if touches && self != Before::Other {
            Before::Points
        } else {
            Before::Point
        }
    }
}

/// Whether the bytes are a point.
pub fn is_point(bytes: &[u8]) -> bool
    ensures { result ≡ bytes_eq bytes.now (codes ".") }
{
    matches!(bytes, b".")
}

/// Whether the bytes are a comma or a semicolon.
fn is_separator(bytes: &[u8]) -> bool
    ensures { result ≡ is_separator bytes.now }
{
    matches!(bytes, b"," | b";")
}

/// The token of a piece. It is not joint.
fn token_of(alloc: Global, kind: Kind, piece: &str, at: usize) -> Result<Token, NoMemory>
    ensures { IfOk result (λ token. token ≡ token_of at kind (chars piece.now)) }
{
    let text = Text::from_bytes(alloc, text_of_piece(kind, piece))?;
    Ok(Token {
        kind,
        text,
        joint: false,
        at,
        len: piece.len(),
    })
}

/// The text of the token that a piece makes.
#[inline(always)]
pub fn text_of_piece(kind: Kind, piece: &str) -> &[u8]
    ensures { result.now ≡ encode_utf8_all (text_of_piece kind (chars piece.now)) }
{
    match kind {
        Kind::RawIdent => behind_first(behind_first(piece)).as_bytes(),
        Kind::Doc { block, .. } => doc_text(block, piece),
        _ => piece.as_bytes(),
    }
}

/// The text of documentation, without its marks.
fn doc_text(block: bool, piece: &str) -> &[u8]
    ensures { result.now ≡ encode_utf8_all (doc_text block (chars piece.now)) }
{
    let text = within(block, piece);
    if has_line_feed(text) {
        text.as_bytes()
    } else {
        without_end(b' ', text)
    }
}

/// What stands between the marks of documentation.
fn within(block: bool, piece: &str) -> &str
    ensures { chars result.now ≡ within block (chars piece.now) }
{
    let behind = behind_first(behind_first(behind_first(piece)));
    if block {
        before_last(before_last(behind))
    } else {
        behind
    }
}

/// Whether a token is joint with the next: both are punctuation, and no gap stands between them.
fn is_joint(mark: bool, next: bool, touches: bool) -> bool
    ensures { result ≡ (touches && next && mark) }
{
    touches && next && mark
}

/// Makes the last token joint, if `joint`.
fn join_last(tokens: &mut Vec<Token>, joint: bool)
    requires { joint ≡ true → 0 < length tokens.old.items }
    ensures items { tokens.new.items ≡ (if joint then last_joint tokens.old.items else tokens.old.items) }
    ensures len { vec_len tokens.new ≡ vec_len tokens.old }
    ensures capacity { vec_capacity tokens.new ≡ vec_capacity tokens.old }
{
    if joint {
        let last = tokens.len() - 1;
        tokens[last].joint = true;
    }
}

/// The tokens that were lexed so far. Whether the last of them is joint depends on the next.
#[derive(Drop)]
pub struct Tokens {
    read: Vec<Token>,
    before: Before,
    /// Whether the last token may be joint with the next.
    mark: bool,
    ghost last: { mark ≡ ends_in_mark read.items },
    // The last token isn't joint yet.
    ghost apart: { ends_joint read.items ≡ false },
}

impl Tokens {
    ghost use Rattle.lay_lex.specs.Tokens.{Adds, IsBegun, so_far};

    /// No tokens, at the beginning of a text, with memory for `room` of them.
    pub fn new(alloc: Global, room: usize) -> Result<Tokens, NoMemory>
        ensures { IfOk result IsBegun }
    {
        Ok(Tokens {
            read: Vec::with_capacity(alloc, room)?,
            before: Before::Other,
            mark: false,
        })
    }

    /// Whether a number after the tokens may be a tuple index.
    pub fn is_index_place(&self) -> bool
        ensures { result ≡ is_index_place (before self.now.before) }
    {
        self.before == Before::Point
    }

    /// Appends the token of a piece; `touches` says that no gap stands before it.
    pub fn add(
        &mut self,
        alloc: Global,
        kind: Kind,
        piece: &str,
        at: usize,
        touches: bool,
    ) -> Result<(), NoMemory>
        ensures { OnOk result (Adds touches (token_of at kind (chars piece.now)) self.old
            self.new) }
    {
        let token = token_of(alloc, kind, piece, at)?;
        match kind {
            Kind::Punct => self.push_punct(token, piece.as_bytes(), touches),
            _ => self.push(token),
        }
    }

    /// Appends a token that is no punctuation, and so is joint with nothing.
    fn push(&mut self, token: Token) -> Result<(), NoMemory>
        requires kind { is_punct token.kind ≡ false }
        requires apart { token.joint ≡ false }
        ensures { (touches : Bool) → OnOk result (Adds touches token self.old self.new) }
    {
        self.read.push(token)?;
        self.before = Before::Other;
        self.mark = false;
        Ok(())
    }

    /// Appends punctuation with this text. It is not joint yet.
    fn push_punct(&mut self, token: Token, text: &[u8], touches: bool) -> Result<(), NoMemory>
        requires kind { is_punct token.kind ≡ true }
        requires text { token.text ≡ text.now }
        requires apart { token.joint ≡ false }
        ensures { OnOk result (Adds touches token self.old self.new) }
    {
        let mark = !is_separator(text);
        let joint = is_joint(self.mark, mark, touches);
        let before = self.before.behind(is_point(text), touches);
        self.read.reserve(1)?;
        join_last(&mut self.read, joint);
        self.read.push_reserved(token);
        self.before = before;
        self.mark = mark;
        Ok(())
    }

    /// The tokens read so far.
    pub fn as_slice(&self) -> &[Token]
        ensures { result.now ≡ so_far self.now }
    {
        self.read.as_slice()
    }

    /// A window of all the tokens, which ends at the byte `end` for the reason `stop`.
    pub fn window(self, stop: Stop, end: usize) -> Window
        ensures { result ≡ record { tokens = so_far self; stop = stop; end = end } }
    {
        let Tokens {
            read,
            before: _,
            mark: _,
        } = self;
        Window {
            tokens: List::from_vec(read),
            stop,
            end,
        }
    }
}
