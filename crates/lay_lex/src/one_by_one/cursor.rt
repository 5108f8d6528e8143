//! A cursor that lexes as it moves.
ghost use Rattle.std.specs.Prelude.{◌≡◌, ◌≤◌, length};
ghost use Rattle.std.specs.Str.{chars};
ghost use Rattle.lay_piece.specs.Chars.{is_nil};
ghost use Rattle.lay_token.specs.Lexes.{Part, is_index_place, step};
ghost use Rattle.lay_lex.specs.Added.{before as seen};

use crate::{Before, after_gap, cut, is_point, text_of_piece};
use lay_token::{Kind, piece_at};

/// A token that borrows its text. It doesn't say whether it is joint with the next one.
#[derive(Clone, Copy, Debug)]
pub struct Lexeme<'a> {
    pub kind: Kind,
    /// The text of the token: a raw identifier without its `r#`, and documentation without its
    /// marks, of which a line has no blanks at its end either.
    pub text: &'a [u8],
    /// Where the piece begins: a byte offset in the text.
    pub at: usize,
    /// The length of the piece in bytes.
    pub len: usize,
}

/// A place in a text. What is ahead is lexed token by token.
#[derive(Clone, Copy, Debug)]
pub struct Cursor<'a> {
    ahead: &'a str,
    /// The length of the whole text in bytes.
    end: usize,
    before: Before,
    ghost within: { length ahead.now ≤ end },
}

impl<'a> Cursor<'a> {
    ghost use Rattle.std.specs.Prelude.{List};
    ghost use Rattle.std.specs.Str.{IsCharBoundary};
    ghost use Rattle.lay_token.specs.Lexes.{Lexes};
    ghost use Rattle.lay_token.specs.declared.token.Token.{Token as TokenValue};
    ghost use Rattle.lay_lex.specs.one_by_one.Ahead.{IsNext, tokens_ahead};

    /// A cursor at the byte `start` of the text.
    pub fn new(text: &'a str, start: usize) -> Cursor<'a>
        requires { IsCharBoundary text.now start }
        ensures { (tokens : List TokenValue) → Lexes text.now start tokens
            → tokens_ahead result ≡ tokens }
    {
        Cursor {
            ahead: &text[start..],
            end: text.len(),
            before: Before::Other,
        }
    }

    /// Gives the next token and moves past it; `None` at the end of the text, or if no token begins
    /// there.
    #[inline(always)]
    pub fn next(&mut self) -> Option<Lexeme<'a>>
        ensures { IsNext (tokens_ahead self.old) result (tokens_ahead self.new) }
    {
        let rest = after_gap(self.ahead)?;
        let found = piece_at(rest, is_index_place(self.before))?;
        let (piece, behind) = cut(rest, found.len);
        let touches = rest.len() == self.ahead.len();
        let lexeme = Lexeme {
            kind: found.kind,
            text: text_of_piece(found.kind, piece),
            at: self.end - rest.len(),
            len: found.len,
        };
        self.before = behind_piece(self.before, found.kind, piece, touches);
        self.ahead = behind;
        Some(lexeme)
    }
}

/// Whether a number here may be a tuple index.
#[inline]
fn is_index_place(before: Before) -> bool
    ensures { result ≡ is_index_place (seen before) }
{
    before == Before::Point
}

/// What precedes the place after this piece; `touches` says that no gap stands before the piece.
#[inline]
fn behind_piece(before: Before, kind: Kind, piece: &str, touches: bool) -> Before
    ensures { (part : Part) → part.kind ≡ kind → part.piece ≡ chars piece.now
        → touches ≡ is_nil part.gap → seen result ≡ step (seen before) part }
{
    match kind {
        Kind::Punct => before.behind(is_point(piece.as_bytes()), touches),
        _ => Before::Other,
    }
}
