//! The piece (lexeme) at the beginning of a text.
ghost use Rattle.std.specs.Prelude.{◌≡◌, ◌≢◌, ℕ, Bool, List, [], ◌∷◌, ◌++◌, length, IsTrue, IfSome, IsSomeAnd, encode_utf8_all};
ghost use Rattle.std.specs.Str.{chars};
ghost use Rattle.lay_piece.specs.Forms.{Had, had, is_punct_char};
ghost use Rattle.lay_piece.specs.Found.{Finds, front_of, other, single};
ghost use Rattle.lay_piece.specs.Gap.{is_gap};
ghost use Rattle.lay_piece.specs.Begins.{BeginsNoGap, BeginsNoPiece};
ghost use Rattle.lay_piece.specs.declared.kind.Kind.{Kind};

pub mod chars;
mod comments;
mod numbers;
mod quoted;
mod words;

use crate::kind::{Delim, Kind};
use chars::{CharSet, first};

/// A piece: its kind and its length in bytes.
#[derive(Clone, Copy, Debug, PartialEq, Eq)]
pub struct Piece {
    pub kind: Kind,
    pub len: usize,
}

/// The piece at the beginning of a text, or `None` if there is none (Rust Reference, "Tokens").
///
/// `index` says that the text follows the `.` of a field access, where digits may be the index of a
/// tuple field.
#[inline(always)]
pub fn piece_at(rest: &str, index: bool) -> Option<Piece>
    ensures found { IfSome result (λ p. (piece more : List ℕ) × (chars rest.now ≡ piece ++ more)
        × Had p.kind piece more index × (p.len ≡ length (encode_utf8_all piece))) }
    ensures only { (kind : Kind) (piece more : List ℕ)
        → chars rest.now ≡ piece ++ more → Had kind piece more index
        → IsSomeAnd result (λ p. (p.kind ≡ kind) × (p.len ≡ length (encode_utf8_all piece))) }
{
    let (kind, tail) = front(index, rest)?;
    Some(Piece {
        kind,
        len: rest.len() - tail.len(),
    })
}

/// The laws of pieces and gaps, for every text. (No code runs.)
///
/// No gap begins with a piece, and no piece with a gap. Whether a piece ends there depends on at
/// most two characters after it. At most one kind and one length fit at a place.
pub fn piece_law()
    ensures no_gap { (kind : Kind) (piece rest : List ℕ) (index : Bool)
        → Had kind piece rest index → BeginsNoGap (piece ++ rest) }
    ensures no_piece { (gap rest : List ℕ) (index : Bool)
        → IsTrue (is_gap gap) → gap ≢ [] → BeginsNoPiece (gap ++ rest) index }
    ensures two_characters { (kind : Kind) (piece rest more : List ℕ) (c d : ℕ) (index : Bool)
        → had kind piece (c ∷ d ∷ rest) index ≡ had kind piece (c ∷ d ∷ more) index }
    ensures one_piece { (kind other : Kind) (piece longer rest more : List ℕ) (index : Bool)
        → piece ++ rest ≡ longer ++ more → Had kind piece rest index → Had other longer more index
        → (kind ≡ other) × (piece ≡ longer) }
{}

/// The kind of the piece at the beginning, and the text after it.
#[inline(always)]
#[tactic(auto, unfolding(crate::specs::Found::front_of))]
fn front(index: bool, s: &str) -> Option<(Kind, &str)>
    ensures { Finds (front_of index (chars s.now)) result }
{
    let (c, tail) = first(s)?;
    if CharSet::WordStart.contains(c) {
        words::word(c, tail)
    } else if c.is_ascii_digit() {
        numbers::number(index, s)
    } else {
        other(c, tail)
    }
}

#[inline(always)]
fn other(c: char, tail: &str) -> Option<(Kind, &str)>
    ensures { Finds (other c (chars tail.now)) result }
{
    match c {
        '"' => {
            let rest = quoted::after_string(quoted::Contents::Chars, tail)?;
            Some(quoted::literal(Kind::Str, rest))
        }
        '\'' => words::quote(tail),
        '/' => comments::slash(tail),
        _ => single(c, tail),
    }
}

#[inline(always)]
fn single(c: char, tail: &str) -> Option<(Kind, &str)>
    ensures { Finds (single c (chars tail.now)) result }
{
    match c {
        '(' => Some((Kind::Opener(Delim::Paren), tail)),
        ')' => Some((Kind::Closer(Delim::Paren), tail)),
        '[' => Some((Kind::Opener(Delim::Bracket), tail)),
        ']' => Some((Kind::Closer(Delim::Bracket), tail)),
        '{' => Some((Kind::Opener(Delim::Brace), tail)),
        '}' => Some((Kind::Closer(Delim::Brace), tail)),
        _ => if is_punct(c) {
            Some((Kind::Punct, tail))
        } else {
            None
        },
    }
}

fn is_punct(c: char) -> bool
    ensures { result ≡ is_punct_char c }
{
    match c {
        '=' => true,
        '<' => true,
        '>' => true,
        '!' => true,
        '~' => true,
        '+' => true,
        '-' => true,
        '*' => true,
        '/' => true,
        '%' => true,
        '^' => true,
        '&' => true,
        '@' => true,
        '.' => true,
        ',' => true,
        ';' => true,
        ':' => true,
        '#' => true,
        '$' => true,
        '?' => true,
        '|' => true,
        _ => false,
    }
}
