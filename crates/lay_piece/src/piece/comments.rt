//! Documentation comments, and a slash by itself.
ghost use Rattle.std.specs.Prelude.{◌≡◌, ◌≤◌, length, IfSome};
ghost use Rattle.std.specs.Str.{chars};
ghost use Rattle.lay_piece.specs.Scan.{run};
ghost use Rattle.lay_piece.specs.Quoted.{Deep, doc_step};
ghost use Rattle.lay_piece.specs.Found.{Finds, Leaves, slash, line_comment, line_doc, block_comment, block_doc};

use crate::kind::Kind;
use crate::piece::chars::{CharSet, behind, first};

/// The token that a `/` begins: documentation, or the operator; `None` if it begins a plain
/// comment. `tail` is the text after the slash.
pub fn slash(tail: &str) -> Option<(Kind, &str)>
    ensures { Finds (slash (chars tail.now)) result }
{
    match first(tail) {
        Some(('/', rest)) => line_comment(rest),
        Some(('*', rest)) => block_comment(rest),
        _ => Some((Kind::Punct, tail)),
    }
}

/// A line of documentation; `s` is the text after `//`.
fn line_comment(s: &str) -> Option<(Kind, &str)>
    ensures { Finds (line_comment (chars s.now)) result }
{
    let (c, tail) = first(s)?;
    match c {
        '!' => line_doc(true, tail),
        '/' => if CharSet::Only('/').begins(tail) {
            None
        } else {
            line_doc(false, tail)
        },
        _ => None,
    }
}

fn line_doc(inner: bool, s: &str) -> Option<(Kind, &str)>
    ensures { Finds (line_doc inner (chars s.now)) result }
{
    let rest = CharSet::DocLine.after(s);
    if CharSet::Only('\r').begins(rest) {
        None
    } else {
        Some((
            Kind::Doc {
                inner,
                block: false,
            },
            rest,
        ))
    }
}

/// A block of documentation; `s` is the text after `/*`.
fn block_comment(s: &str) -> Option<(Kind, &str)>
    ensures { Finds (block_comment (chars s.now)) result }
{
    let (c, tail) = first(s)?;
    match c {
        '!' => block_doc(true, tail),
        '*' => if CharSet::StarOrSlash.begins(tail) {
            None
        } else {
            block_doc(false, tail)
        },
        _ => None,
    }
}

fn block_doc(inner: bool, s: &str) -> Option<(Kind, &str)>
    ensures { Finds (block_doc inner (chars s.now)) result }
{
    let rest = after_doc(s)?;
    Some((Kind::Doc { inner, block: true }, rest))
}

/// The text after the end of a block comment, in which blocks nest; `None` if it is never closed or
/// holds a CR.
fn after_doc(s: &str) -> Option<&str>
    ensures { Leaves (run doc_step (Deep 0) (chars s.now)) result }
{
    let mut inner = 0usize;
    let mut rest = s;
    while let Some((c, tail)) = first(rest) {
        rest = tail;
        if c == '\r' {
            return None;
        }
        if c == '*' {
            if let Some(closed) = behind('/', tail) {
                rest = closed;
                if inner == 0 {
                    return Some(rest);
                }
                inner -= 1;
            }
        } else if c == '/' {
            if let Some(opened) = behind('*', tail) {
                rest = opened;
                inner += 1;
            }
        }
    }
    None
}
