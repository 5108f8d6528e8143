//! The width of a line, and the width of a break that is no newline.
ghost use Rattle.std.specs.Prelude.{◌≡◌, ◌≤◌, length};
ghost use Rattle.lay_layout.specs.Document.{bytes_of_mark, width_of_break};

use crate::layout::{Break, Mark};

/// How many columns a line has.
pub const MARGIN: u64 = 89;

/// The least number of columns that a new line has for text, however far it is indented.
pub const LEAST_SPACE: u64 = 60;

/// The greatest number of pending blanks.
pub const GREATEST_BLANKS: u64 = 1_000_000;

/// The greatest width that a printer keeps: 2^62 columns. No line is that wide, so a comparison
/// with the space that is left gives the same answer for every greater width.
pub const GREATEST_WIDTH: u64 = 0x4000_0000_0000_0000;

/// The length of a mark, in bytes.
#[inline(always)]
pub(crate) fn mark_len(mark: Mark) -> u64
    ensures value { result ≡ length (bytes_of_mark mark) }
    ensures small { result ≤ 1 }
{
    match mark {
        Mark::Absent => 0,
        Mark::Comma | Mark::OpenBrace | Mark::CloseBrace => 1,
    }
}

/// The width of a break that is no newline, in columns: its blanks, and a column for each byte of
/// its mark.
#[inline(always)]
pub fn width_of(brk: Break) -> u64
    ensures value { result ≡ width_of_break brk }
    ensures small { result ≤ 65536 }
{
    brk.blank as u64 + mark_len(brk.instead)
}
