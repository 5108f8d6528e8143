//! The formatter for C: one function over byte buffers, which neither takes nor gives allocated
//! memory.
//!
//! [`lay_format_slices`] formats the input and writes to the buffer as much of the text as fits. It
//! gives the length of the whole text, so a caller whose buffer was too small calls again with a
//! larger one. The header is c/lay.h; its `lay_format` is this function, and its pointers to no
//! bytes may be null.
#![tactic(auto)]

ghost use Rattle.std.specs.Prelude.{◌≡◌, length};
ghost use Rattle.lay_c.specs.Answers.{AnswersAs, done_answer, filled, refused_answer, wanting_answer};

use lay_files::{FileError, format_bytes};
use lay_token::{Place2, Refusal};
use std::alloc::Global;

/// The input was formatted, and as much of the text as fits is in the buffer.
pub const DONE: u32 = 0;
/// The input is not UTF-8.
pub const NOT_UTF8: u32 = 1;
/// At a place in the input no token begins.
pub const NO_TOKEN: u32 = 2;
/// A delimiter has no partner.
pub const UNBALANCED: u32 = 3;
/// The tokens spell no file.
pub const NO_ITEM: u32 = 4;
/// Memory could not be allocated.
pub const NO_MEMORY: u32 = 5;

/// The result of a call. For a syntax error `at` is the byte offset from 0, and `line` and `column`
/// count from 1; otherwise the three are 0. `length` is the length of the whole text, and 0 if
/// there is none.
#[repr(C)]
#[derive(Clone, Copy, Debug, PartialEq, Eq)]
pub struct LayAnswer {
    pub length: usize,
    pub at: usize,
    pub line: usize,
    pub column: usize,
    pub status: u32,
}

/// Formats the input, a file of any length, and writes to the buffer as much of the text as fits.
/// On an error the buffer is unchanged.
#[unsafe(no_mangle)]
pub extern "C" fn lay_format_slices(alloc: Global, input: &[u8], buffer: &mut [u8]) -> LayAnswer
    ensures { AnswersAs input.now result buffer.old buffer.new }
{
    match format_bytes(alloc, input) {
        Ok(text) => done(text.as_slice(), buffer),
        Err(FileError::Refused { refusal, place }) => refused(refusal, place),
        Err(FileError::NoMemory) => wanting(),
    }
}

/// The result for this text, of which as much as fits is copied to the buffer.
fn done(text: &[u8], buffer: &mut [u8]) -> LayAnswer
    ensures answer { result ≡ done_answer (length text.now) }
    ensures bytes { buffer.new ≡ filled text.now buffer.old }
{
    fill(buffer, text);
    LayAnswer {
        length: text.len(),
        at: 0,
        line: 0,
        column: 0,
        status: DONE,
    }
}

/// Copies bytes to the beginning of the buffer, as many as fit.
fn fill(buffer: &mut [u8], bytes: &[u8])
    ensures { buffer.new ≡ filled bytes.now buffer.old }
{
    let count = buffer.len().min(bytes.len());
    buffer[..count].copy_from_slice(&bytes[..count]);
}

/// The result for a syntax error.
fn refused(refusal: Refusal, place: Place2) -> LayAnswer
    ensures { result ≡ refused_answer refusal place }
{
    let (status, at) = match refusal {
        Refusal::NotUtf8 { at } => (NOT_UTF8, at),
        Refusal::NoToken { at } => (NO_TOKEN, at),
        Refusal::Unbalanced { at } => (UNBALANCED, at),
        Refusal::NoItem { at } => (NO_ITEM, at),
    };
    LayAnswer {
        length: 0,
        at,
        line: place.line,
        column: place.column,
        status,
    }
}

/// Memory could not be allocated.
fn wanting() -> LayAnswer
    ensures { result ≡ wanting_answer }
{
    LayAnswer {
        length: 0,
        at: 0,
        line: 0,
        column: 0,
        status: NO_MEMORY,
    }
}
