//! The error types: why reading or formatting failed.
use std::alloc::{AllocError, AllocFailed};
use thiserror::Error;

/// Memory could not be allocated. It says nothing about the input.
#[derive(Clone, Copy, Debug, PartialEq, Eq)]
pub struct NoMemory;

impl From<AllocError> for NoMemory {
    fn from(_: AllocError) -> NoMemory {
        NoMemory
    }
}

impl<T: Drop> From<AllocFailed<T>> for NoMemory {
    fn from(_: AllocFailed<T>) -> NoMemory {
        NoMemory
    }
}

/// A syntax error: why an input is refused, and at which byte.
///
/// `at` is a byte offset from 0. For `NotUtf8` it counts in the input; for all others in the text
/// that is lexed, which has no byte order mark and one LF for each CR LF.
#[derive(Clone, Copy, Debug, Drop, PartialEq, Eq, Error)]
pub enum Refusal {
    /// The input is not UTF-8; `at` is the length of its longest valid prefix.
    #[error("not UTF-8")]
    NotUtf8 { at: usize },
    /// No token begins at this place.
    #[error("no token")]
    NoToken { at: usize },
    /// The delimiter here has no partner.
    #[error("unbalanced delimiter")]
    Unbalanced { at: usize },
    /// The longest run of inner attributes and then items ends before the token here.
    #[error("no item")]
    NoItem { at: usize },
}

/// Why a call that formats failed.
#[derive(Clone, Copy, Debug, Drop, PartialEq, Eq, Error)]
pub enum FormatError {
    /// The input has a syntax error.
    #[error(transparent)]
    Refused(Refusal),
    /// Memory could not be allocated.
    #[error("no memory")]
    NoMemory,
}
