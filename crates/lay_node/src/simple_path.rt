//! Simple paths.
use crate::token::Word;
use lay_token::List;

/// A path without generic arguments (Rust Reference, "Simple paths"), with at least one word.
#[derive(Debug, Drop)]
pub struct SimplePath {
    /// Whether it begins with `::`.
    pub global: bool,
    pub words: List<Word>,
}
