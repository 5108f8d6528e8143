//! Windows: consecutive tokens of a text.
use lay_token::{List, Token};

/// Why a window ends where it ends.
#[derive(Clone, Copy, Debug)]
pub enum Stop {
    /// The text ends.
    End,
    /// Between two items.
    More,
    /// After the opening brace of a module.
    Opened,
    /// After a closing brace whose opener isn't in the window.
    Closed,
}

/// Consecutive tokens of a text.
#[derive(Debug, Drop)]
pub struct Window {
    pub tokens: List<Token>,
    pub stop: Stop,
    /// The byte offset where the text goes on.
    pub end: usize,
}
