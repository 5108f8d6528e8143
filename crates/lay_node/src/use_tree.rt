//! Use trees, the argument of `use`.
use crate::token::{GivenName, Word};
use lay_token::List;

/// A use tree (Rust Reference, "Use declarations"). A tree in a group counts one level of depth
/// more.
#[cycle(use_trees)]
#[derive(Debug, Drop)]
pub struct UseTree {
    /// Whether it begins with `::`.
    pub global: bool,
    /// The words before the end, each of which has a `::` after it.
    pub path: List<Word>,
    pub end: UseEnd,
}

/// The end of a use tree, after its path.
#[cycle(use_trees)]
#[derive(Debug, Drop)]
pub enum UseEnd {
    /// `a`, or `a as b`
    Word {
        word: Word,
        rename: Option<GivenName>,
    },
    /// `*`
    Glob,
    /// `{a, b}`
    Group {
        trees: List<UseTree>,
    },
}
