//! Equality of use trees.
ghost use Rattle.std.specs.Prelude.{◌≡◌, ◌↔◌, IsTrue};

use crate::lists::Same;
use lay_node::{UseEnd, UseTree};

impl Same for UseTree {
    #[cycle(use_trees)]
    fn same(&self, other: &UseTree) -> bool {
        self.global == other.global && self.path.same(&other.path) && self.end.same(&other.end)
    }
}

impl Same for UseEnd {
    #[cycle(use_trees)]
    fn same(&self, other: &UseEnd) -> bool {
        match self {
            UseEnd::Word { word, rename } => match other {
                UseEnd::Word {
                    word: other_word,
                    rename: other_rename,
                } => word.same(other_word) && rename.same(other_rename),
                _ => false,
            },
            UseEnd::Glob => matches!(other, UseEnd::Glob),
            UseEnd::Group { trees } => match other {
                UseEnd::Group { trees: given } => same_trees(trees.as_slice(), given.as_slice()),
                _ => false,
            },
        }
    }
}

/// Whether two lists of use trees are equal.
#[cycle(use_trees)]
fn same_trees(trees: &[UseTree], others: &[UseTree]) -> bool
    ensures { IsTrue result ↔ trees.now ≡ others.now }
{
    if trees.len() != others.len() {
        return false;
    }
    for (tree, other) in trees.iter().zip(others) {
        if !tree.same(other) {
            return false;
        }
    }
    true
}
