//! A text that only proofs see.
ghost use Rattle.std.specs.Prelude.{◌≡◌, ◌++◌, [], List, ℕ};
ghost use Rattle.std.specs.Borrow.{ftrue};
ghost use Rattle.std.specs.Coded.{coded_list, coded_ℕ};

use std::marker::Model;

/// The bytes that were written so far. They are ghost data: the struct has no bytes in memory.
#[derive(Drop)]
pub(crate) struct Seen {
    pub ghost text: { List ℕ },
}

impl Model for Seen {
    ghost also_owns = { λ _. ftrue };
}

impl Seen {
    /// No bytes.
    pub(crate) fn new() -> Seen
        ensures { result.text ≡ [] }
    {
        Seen {}
    }

    /// The bytes, and then this piece.
    pub(crate) fn and(&self, piece: &[u8]) -> Seen
        ensures { result.text ≡ self.now.text ++ piece.now }
    {
        Seen {}
    }
}
