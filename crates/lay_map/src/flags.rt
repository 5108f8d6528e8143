//! A stack of flags.
ghost use Rattle.std.specs.Prelude.{◌≡◌, [], ◌∷◌, OnOk};
ghost use Rattle.lay_map.specs.spelling.Choice.{top, under};

use lay_text::NoMemory;
use std::alloc::Global;
use std::marker::Model;

/// A stack of flags. Contracts see it with the last one first.
#[derive(Drop)]
pub(crate) struct Flags {
    items: Vec<bool>,
}

impl Model for Flags {
    ghost use Rattle.std.specs.Prelude.{List, Bool, reverse};

    ghost Value = { List Bool };

    ghost view = { λ flags. reverse flags.items.items };
}

impl Flags {
    /// The empty stack. It doesn't allocate.
    pub(crate) fn new(alloc: Global) -> Flags
        ensures { result ≡ [] }
    {
        Flags {
            items: Vec::new(alloc),
        }
    }

    pub(crate) fn push(&mut self, flag: bool) -> Result<(), NoMemory>
        ensures { OnOk result (self.new ≡ flag ∷ self.old) }
    {
        match self.items.push(flag) {
            Ok(()) => Ok(()),
            Err(_) => Err(NoMemory),
        }
    }

    /// Pops the last flag, if there is one.
    pub(crate) fn pop(&mut self)
        ensures { self.new ≡ under self.old }
    {
        let _ = self.items.pop();
    }

    /// The last flag, or `false` if there is none.
    pub(crate) fn top(&self) -> bool
        ensures { result ≡ top self.now }
    {
        match self.items.last() {
            Some(flag) => *flag,
            None => false,
        }
    }
}
