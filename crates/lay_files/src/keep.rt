//! A sink that keeps what is written.
ghost use Rattle.std.specs.Prelude.{◌≡◌, []};

use lay_io::{Failed, Sink};
use lay_token::List;
use std::alloc::Global;

/// A sink that keeps what is written. If memory is out, a write keeps nothing and fails.
#[derive(Drop)]
pub struct Keeper {
    bytes: Vec<u8>,
    faults: u64,
}

impl Keeper {
    ghost use Rattle.lay_files.specs.Keeping.{kept_by};

    /// An empty sink. It doesn't allocate.
    pub fn new(alloc: Global) -> Keeper
        ensures { kept_by result ≡ [] }
    {
        Keeper {
            bytes: Vec::new(alloc),
            faults: 0,
        }
    }

    /// Takes what was written.
    pub fn into_list(self) -> List<u8>
        ensures { result ≡ kept_by self }
    {
        List::from_vec(self.bytes)
    }
}

impl Sink for Keeper {
    ghost use Rattle.std.specs.Prelude.{Some};
    ghost use Rattle.lay_files.specs.Keeping.{kept_by};

    ghost written = { λ keeper. Some (kept_by keeper) };

    ghost faults = { λ keeper. keeper.faults };

    #[inline]
    fn write(&mut self, piece: &[u8]) -> Result<(), Failed> {
        if self.bytes.extend_from_slice(piece).is_err() {
            self.faults = self.faults.saturating_add(1);
            return Err(Failed);
        }
        Ok(())
    }
}
