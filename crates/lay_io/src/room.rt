//! A byte buffer of fixed capacity.
ghost use Rattle.std.specs.Prelude.{◌≡◌, ◌+◌, ◌<◌, ◌≤◌, ◌++◌, length, take, IfOk, IfSome};
ghost use Rattle.std.specs.Box.{boxed_slice_len};

use lay_text::NoMemory;
use std::alloc::Global;
use std::boxed::BoxedSlice;

/// A buffer of fixed capacity, how much of it is used, and whether every piece has fitted so far.
#[derive(Debug, Drop)]
pub struct Room {
    pub bytes: BoxedSlice<u8>,
    pub used: usize,
    pub fits: bool,
    ghost within: { used ≤ boxed_slice_len bytes },
}

impl Room {
    ghost use Rattle.lay_io.specs.Told.{GrewBy};
    ghost use Rattle.lay_io.specs.Kept.{empty, kept_behind, kept_in, untold};

    /// A buffer with no capacity.
    pub fn new(alloc: Global) -> Room
        ensures { kept_in result ≡ empty 0 }
    {
        Room {
            bytes: Vec::new(alloc).into_boxed_slice(),
            used: 0,
            fits: true,
        }
    }

    /// A buffer with a capacity of `n` bytes.
    pub fn with_room(alloc: Global, n: usize) -> Result<Room, NoMemory>
        ensures { IfOk result (λ room. kept_in room ≡ empty n) }
    {
        match vec![in alloc; 0u8; n] {
            Ok(bytes) => Ok(Room {
                bytes: bytes.into_boxed_slice(),
                used: 0,
                fits: true,
            }),
            Err(_) => Err(NoMemory),
        }
    }

    /// How many more bytes fit.
    pub fn left(&self) -> usize
        ensures { result ≡ (kept_in self.now).spare }
    {
        self.bytes.len() - self.used
    }

    /// The bytes in the buffer: all that was put, if every piece has fitted.
    pub fn kept(&self) -> &[u8]
        ensures { IfSome (kept_in self.now).bytes (λ bytes. result.now ≡ bytes) }
    {
        &self.bytes.as_slice()[..self.used]
    }

    /// Empties the buffer, and keeps its capacity.
    pub fn clear(&mut self)
        ensures { kept_in self.new ≡ empty (boxed_slice_len self.old.bytes) }
    {
        self.used = 0;
        self.fits = true;
    }

    /// Appends the piece, if it fits. If it doesn't, contracts say nothing of the content any more.
    /// It allocates nothing.
    pub fn put(&mut self, piece: &[u8])
        ensures fits { length piece.now ≤ (kept_in self.old).spare
            → kept_in self.new ≡ kept_behind (kept_in self.old) piece.now }
        ensures too_much { (kept_in self.old).spare < length piece.now
            → kept_in self.new ≡ untold (kept_in self.old) }
        ensures grew { GrewBy (kept_in self.old).bytes (kept_in self.new).bytes piece.now }
    {
        if piece.len() > self.left() {
            self.fits = false;
            return;
        }
        put_at(self.bytes.as_mut_slice(), self.used, piece);
        self.used += piece.len();
    }
}

/// Copies a piece into the buffer after the bytes that are used.
fn put_at(bytes: &mut [u8], used: usize, piece: &[u8])
    requires { used + length piece.now ≤ length bytes.old }
    ensures { take (used + length piece.now) bytes.new ≡ take used bytes.old ++ piece.now }
{
    bytes[used..used + piece.len()].copy_from_slice(piece);
}
