//! A sink that counts.
ghost use Rattle.std.specs.Prelude.{◌≡◌, ◌+◌, ◌^◌, ◌<◌, [], length};
ghost use Rattle.lay_sample.specs.counting.Counting.{lines_of, longest_line};

use crate::counting::seen::Seen;
use crate::counting::tally::Tally;
use lay_io::{Failed, Sink};
use std::marker::Model;

/// The counts of a text. A line ends at an LF, which doesn't belong to it. After the last LF there
/// is one more line, which is empty if the text ends there.
#[derive(Clone, Copy, Debug, PartialEq, Eq)]
pub struct Counts {
    /// How many bytes there are.
    pub bytes: u64,
    /// How many of the bytes are LFs.
    pub lines: u64,
    /// The length of the longest line in bytes.
    pub longest: u64,
}

/// A sink that counts what is written and keeps nothing of it. It allocates nothing. If the count
/// of bytes would reach 2^64, a write fails; then it counts nothing, and the fault is counted.
#[derive(Drop)]
pub struct Counter {
    tally: Tally,
    faults: u64,
    seen: Seen,
}

impl Model for Counter {
    ghost use Rattle.lay_sample.specs.counting.Counted.{Counted};
    ghost use Rattle.lay_sample.specs.counting.Tallies.{IsTallyOf};

    ghost Value = { Counted };

    ghost view = { λ counter. record { text = counter.seen.text; faults = counter.faults } };

    ghost invariant = { λ counter. IsTallyOf counter.tally counter.seen.text };
}

impl Counter {
    /// A counter to which nothing was written.
    pub fn new() -> Counter
        ensures { result ≡ record { text = []; faults = 0 } }
    {
        Counter {
            tally: Tally::new(),
            faults: 0,
            seen: Seen::new(),
        }
    }

    /// The counts of what was written.
    pub fn counts(&self) -> Counts
        ensures bytes { result.bytes ≡ length self.now.text }
        ensures lines { result.lines ≡ lines_of self.now.text }
        ensures longest { result.longest ≡ longest_line self.now.text }
    {
        Counts {
            bytes: self.tally.bytes,
            lines: self.tally.lines,
            longest: self.tally.longest,
        }
    }
}

impl Sink for Counter {
    ghost use Rattle.std.specs.Prelude.{Some};
    ghost use Rattle.lay_sample.specs.counting.Counted.{CountedWrite};

    ghost written = { λ counter. Some counter.text };

    ghost faults = { λ counter. counter.faults };

    ghost wrote = { CountedWrite };

    fn write(&mut self, piece: &[u8]) -> Result<(), Failed> {
        if !self.tally.has_room(piece.len()) {
            self.faults = self.faults.saturating_add(1);
            return Err(Failed);
        }
        self.tally.add(piece);
        self.seen = self.seen.and(piece);
        Ok(())
    }
}
