//! The counts of a text that grows.
ghost use Rattle.std.specs.Prelude.{◌≡◌, ◌+◌, ◌^◌, ◌<◌, ◌≤◌, ◌↔◌, ◌++◌, ◌∷◌, ℕ, List, [], length, IsTrue};

/// The counts of a text, and how long its last line is so far.
#[derive(Debug, Drop)]
pub(crate) struct Tally {
    pub bytes: u64,
    pub lines: u64,
    pub longest: u64,
    pub last: u64,
    // No count is above that of the bytes.
    ghost lines_within: { lines ≤ bytes },
    ghost longest_within: { longest ≤ bytes },
    ghost last_within: { last ≤ bytes },
}

impl Tally {
    ghost use Rattle.lay_sample.specs.counting.Tallies.{IsTallyOf};

    /// The counts of the empty text.
    pub(crate) fn new() -> Tally
        ensures { IsTallyOf result [] }
    {
        Tally {
            bytes: 0,
            lines: 0,
            longest: 0,
            last: 0,
        }
    }

    /// Whether this many more bytes can be counted.
    pub(crate) fn has_room(&self, bytes: usize) -> bool
        ensures { IsTrue result ↔ (self.now.bytes + bytes < 2 ^ 64) }
    {
        bytes as u64 <= u64::MAX - self.bytes
    }

    /// Counts a piece that follows the text.
    pub(crate) fn add(&mut self, piece: &[u8])
        requires { self.old.bytes + length piece.now < 2 ^ 64 }
        ensures { (text : List ℕ) → IsTallyOf self.old text
            → IsTallyOf self.new (text ++ piece.now) }
    {
        for byte in piece {
            self.push(*byte);
        }
    }

    /// Counts a byte that follows the text.
    fn push(&mut self, byte: u8)
        requires { self.old.bytes + 1 < 2 ^ 64 }
        ensures one { self.new.bytes ≡ self.old.bytes + 1 }
        ensures counted { (text : List ℕ) → IsTallyOf self.old text
            → IsTallyOf self.new (text ++ byte ∷ []) }
    {
        self.bytes += 1;
        if byte == b'\n' {
            self.lines += 1;
            self.last = 0;
        } else {
            self.last += 1;
            self.longest = self.longest.max(self.last);
        }
    }
}
