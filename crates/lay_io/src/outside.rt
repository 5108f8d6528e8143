//! The traits of inputs and outputs.
ghost use Rattle.std.specs.Prelude.{◌≡◌, ◌≢◌, ℕ, List, Option, None, Some, IsSome, Result};
ghost use Rattle.std.specs.Io.{ReadsAtMost};
ghost use Rattle.lay_io.specs.Faults.{HasCause, SameLoan};
ghost use Rattle.lay_io.specs.Calls.{Writes, Takes, left_of};
ghost use Rattle.lay_io.specs.declared.outside.Failed.{Failed};
ghost use Rattle.lay_io.specs.declared.outside.Which.{Which};

use lay_text::Text;

/// Which input is read.
#[derive(Debug, Drop)]
pub enum Which {
    /// Standard input.
    Stdin,
    /// The file of this name.
    File(Text),
}

/// A read or a write failed.
#[derive(Clone, Copy, Debug, PartialEq, Eq)]
pub struct Failed;

/// Inputs, of which one is chosen and then read, piece by piece, to its end.
pub trait Inputs {
    /// The bytes of an input that are still to be read, if the object shows them.
    ghost left: { Self → Which → Option (List ℕ) };

    /// The input that is read. A new object has chosen none.
    ghost chosen: { Self → Option Which };

    /// How many reads have failed. The count has 64 bits and stays at its last value.
    ghost faults: { Self → ℕ };

    /// Chooses the input that is read from now on. It may be called once. It allocates nothing.
    fn choose(&mut self, which: Which)
        requires { chosen self.old ≡ None }
        ensures chosen { chosen self.new ≡ Some which }
        ensures left { (w : Which) → left self.new w ≡ left self.old w }
        ensures faults { faults self.new ≡ faults self.old };

    /// Moves the next bytes of the chosen input to the beginning of the buffer, and gives their
    /// number: 0 only at the end of the input, or if the buffer is empty. `Failed` moves no byte,
    /// and is counted.
    fn read(&mut self, buf: &mut [u8]) -> Result<usize, Failed>
        requires { IsSome (chosen self.old) }
        ensures bound { ReadsAtMost result buf.new }
        ensures chosen { chosen self.new ≡ chosen self.old }
        ensures others { (w : Which) → chosen self.old ≢ Some w
            → left self.new w ≡ left self.old w }
        ensures bytes { Takes (left_of (chosen self.old) (left self.old))
            (left_of (chosen self.old) (left self.new)) result buf.new }
        ensures cause { HasCause (faults self.old) (faults self.new) result };
}

/// An output: it takes bytes, piece by piece.
pub trait Sink {
    /// What was written, if the object shows it.
    ghost written: { Self → Option (List ℕ) };

    /// How many writes have failed. The count has 64 bits and stays at its last value.
    ghost faults: { Self → ℕ };

    /// Which loan the object holds, if it is lent: the name of the reference. A write doesn't
    /// change it, so the owner knows which sink comes back.
    ghost loan: { Self → ℕ } = { λ _. 0 };

    /// What an object promises of a write beside what all sinks promise: a relation of the object
    /// before, the piece, the result and the object after. By default it holds of every write.
    ghost wrote: { Self → List ℕ → Result (Unit {0}) Failed → Self → Type 0 } = { λ _ _ _ _. Unit {0} };

    /// Appends the piece. `Failed` appends a prefix of it, and is counted.
    fn write(&mut self, piece: &[u8]) -> Result<(), Failed>
        ensures bytes { Writes (written self.old) (written self.new) result piece.now }
        ensures cause { HasCause (faults self.old) (faults self.new) result }
        ensures loan { SameLoan (loan self.old) (loan self.new) }
        ensures one { wrote self.old piece.now result self.new };
}
