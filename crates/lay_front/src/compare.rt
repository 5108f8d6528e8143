//! Comparison of the text of a file with bytes.
ghost use Rattle.std.specs.Prelude.{◌≡◌, ◌≢◌, ◌<◌, ◌≤◌, ◌↔◌, [], length, take, slice_get, slice_index, IfOk, IsTrue, Some};
ghost use Rattle.std.specs.Option.{ForSome, ForNone};
ghost use Rattle.lay_code.specs.Out.{out as text_of_file};

use lay_code::File;
use lay_files::write_file;
use lay_io::{Failed, Sink};
use lay_printer::PrintError;
use lay_token::{List, NoMemory};
use std::alloc::Global;

/// Whether the text of a file is these bytes. The text isn't kept: it is compared as it is made,
/// and only made up to the first byte that differs.
pub fn is_text(alloc: Global, file: &File, bytes: List<u8>) -> Result<bool, NoMemory>
    ensures { IfOk result (λ same. IsTrue same ↔ (bytes ≡ text_of_file file.now)) }
{
    let mut comparer = Comparer::new(bytes);
    match write_file(alloc, file, &mut comparer) {
        Ok(()) => Ok(comparer.has_met_all()),
        Err(PrintError::WriteFailed) => Ok(false),
        Err(PrintError::NoMemory) => Err(NoMemory),
    }
}

/// A sink that compares what is written with the expected bytes, and keeps nothing of it but the
/// first byte that is wrong. That write fails, and so does each later one.
#[derive(Drop)]
struct Comparer {
    expected: List<u8>,
    /// How many of the expected bytes were written.
    met: usize,
    /// The first wrong byte, which was written after those.
    wrong: Option<u8>,
    faults: u64,
    ghost within: { met ≤ length expected },
    // The wrong byte isn't the one that was expected there.
    ghost differs: { ForSome wrong (λ byte. slice_get expected met ≢ Some byte) },
    // A fault was counted only where a byte was wrong.
    ghost counted: { ForNone wrong (faults ≡ 0) },
}

impl Comparer {
    ghost use Rattle.lay_front.specs.Comparing.{expected_by, written_to};

    /// A comparer to which nothing was written. It doesn't allocate.
    fn new(expected: List<u8>) -> Comparer
        ensures expected { expected_by result ≡ expected }
        ensures nothing { written_to result ≡ [] }
        ensures faults { result.faults ≡ 0 }
    {
        Comparer {
            expected,
            met: 0,
            wrong: None,
            faults: 0,
        }
    }

    /// Whether exactly the expected bytes were written.
    fn has_met_all(&self) -> bool
        ensures { IsTrue result ↔ (written_to self.now ≡ expected_by self.now) }
    {
        match self.wrong {
            None => self.met == self.expected.as_slice().len(),
            Some(_) => false,
        }
    }
}

impl Sink for Comparer {
    ghost use Rattle.std.specs.Prelude.{◌++◌, length, Some};
    ghost use Rattle.lay_front.specs.Comparing.{expected_by, written_to};

    // The expected bytes stand before those that were written, and their number stands in place of
    // a loan, which no write changes. So it is known which bytes were compared, whoever wrote them.
    ghost written = { λ comparer. Some (expected_by comparer ++ written_to comparer) };

    ghost faults = { λ comparer. comparer.faults };

    ghost loan = { λ comparer. length (expected_by comparer) };

    fn write(&mut self, piece: &[u8]) -> Result<(), Failed> {
        if self.wrong.is_some() {
            self.faults = self.faults.saturating_add(1);
            return Err(Failed);
        }
        let same = same_front(piece, &self.expected.as_slice()[self.met..]);
        if same == piece.len() {
            self.met += same;
            return Ok(());
        }
        self.met += same;
        self.wrong = Some(piece[same]);
        self.faults = self.faults.saturating_add(1);
        Err(Failed)
    }
}

/// The length of the common prefix of a piece and the expected bytes.
fn same_front(piece: &[u8], expected: &[u8]) -> usize
    ensures in_piece { result ≤ length piece.now }
    ensures in_expected { result ≤ length expected.now }
    ensures same { take result piece.now ≡ take result expected.now }
    ensures ends { result < length piece.now → result < length expected.now
        → slice_index expected.now result ≢ slice_index piece.now result }
{
    for number in 0..piece.len().min(expected.len()) {
        if piece[number] != expected[number] {
            return number;
        }
    }
    piece.len().min(expected.len())
}
