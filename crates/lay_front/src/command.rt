//! The command: its runs, and the status of each.
ghost use Rattle.std.specs.Prelude.{◌≡◌, ◌≢◌, ◌<◌, ◌≤◌, ◌⊎◌, ℕ, List as Items, length, None, Some, Err};
ghost use Rattle.lay_io.specs.Faults.{Rose, SameLoan};
ghost use Rattle.lay_io.specs.Told.{GrewBy, IsEnd};
ghost use Rattle.lay_io.specs.declared.outside.Which.{Which};
ghost use Rattle.lay_args.specs.Line.{line_of};
ghost use Rattle.lay_args.specs.declared.lines.Line.TheVariants as line;
ghost use Rattle.lay_text.specs.declared.refusal.Refusal.{Refusal};
ghost use Rattle.lay_code.specs.Out.{out as text_of_file};
ghost use Rattle.lay_code.specs.Reading.{IsRefused, Reads};
ghost use Rattle.lay_front.specs.Inputs.{InputAs, IsPlaced, TookFrom, given_to, input_of};
ghost use Rattle.lay_front.specs.Messages.{Says};
ghost use Rattle.lay_front.specs.Outcome.{CheckRun, FormatRun, LineRun, MapRun, SampleRun};
ghost use Rattle.lay_front.specs.Stops.{status_of};
ghost use Rattle.lay_front.specs.Summary.{summary};
ghost use Rattle.lay_map_lines.specs.Maps.{IsMap};
ghost use Rattle.lay_sample.specs.Sample.{sample_text};
ghost use Rattle.lay_code.specs.declared.file.File.{File};

use crate::compare::is_text;
use crate::messages::tell;
use crate::samples::sum_up_sample;
use crate::stop::Stop;
use lay_args::{Line, line};
use lay_code::File;
use lay_files::{FileError, read_bytes, write_file};
use lay_io::{Inputs, ReadError, Sink, Which, read_all};
use lay_map_lines::write_map;
use lay_printer::PrintError;
use lay_token::{List, NoMemory, Refusal, Text};
use std::alloc::Global;
use std::mem::forget;

/// How a run of the command ended.
#[derive(Clone, Copy, Debug, PartialEq, Eq)]
pub enum Status {
    /// The text was written completely; or the input was checked and is formatted; or its map was
    /// written completely; or the sample was summed up.
    Done,
    /// The input was checked and isn't formatted. Nothing was written.
    Differs,
    /// The words are no command line. Nothing was read.
    Usage,
    /// A read failed. Nothing was written.
    ReadFailed,
    /// The input has a syntax error. Nothing was written.
    Refused(Refusal),
    /// A write failed. A prefix of the output was written.
    WriteFailed,
    /// The input holds more than 16 MiB. Nothing was written.
    TooLong,
    /// Memory could not be allocated. A prefix of the output was written.
    NoMemory,
}

/// The greatest input of the command, in bytes.
pub const LIMIT: usize = 16_777_216;

/// Runs the command with its words, without the program's name: `[FILE]` writes the formatted text
/// of an input to `out`, `--check [FILE]` checks whether the input is formatted, `--map [FILE]`
/// writes where the parts of the input are in its formatted text, and `--sample SEED --items N`
/// makes a sample, formats it, and writes one line that sums it up. For every other outcome one
/// line is written to `err`.
///
/// The program has to end after the run: the tree of an input isn't dropped, and its memory isn't
/// freed.
pub fn run<I: Inputs, K: Sink, E: Sink>(
    alloc: Global,
    words: &[Text],
    inputs: &mut I,
    out: &mut K,
    err: &mut E,
) -> Status
    requires { I.chosen inputs.old ≡ None }

    // If the words are no command line, nothing was read and nothing written.
    ensures usage { result ≡ Status.Usage → line_of words.now ≡ line.Usage }
    ensures complete_usage { line_of words.now ≡ line.Usage → (result ≡ Status.Usage) ⊎ (result ≡ Status.NoMemory) }
    ensures untouched { line_of words.now ≡ line.Usage → (inputs.new ≡ inputs.old) × (out.new ≡ out.old) }

    // The input that the command line names is chosen, and none if it names none, unless memory was
    // out while parsing the words.
    ensures chosen { (I.chosen inputs.new ≡ input_of (line_of words.now))
        ⊎ ((result ≡ Status.NoMemory) × (inputs.new ≡ inputs.old)) }

    // Of the chosen input what is left is a suffix of what was left; of each other input it is
    // unchanged.
    ensures others { (which : Which) → input_of (line_of words.now) ≢ Some which
        → I.left inputs.new which ≡ I.left inputs.old which }
    ensures rest { (which : Which) → input_of (line_of words.now) ≡ Some which
        → IsEnd (I.left inputs.old which) (I.left inputs.new which) }

    // No count of faults falls, and each sink that comes back holds the loan that it held.
    ensures later { (I.faults inputs.old ≤ I.faults inputs.new) × (K.faults out.old ≤ K.faults out.new)
        × (E.faults err.old ≤ E.faults err.new) }
    ensures loan { SameLoan (K.loan out.old) (K.loan out.new) × SameLoan (E.loan err.old) (E.loan err.new) }

    // The cause of each status, and what it leaves, if an input is formatted or checked.
    ensures format { (which : Which) → line_of words.now ≡ line.Format which
        → FormatRun K.written K.faults I.left I.faults which inputs.old inputs.new out.old out.new result }
    ensures check { (which : Which) → line_of words.now ≡ line.Check which
        → CheckRun I.left I.faults which inputs.old inputs.new result }
    ensures unwritten { (which : Which) → line_of words.now ≡ line.Check which → out.new ≡ out.old }

    // The cause of each status, and what it leaves, if an input is mapped.
    ensures map { (which : Which) → line_of words.now ≡ line.Map which
        → MapRun K.written K.faults I.left I.faults which inputs.old inputs.new out.old out.new result }

    // The cause of each status, and what it leaves, if a sample is summed up. No input is touched.
    ensures sample { (seed items : ℕ) → line_of words.now ≡ line.Sample seed items
        → (inputs.new ≡ inputs.old) × SampleRun K.written K.faults items (sample_text seed items) out.old out.new result }

    // Without a fault the status is the one that the input's bytes determine, and formatting what
    // was written gives the same bytes.
    ensures complete { (which : Which) (bytes : Items ℕ) (file : File) → line_of words.now ≡ line.Format which
        → ¬ (Rose (I.faults inputs.old) (I.faults inputs.new)) → ¬ (Rose (K.faults out.old) (K.faults out.new))
        → I.left inputs.old which ≡ Some bytes → length bytes ≤ 16777216 → Reads bytes file
        → ((result ≡ Status.Done) × GrewBy (K.written out.old) (K.written out.new) (text_of_file file))
        ⊎ (result ≡ Status.NoMemory) }
    ensures again { (which : Which) (given : Items ℕ) (file : File) → line_of words.now ≡ line.Format which
        → ¬ (Rose (I.faults inputs.old) (I.faults inputs.new)) → ¬ (Rose (K.faults out.old) (K.faults out.new))
        → Reads given file → I.left inputs.old which ≡ Some (text_of_file file) → length (text_of_file file) ≤ 16777216
        → ((result ≡ Status.Done) × GrewBy (K.written out.old) (K.written out.new) (text_of_file file))
        ⊎ (result ≡ Status.NoMemory) }
    ensures complete_done { (which : Which) (bytes : Items ℕ) (file : File) → line_of words.now ≡ line.Check which
        → ¬ (Rose (I.faults inputs.old) (I.faults inputs.new))
        → I.left inputs.old which ≡ Some bytes → length bytes ≤ 16777216 → Reads bytes file → bytes ≡ text_of_file file
        → (result ≡ Status.Done) ⊎ (result ≡ Status.NoMemory) }
    ensures complete_differs { (which : Which) (bytes : Items ℕ) (file : File) → line_of words.now ≡ line.Check which
        → ¬ (Rose (I.faults inputs.old) (I.faults inputs.new))
        → I.left inputs.old which ≡ Some bytes → length bytes ≤ 16777216 → Reads bytes file → bytes ≢ text_of_file file
        → (result ≡ Status.Differs) ⊎ (result ≡ Status.NoMemory) }
    ensures complete_map { (which : Which) (bytes lines : Items ℕ) (file : File) → line_of words.now ≡ line.Map which
        → ¬ (Rose (I.faults inputs.old) (I.faults inputs.new)) → ¬ (Rose (K.faults out.old) (K.faults out.new))
        → I.left inputs.old which ≡ Some bytes → length bytes ≤ 16777216 → IsMap bytes file lines
        → ((result ≡ Status.Done) × GrewBy (K.written out.old) (K.written out.new) lines) ⊎ (result ≡ Status.NoMemory) }
    ensures complete_refused { (which : Which) (bytes : Items ℕ) (refusal : Refusal)
        → input_of (line_of words.now) ≡ Some which
        → ¬ (Rose (I.faults inputs.old) (I.faults inputs.new))
        → I.left inputs.old which ≡ Some bytes → length bytes ≤ 16777216 → IsRefused bytes refusal
        → (result ≡ Status.Refused refusal) ⊎ (result ≡ Status.NoMemory) }
    ensures complete_too_long { (which : Which) (bytes : Items ℕ) → input_of (line_of words.now) ≡ Some which
        → ¬ (Rose (I.faults inputs.old) (I.faults inputs.new))
        → I.left inputs.old which ≡ Some bytes → 16777216 < length bytes
        → (result ≡ Status.TooLong) ⊎ (result ≡ Status.NoMemory) }

    ensures complete_sample { (seed items : ℕ) (file : File) → line_of words.now ≡ line.Sample seed items
        → ¬ (Rose (K.faults out.old) (K.faults out.new)) → Reads (sample_text seed items) file
        → ((result ≡ Status.Done)
        × GrewBy (K.written out.old) (K.written out.new) (summary items (sample_text seed items) (text_of_file file)))
        ⊎ (result ≡ Status.NoMemory) }
    ensures complete_sample_refused { (seed items : ℕ) (refusal : Refusal) → line_of words.now ≡ line.Sample seed items
        → IsRefused (sample_text seed items) refusal
        → (result ≡ Status.Refused refusal) ⊎ (result ≡ Status.NoMemory) }

    // The line of the status is written to `err`, and none on success.
    ensures said { Says (given_to (line_of words.now) (I.left inputs.old)) result
        (E.written err.old) (E.written err.new) (E.faults err.old) (E.faults err.new) }
    ensures silent { result ≡ Status.Done → err.new ≡ err.old }
{
    let ended = execute(alloc, words, inputs, out);
    tell(ended, err);
    status_after(ended)
}

/// The status of a run that ended like this.
fn status_after(ended: Result<(), Stop>) -> Status
    ensures { result ≡ status_of ended }
{
    match ended {
        Ok(()) => Status::Done,
        Err(Stop::Usage) => Status::Usage,
        Err(Stop::ReadFailed) => Status::ReadFailed,
        Err(Stop::TooLong) => Status::TooLong,
        Err(Stop::Refused { refusal, .. }) => Status::Refused(refusal),
        Err(Stop::WriteFailed) => Status::WriteFailed,
        Err(Stop::Differs) => Status::Differs,
        Err(Stop::NoMemory) => Status::NoMemory,
    }
}

/// Does what the words ask for.
fn execute<I: Inputs, K: Sink>(
    alloc: Global,
    words: &[Text],
    inputs: &mut I,
    out: &mut K,
) -> Result<(), Stop>
    requires { I.chosen inputs.old ≡ None }
    ensures chosen { (I.chosen inputs.new ≡ input_of (line_of words.now))
        ⊎ ((result ≡ Err Stop.NoMemory) × (inputs.new ≡ inputs.old)) }
    ensures took { TookFrom (input_of (line_of words.now)) (I.left inputs.old) (I.left inputs.new) }
    ensures run { LineRun K.written K.faults I.left I.faults (line_of words.now)
        inputs.old inputs.new out.old out.new (status_of result) }
    ensures placed { IsPlaced (given_to (line_of words.now) (I.left inputs.old)) result }
    ensures later { (I.faults inputs.old ≤ I.faults inputs.new) × (K.faults out.old ≤ K.faults out.new) }
    ensures loan { SameLoan (K.loan out.old) (K.loan out.new) }
{
    match line(alloc, words) {
        Ok(Line::Usage) => Err(Stop::Usage),
        Ok(Line::Format(which)) => format_input(alloc, which, inputs, out),
        Ok(Line::Check(which)) => check_input(alloc, which, inputs),
        Ok(Line::Map(which)) => map_input(alloc, which, inputs, out),
        Ok(Line::Sample { seed, items }) => sum_up_sample(alloc, seed, items, out),
        Err(NoMemory) => Err(Stop::NoMemory),
    }
}

/// Writes the formatted text of an input.
fn format_input<I: Inputs, K: Sink>(
    alloc: Global,
    which: Which,
    inputs: &mut I,
    out: &mut K,
) -> Result<(), Stop>
    requires { I.chosen inputs.old ≡ None }
    ensures chosen { I.chosen inputs.new ≡ Some which }
    ensures took { TookFrom (Some which) (I.left inputs.old) (I.left inputs.new) }
    ensures run { FormatRun K.written K.faults I.left I.faults which
        inputs.old inputs.new out.old out.new (status_of result) }
    ensures placed { IsPlaced (I.left inputs.old which) result }
    ensures later { (I.faults inputs.old ≤ I.faults inputs.new) × (K.faults out.old ≤ K.faults out.new) }
    ensures loan { SameLoan (K.loan out.old) (K.loan out.new) }
{
    let given = match read_input(alloc, which, inputs) {
        Ok(given) => given,
        Err(stop) => return Err(stop),
    };
    let written = write_file(alloc, &given.1, out);
    // The program ends after its run, so the tree isn't taken apart.
    forget(given);
    match written {
        Ok(()) => Ok(()),
        Err(PrintError::WriteFailed) => Err(Stop::WriteFailed),
        Err(PrintError::NoMemory) => Err(Stop::NoMemory),
    }
}

/// Compares an input with its formatted text.
fn check_input<I: Inputs>(alloc: Global, which: Which, inputs: &mut I) -> Result<(), Stop>
    requires { I.chosen inputs.old ≡ None }
    ensures chosen { I.chosen inputs.new ≡ Some which }
    ensures took { TookFrom (Some which) (I.left inputs.old) (I.left inputs.new) }
    ensures run { CheckRun I.left I.faults which inputs.old inputs.new (status_of result) }
    ensures placed { IsPlaced (I.left inputs.old which) result }
    ensures later { I.faults inputs.old ≤ I.faults inputs.new }
{
    let (bytes, file) = match read_input(alloc, which, inputs) {
        Ok(given) => given,
        Err(stop) => return Err(stop),
    };
    let compared = is_text(alloc, &file, bytes);
    // The program ends after its run, so the tree isn't taken apart.
    forget(file);
    match compared {
        Ok(true) => Ok(()),
        Ok(false) => Err(Stop::Differs),
        Err(NoMemory) => Err(Stop::NoMemory),
    }
}

/// Writes the map from an input to its formatted text.
fn map_input<I: Inputs, K: Sink>(
    alloc: Global,
    which: Which,
    inputs: &mut I,
    out: &mut K,
) -> Result<(), Stop>
    requires { I.chosen inputs.old ≡ None }
    ensures chosen { I.chosen inputs.new ≡ Some which }
    ensures took { TookFrom (Some which) (I.left inputs.old) (I.left inputs.new) }
    ensures run { MapRun K.written K.faults I.left I.faults which
        inputs.old inputs.new out.old out.new (status_of result) }
    ensures placed { IsPlaced (I.left inputs.old which) result }
    ensures later { (I.faults inputs.old ≤ I.faults inputs.new) × (K.faults out.old ≤ K.faults out.new) }
    ensures loan { SameLoan (K.loan out.old) (K.loan out.new) }
{
    let given = match read_input(alloc, which, inputs) {
        Ok(given) => given,
        Err(stop) => return Err(stop),
    };
    let written = write_map(alloc, given.0.as_slice(), &given.1, out);
    // The program ends after its run, so the tree isn't taken apart.
    forget(given);
    match written {
        Ok(()) => Ok(()),
        Err(PrintError::WriteFailed) => Err(Stop::WriteFailed),
        Err(PrintError::NoMemory) => Err(Stop::NoMemory),
    }
}

/// Reads an input, and parses it; gives its bytes and the file.
fn read_input<I: Inputs>(
    alloc: Global,
    which: Which,
    inputs: &mut I,
) -> Result<(List<u8>, File), Stop>
    requires { I.chosen inputs.old ≡ None }
    ensures chosen { I.chosen inputs.new ≡ Some which }
    ensures took { TookFrom (Some which) (I.left inputs.old) (I.left inputs.new) }
    ensures input { InputAs (I.left inputs.old which) (I.left inputs.new which)
        (I.faults inputs.old) (I.faults inputs.new) result }
    ensures later { I.faults inputs.old ≤ I.faults inputs.new }
{
    inputs.choose(which);
    let bytes = match read_all(alloc, inputs, LIMIT) {
        Ok(bytes) => bytes,
        Err(ReadError::ReadFailed) => return Err(Stop::ReadFailed),
        Err(ReadError::TooLong) => return Err(Stop::TooLong),
        Err(ReadError::NoMemory) => return Err(Stop::NoMemory),
    };
    match read_bytes(alloc, bytes.as_slice()) {
        Ok(file) => Ok((bytes, file)),
        Err(FileError::Refused { refusal, place }) => Err(Stop::Refused { refusal, place }),
        Err(FileError::NoMemory) => Err(Stop::NoMemory),
    }
}
