//! Samples: made, formatted, and summed up in one line.
ghost use Rattle.std.specs.Prelude.{◌≡◌, ◌≤◌, ◌++◌, Some, IfOk, length};
ghost use Rattle.std.specs.Fmt.{decimal};
ghost use Rattle.lay_sample.specs.counting.Counting.{lines_of, longest_line};
ghost use Rattle.lay_io.specs.Faults.{SameLoan};
ghost use Rattle.lay_sample.specs.Sample.{sample_text};
ghost use Rattle.lay_code.specs.Out.{out as text_of_file};
ghost use Rattle.lay_front.specs.Inputs.{IsPlaced};
ghost use Rattle.lay_front.specs.Outcome.{SampleRun};
ghost use Rattle.lay_front.specs.Stops.{status_of};
ghost use Rattle.lay_front.specs.Summary.{summary};

use crate::stop::Stop;
use itoa::Buffer;
use lay_code::File;
use lay_files::{FileError, read_bytes, write_file};
use lay_io::{Failed, Sink};
use lay_sample::counting::{Counter, Counts};
use lay_sample::sample;
use lay_token::{NoMemory, Text};
use std::alloc::Global;

/// Makes the sample of a seed with this many items, formats it, and writes the line that sums it
/// up. The formatted text isn't kept: it is counted as it is made.
pub fn sum_up_sample<K: Sink>(alloc: Global, seed: u64, items: u32, out: &mut K) -> Result<(), Stop>
    requires { items ≤ 200000 }
    ensures run { SampleRun K.written K.faults items (sample_text seed items) out.old out.new
        (status_of result) }
    ensures placed { IsPlaced (Some (sample_text seed items)) result }
    ensures later { K.faults out.old ≤ K.faults out.new }
    ensures loan { SameLoan (K.loan out.old) (K.loan out.new) }
{
    let bytes = match sample(alloc, seed, items) {
        Ok(bytes) => bytes,
        Err(NoMemory) => return Err(Stop::NoMemory),
    };
    let file = match read_bytes(alloc, bytes.as_bytes()) {
        Ok(file) => file,
        Err(FileError::Refused { refusal, place }) => return Err(Stop::Refused { refusal, place }),
        Err(FileError::NoMemory) => return Err(Stop::NoMemory),
    };
    let line = match summary_of(alloc, items, bytes.as_bytes(), &file) {
        Ok(line) => line,
        Err(NoMemory) => return Err(Stop::NoMemory),
    };
    match out.write(line.as_bytes()) {
        Ok(()) => Ok(()),
        Err(Failed) => Err(Stop::WriteFailed),
    }
}

/// The line that sums up a sample of this many items and its formatted text.
fn summary_of(alloc: Global, items: u32, bytes: &[u8], file: &File) -> Result<Text, NoMemory>
    ensures { IfOk result (λ line. line ≡ summary items bytes.now (text_of_file file.now)) }
{
    let counts = count(alloc, file)?;
    let mut line = Text::new(alloc);
    add(&mut line, b"items ", u64::from(items))?;
    add(&mut line, b", bytes in ", bytes.len() as u64)?;
    add(&mut line, b", bytes out ", counts.bytes)?;
    add(&mut line, b", lines ", counts.lines)?;
    add(&mut line, b", longest ", counts.longest)?;
    line.push(b'\n')?;
    Ok(line)
}

/// Appends a piece, and a number in decimal digits.
fn add(line: &mut Text, piece: &[u8], number: u64) -> Result<(), NoMemory>
    ensures { IfOk result (λ _. line.new ≡ line.old ++ (piece.now ++ decimal number)) }
{
    line.push_bytes(piece)?;
    line.push_bytes(Buffer::new().format(number).as_bytes())
}

/// The counts of a file's text.
fn count(alloc: Global, file: &File) -> Result<Counts, NoMemory>
    ensures bytes { IfOk result (λ counts. counts.bytes ≡ length (text_of_file file.now)) }
    ensures lines { IfOk result (λ counts. counts.lines ≡ lines_of (text_of_file file.now)) }
    ensures longest { IfOk result (λ counts. counts.longest
        ≡ longest_line (text_of_file file.now)) }
{
    let mut counter = Counter::new();
    match write_file(alloc, file, &mut counter) {
        Ok(()) => Ok(counter.counts()),
        Err(_) => Err(NoMemory),
    }
}
