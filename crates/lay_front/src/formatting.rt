//! Formatting of bytes and of trees, to a text or to a sink.
ghost use Rattle.std.specs.Prelude.{◌≡◌, ◌≤◌, ◌⊎◌, ℕ, List as Items, Ok, Err, IfOk, IsOk};
ghost use Rattle.lay_io.specs.Faults.{Rose, SameLoan};
ghost use Rattle.lay_io.specs.Told.{GrewBy};
ghost use Rattle.lay_text.specs.declared.refusal.Refusal.{Refusal};
ghost use Rattle.lay_code.specs.Out.{out as text_of_file};
ghost use Rattle.lay_code.specs.Reading.{IsRefused, Reads, top};
ghost use Rattle.lay_code.specs.Written.{Written};
ghost use Rattle.lay_code.specs.nodes.File.{form_of_file};
ghost use Rattle.lay_form.specs.Depth.{least_depth};
ghost use Rattle.lay_code.specs.declared.file.File.{File};
ghost use Rattle.lay_front.specs.Outcome.{Formats, FormatsTo};

use lay_code::File;
use lay_files::{FileError, read_bytes, text_of, write_file};
use lay_io::Sink;
use lay_printer::PrintError;
use lay_token::{FormatError, NoMemory, Refusal, Text};
use std::alloc::Global;

/// Why a text wasn't written completely.
#[derive(Clone, Copy, Debug, PartialEq, Eq)]
pub enum IntoError {
    /// The bytes have a syntax error. Nothing was written.
    Refused(Refusal),
    /// A write failed. A prefix of the text was written.
    WriteFailed,
    /// Memory could not be allocated. A prefix of the text was written.
    NoMemory,
}

/// Formats the bytes. The text parses to the same file as the bytes. `Refused` is given exactly if
/// the bytes have a syntax error.
pub fn format(alloc: Global, bytes: &[u8]) -> Result<Text, FormatError>
    // The cause of each error.
    ensures formats { FormatsTo bytes.now result }

    // The result is the one that the bytes determine.
    ensures complete { (file : File) → Reads bytes.now file
        → (result ≡ Ok (text_of_file file)) ⊎ (result ≡ Err FormatError.NoMemory) }
    ensures complete_refused { (refusal : Refusal) → IsRefused bytes.now refusal
        → (result ≡ Err (FormatError.Refused refusal)) ⊎ (result ≡ Err FormatError.NoMemory) }

    // Formatting the text again gives the same bytes.
    ensures again { (given : Items ℕ) (file : File) → Reads given file
        → bytes.now ≡ text_of_file file
        → (result ≡ Ok bytes.now) ⊎ (result ≡ Err FormatError.NoMemory) }
{
    format_text(alloc, bytes)
}

/// The text of a file that can be written; it parses to that file. `is_written` of `lay_laws`
/// decides whether a file can be written.
pub fn unparse(alloc: Global, file: &File) -> Result<Text, NoMemory>
    requires written { Written file.now }
    requires depth { least_depth (form_of_file file.now) ≤ top }
    ensures text { IfOk result (λ text. text ≡ text_of_file file.now) }
    ensures reads { IfOk result (λ text. Reads text file.now) }
{
    text_of(alloc, file)
}

/// Formats the bytes, and writes the text, which parses to the same file. `Refused` is given
/// exactly if the bytes have a syntax error.
pub fn format_into<K: Sink>(alloc: Global, bytes: &[u8], out: &mut K) -> Result<(), IntoError>
    ensures later { K.faults out.old ≤ K.faults out.new }
    ensures loan { SameLoan (K.loan out.old) (K.loan out.new) }

    // The cause of each error, and what it leaves.
    ensures formats { Formats K.written K.faults bytes.now out.old out.new result }

    // Without a fault the result is the one that the bytes determine.
    ensures complete { (file : File) → ¬ (Rose (K.faults out.old) (K.faults out.new))
        → Reads bytes.now file
        → (IsOk result × GrewBy (K.written out.old) (K.written out.new) (text_of_file file))
        ⊎ (result ≡ Err IntoError.NoMemory) }
    ensures complete_refused { (refusal : Refusal) → IsRefused bytes.now refusal
        → (result ≡ Err (IntoError.Refused refusal)) ⊎ (result ≡ Err IntoError.NoMemory) }

    // Formatting what was written gives the same bytes.
    ensures again { (given : Items ℕ) (file : File) → Reads given file
        → bytes.now ≡ text_of_file file
        → ¬ (Rose (K.faults out.old) (K.faults out.new))
        → (IsOk result × GrewBy (K.written out.old) (K.written out.new) bytes.now)
        ⊎ (result ≡ Err IntoError.NoMemory) }
{
    format_bytes(alloc, bytes, out)
}

/// Parses the bytes as a file, and gives its text.
fn format_text(alloc: Global, bytes: &[u8]) -> Result<Text, FormatError>
    ensures { FormatsTo bytes.now result }
{
    let file = match read_bytes(alloc, bytes) {
        Ok(file) => file,
        Err(FileError::Refused { refusal, .. }) => return Err(FormatError::Refused(refusal)),
        Err(FileError::NoMemory) => return Err(FormatError::NoMemory),
    };
    match text_of(alloc, &file) {
        Ok(text) => Ok(text),
        Err(NoMemory) => Err(FormatError::NoMemory),
    }
}

/// Parses the bytes as a file, and writes its text.
fn format_bytes<K: Sink>(alloc: Global, bytes: &[u8], out: &mut K) -> Result<(), IntoError>
    ensures later { K.faults out.old ≤ K.faults out.new }
    ensures loan { SameLoan (K.loan out.old) (K.loan out.new) }
    ensures formats { Formats K.written K.faults bytes.now out.old out.new result }
{
    let file = match read_bytes(alloc, bytes) {
        Ok(file) => file,
        Err(FileError::Refused { refusal, .. }) => return Err(IntoError::Refused(refusal)),
        Err(FileError::NoMemory) => return Err(IntoError::NoMemory),
    };
    match write_file(alloc, &file, out) {
        Ok(()) => Ok(()),
        Err(PrintError::WriteFailed) => Err(IntoError::WriteFailed),
        Err(PrintError::NoMemory) => Err(IntoError::NoMemory),
    }
}
