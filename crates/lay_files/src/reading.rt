//! Parsing of whole files.
ghost use Rattle.std.specs.Prelude.{◌≡◌, IfOk, IsTrue, IsUtf8};
ghost use Rattle.std.specs.Str.{IsCharBoundary};
ghost use Rattle.lay_lex.specs.Source.{seen};
ghost use Rattle.lay_code.specs.Reading.{top};
ghost use Rattle.lay_code.specs.Written.{is_good_shebang};
ghost use Rattle.lay_files.specs.Places.{number_of, place_in};
ghost use Rattle.lay_files.specs.Readings.{ReadAs, ReadsAs, placed_in};

use crate::windows::read_source;
use lay_code::File;
use lay_lex::{Source, lex, normalise};
use lay_nest::nest;
use lay_read_tokens::ReadNone;
use lay_token::{FormatError, NoMemory, Place2, Refusal, place_of};
use std::alloc::Global;

/// Why parsing failed.
#[derive(Clone, Copy, Debug, PartialEq, Eq)]
pub enum FileError {
    /// A syntax error at this place. It counts in the bytes themselves if they aren't UTF-8, else
    /// in the text that is lexed, which has no byte order mark and one LF for each CR LF.
    Refused { refusal: Refusal, place: Place2 },
    /// Memory could not be allocated.
    NoMemory,
}

/// The depth limit of the items of a file.
pub const DEPTH: u32 = 256;

/// Parses the bytes as a file. The syntax errors: bytes that aren't UTF-8, a place where no token
/// begins, a delimiter without a partner, and tokens that spell no file.
pub fn read_bytes(alloc: Global, bytes: &[u8]) -> Result<File, FileError>
    ensures { ReadAs top bytes.now result }
{
    read_within(alloc, bytes, DEPTH)
}

/// Parses the bytes as a file whose items fit in `depth` levels. It needs no more stack than a file
/// of that depth, whatever the bytes are.
///
/// The bytes are read window by window first. If that reads no file, they are parsed from all their
/// tokens, which gives the syntax error if there is one.
pub fn read_within(alloc: Global, bytes: &[u8], depth: u32) -> Result<File, FileError>
    ensures { ReadAs depth bytes.now result }
{
    let source = match normalise(alloc, bytes) {
        Ok(source) => source,
        Err(error) => return Err(placed(error, bytes)),
    };
    match read_source(alloc, &source, depth) {
        Ok(file) => {
            return Ok(File {
                shebang: source.shebang,
                attrs: file.attrs,
                items: file.items,
            });
        }
        Err(ReadNone::NoMemory) => return Err(FileError::NoMemory),
        Err(ReadNone::NoReading) => {}
    }
    read_tokens(alloc, source, depth)
}

/// Parses a prepared text from all its tokens.
pub(crate) fn read_tokens(alloc: Global, source: Source, depth: u32) -> Result<File, FileError>
    requires text { IsUtf8 source.text }
    requires border { IsCharBoundary source.text source.start }
    requires good { IsTrue (is_good_shebang source.shebang) }
    ensures { ReadsAs depth (seen source) result }
{
    let tokens = match lex(alloc, &source) {
        Ok(tokens) => tokens,
        Err(error) => return Err(placed(error, source.text.as_slice())),
    };
    let nested = match nest(alloc, tokens) {
        Ok(nested) => nested,
        Err(error) => return Err(placed(error, source.text.as_slice())),
    };
    match lay_read_code::read_file(alloc, &nested, source.shebang, depth) {
        Ok(file) => Ok(file),
        Err(error) => Err(placed(error, source.text.as_slice())),
    }
}

/// The error with the place of a syntax error, which is counted in this text.
pub(crate) fn placed(error: FormatError, text: &[u8]) -> FileError
    ensures { result ≡ placed_in text.now error }
{
    match error {
        FormatError::Refused(refusal) => FileError::Refused {
            refusal,
            place: place_of(text, number(refusal)),
        },
        FormatError::NoMemory => FileError::NoMemory,
    }
}

/// The place of this syntax error of the bytes, as [`read_bytes`] gives it.
pub fn refused_at(alloc: Global, bytes: &[u8], refusal: Refusal) -> Result<Place2, NoMemory>
    ensures { IfOk result (λ place. place ≡ place_in bytes.now refusal) }
{
    match normalise(alloc, bytes) {
        Ok(source) => Ok(place_of(source.text.as_slice(), number(refusal))),
        Err(FormatError::Refused(_)) => Ok(place_of(bytes, number(refusal))),
        Err(FormatError::NoMemory) => Err(NoMemory),
    }
}

/// The byte offset of a syntax error.
fn number(refusal: Refusal) -> usize
    ensures { result ≡ number_of refusal }
{
    match refusal {
        Refusal::NotUtf8 { at }
        | Refusal::NoToken { at }
        | Refusal::Unbalanced { at }
        | Refusal::NoItem { at } => at,
    }
}
