//! Formatting of bytes without a tree of the whole file.
ghost use Rattle.std.specs.Prelude.{IfOk, IsTrue, IsUtf8, OnOk};
ghost use Rattle.std.specs.Str.{IsCharBoundary};
ghost use Rattle.lay_lex.specs.Source.{seen};
ghost use Rattle.lay_code.specs.Reading.{top};
ghost use Rattle.lay_code.specs.Written.{is_good_shebang};
ghost use Rattle.lay_files.specs.Readings.{FormatsAs, FormatsSource, FormattedAs, WritesSource};

use crate::keep::Keeper;
use crate::reading::{DEPTH, FileError, placed, read_tokens};
use crate::streamed::{NotPut, put_source, told};
use crate::writing::bytes_of;
use lay_io::Sink;
use lay_lex::{Source, normalise};
use lay_out_code::put_shebang;
use lay_printer::{Core, Press, PrintError};
use lay_read_tokens::ReadNone;
use lay_token::{List, NoMemory};
use std::alloc::Global;

/// Formats the bytes, or gives the syntax error and its place.
///
/// The items in a window of tokens are laid out and dropped before the next window is lexed. The
/// text is kept until everything was read. If the bytes can't be read window by window, they are
/// parsed from all tokens, which gives the syntax error if there is one.
pub fn format_bytes(alloc: Global, bytes: &[u8]) -> Result<List<u8>, FileError>
    ensures { FormattedAs top bytes.now result }
{
    let source = match normalise(alloc, bytes) {
        Ok(source) => source,
        Err(error) => return Err(placed(error, bytes)),
    };
    match format_source(alloc, &source) {
        Ok(text) => Ok(text),
        Err(ReadNone::NoMemory) => Err(FileError::NoMemory),
        Err(ReadNone::NoReading) => format_tokens(alloc, source),
    }
}

/// Formats a prepared text, parsed from all its tokens.
fn format_tokens(alloc: Global, source: Source) -> Result<List<u8>, FileError>
    requires text { IsUtf8 source.text }
    requires border { IsCharBoundary source.text source.start }
    requires good { IsTrue (is_good_shebang source.shebang) }
    ensures { FormatsAs top (seen source) result }
{
    let file = match read_tokens(alloc, source, DEPTH) {
        Ok(file) => file,
        Err(error) => return Err(error),
    };
    match bytes_of(alloc, &file) {
        Ok(text) => Ok(text),
        Err(NoMemory) => Err(FileError::NoMemory),
    }
}

/// Formats a prepared text window by window, if it can be read so.
fn format_source(alloc: Global, source: &Source) -> Result<List<u8>, ReadNone>
    requires text { IsUtf8 source.now.text }
    requires border { IsCharBoundary source.now.text source.now.start }
    ensures { IfOk result (λ text. FormatsSource top (seen source.now) text) }
{
    let mut keeper = Keeper::new(alloc);
    match write_source(alloc, source, &mut keeper) {
        Ok(()) => Ok(keeper.into_list()),
        Err(NotPut::NoReading) => Err(ReadNone::NoReading),
        // A `Keeper` fails only if memory is out.
        Err(NotPut::NoMemory | NotPut::Fault(_)) => Err(ReadNone::NoMemory),
    }
}

/// Writes the formatted text window by window, if it can be read so. Otherwise what was written
/// says nothing.
fn write_source<K: Sink>(
    alloc: Global,
    source: &Source,
    out: &mut K,
) -> Result<(), NotPut<PrintError>>
    requires text { IsUtf8 source.now.text }
    requires border { IsCharBoundary source.now.text source.now.start }
    ensures { OnOk result (WritesSource top (seen source.now) (K.written out.old)
        (K.written out.new)) }
{
    let mut core = match Core::new(alloc) {
        Ok(core) => core,
        Err(NoMemory) => return Err(NotPut::NoMemory),
    };
    let mut press = Press::new(&mut core, out);
    told(put_shebang(&mut press, &source.shebang))?;
    put_source(alloc, source, DEPTH, &mut press)?;
    told(press.finish())
}
