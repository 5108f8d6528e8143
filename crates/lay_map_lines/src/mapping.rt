//! From bytes that parse to a file to the map of its formatted text.
ghost use Rattle.std.specs.Prelude.{◌≡◌, ◌≤◌, IfOk, IsErrOf, OnErr, OnOk};
ghost use Rattle.lay_io.specs.Faults.{Rose, SameLoan};
ghost use Rattle.lay_code.specs.Out.{out as text_of_file};
ghost use Rattle.lay_code.specs.Reading.{Reads};
ghost use Rattle.lay_map_lines.specs.Maps.{WroteMap, WroteMapPart, units_read};

use crate::lines::write_lines;
use lay_code::File;
use lay_files::text_of;
use lay_io::Sink;
use lay_lex::normalise;
use lay_map::{Span, units_of_text};
use lay_printer::PrintError;
use lay_token::{List, NoMemory};
use std::alloc::Global;

/// Writes a line for each unit of bytes that parse to the file: where it is in the text that is
/// lexed, which has no byte order mark and one LF for each CR LF, and where the unit of the
/// formatted text is that says the same.
pub fn write_map<K: Sink>(
    alloc: Global,
    bytes: &[u8],
    file: &File,
    out: &mut K,
) -> Result<(), PrintError>
    requires { Reads bytes.now file.now }
    ensures whole { OnOk result (WroteMap bytes.now file.now (K.written out.old)
        (K.written out.new)) }
    ensures part { OnErr result (WroteMapPart bytes.now file.now (K.written out.old)
        (K.written out.new)) }
    ensures cause { IsErrOf result PrintError.WriteFailed
        → Rose (K.faults out.old) (K.faults out.new) }
    ensures later { K.faults out.old ≤ K.faults out.new }
    ensures loan { SameLoan (K.loan out.old) (K.loan out.new) }
{
    let source = match units_in(alloc, bytes, file) {
        Ok(units) => units,
        Err(NoMemory) => return Err(PrintError::NoMemory),
    };
    let output = match units_of_output(alloc, file) {
        Ok(units) => units,
        Err(NoMemory) => return Err(PrintError::NoMemory),
    };
    write_lines(alloc, source.as_slice(), output.as_slice(), out)
}

/// The units of the text of a file, which parses to it.
fn units_of_output(alloc: Global, file: &File) -> Result<List<Span>, NoMemory>
    requires { Reads (text_of_file file.now) file.now }
    ensures { IfOk result (λ units. (reads : Reads (text_of_file file.now) file.now)
        → units ≡ units_read reads) }
{
    let text = text_of(alloc, file)?;
    units_in(alloc, text.as_bytes(), file)
}

/// The units of bytes that parse to a file. Since no step of parsing them is refused, an error
/// means that memory is out.
fn units_in(alloc: Global, bytes: &[u8], file: &File) -> Result<List<Span>, NoMemory>
    requires { Reads bytes.now file.now }
    ensures { IfOk result (λ units. (reads : Reads bytes.now file.now) → units ≡ units_read reads) }
{
    let Ok(source) = normalise(alloc, bytes) else {
        return Err(NoMemory);
    };
    units_of_text(alloc, file, source.as_str(), source.start)
}
