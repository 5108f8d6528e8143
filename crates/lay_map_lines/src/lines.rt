//! Pairs of units as lines of text.
ghost use Rattle.std.specs.Prelude.{◌≡◌, ◌≤◌, ◌++◌, ◌∷◌, [], OnOk, OnErr, IsErrOf};
ghost use Rattle.std.specs.Fmt.{decimal};
ghost use Rattle.lay_io.specs.Faults.{Rose, SameLoan};
ghost use Rattle.lay_io.specs.Told.{GrewBy, GrewByPrefix};
ghost use Rattle.lay_map.specs.Pairs.{paired};
ghost use Rattle.lay_map_lines.specs.Lines.{line_of, map_text, unit_text};

use itoa::Buffer;
use lay_io::{Failed, Sink};
use lay_map::{Span, Unit};
use lay_printer::PrintError;
use lay_token::NoMemory;
use std::alloc::Global;

/// Writes a line for each unit of the source and the unit of the output with the same index.
pub fn write_lines<K: Sink>(
    alloc: Global,
    source: &[Span],
    output: &[Span],
    out: &mut K,
) -> Result<(), PrintError>
    ensures whole { OnOk result (GrewBy (K.written out.old) (K.written out.new)
        (map_text (paired source.now output.now))) }
    ensures part { OnErr result (GrewByPrefix (K.written out.old) (K.written out.new)
        (map_text (paired source.now output.now))) }
    ensures cause { IsErrOf result PrintError.WriteFailed
        → Rose (K.faults out.old) (K.faults out.new) }
    ensures later { K.faults out.old ≤ K.faults out.new }
    ensures loan { SameLoan (K.loan out.old) (K.loan out.new) }
{
    let mut line = Vec::new(alloc);
    let mut units = source;
    let mut others = output;
    while let Some((unit, more)) = units.split_first() {
        match others.split_first() {
            Some((other, behind)) => {
                match write_line(&mut line, unit.unit(), other.unit(), out) {
                    Ok(()) => {}
                    Err(error) => return Err(error),
                }
                units = more;
                others = behind;
            }
            None => return Ok(()),
        }
    }
    Ok(())
}

/// Writes the line of two units. `line` is only a buffer, so that no line allocates anew; its
/// content is lost.
fn write_line<K: Sink>(
    line: &mut Vec<u8>,
    source: Unit,
    output: Unit,
    out: &mut K,
) -> Result<(), PrintError>
    ensures whole { OnOk result (GrewBy (K.written out.old) (K.written out.new)
        (line_of (record { source = source; output = output }))) }
    ensures part { OnErr result (GrewByPrefix (K.written out.old) (K.written out.new)
        (line_of (record { source = source; output = output }))) }
    ensures cause { IsErrOf result PrintError.WriteFailed
        → Rose (K.faults out.old) (K.faults out.new) }
    ensures later { K.faults out.old ≤ K.faults out.new }
    ensures loan { SameLoan (K.loan out.old) (K.loan out.new) }
{
    line.clear();
    match add_line(line, source, output) {
        Ok(()) => {}
        Err(NoMemory) => return Err(PrintError::NoMemory),
    }
    match out.write(line.as_slice()) {
        Ok(()) => Ok(()),
        Err(Failed) => Err(PrintError::WriteFailed),
    }
}

/// Appends the line of two units: the place of the one, and that of the other.
fn add_line(line: &mut Vec<u8>, source: Unit, output: Unit) -> Result<(), NoMemory>
    ensures { OnOk result (line.new.items ≡ line.old.items
        ++ line_of (record { source = source; output = output })) }
{
    add_unit(line, source, b' ')?;
    add_unit(line, output, b'\n')
}

/// Appends the place of a unit, as its start, `+` and its length, and then a byte.
fn add_unit(line: &mut Vec<u8>, unit: Unit, behind: u8) -> Result<(), NoMemory>
    ensures { OnOk result (line.new.items ≡ line.old.items ++ (unit_text unit ++ behind ∷ [])) }
{
    add_number(line, unit.at, b'+')?;
    add_number(line, unit.len, behind)
}

/// Appends a number in decimal digits, and then a byte.
fn add_number(line: &mut Vec<u8>, number: usize, behind: u8) -> Result<(), NoMemory>
    ensures { OnOk result (line.new.items ≡ line.old.items ++ (decimal number ++ behind ∷ [])) }
{
    line.extend_from_slice(Buffer::new().format(number).as_bytes())?;
    line.push(behind)?;
    Ok(())
}
