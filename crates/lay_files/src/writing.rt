//! Formatting of trees: from a file to its text.
ghost use Rattle.std.specs.Prelude.{◌≡◌, ◌≤◌, IfOk, OnOk, OnErr, IsErrOf, true};
ghost use Rattle.lay_io.specs.Faults.{Rose, SameLoan};
ghost use Rattle.lay_io.specs.Told.{GrewBy, GrewByPrefix};
ghost use Rattle.lay_code.specs.Out.{out as text_of_file};
ghost use Rattle.lay_paren_defs.specs.Constant.{constant};
ghost use Rattle.lay_paren_defs.specs.Enclosed.{part};

use crate::keep::Keeper;
use crate::laid::Laid;
use lay_code::{Expr, File};
use lay_io::Sink;
use lay_printer::{Core, Press, PrintError};
use lay_token::{List, NoMemory, Text};
use std::alloc::Global;

/// The text of a file.
pub fn text_of(alloc: Global, file: &File) -> Result<Text, NoMemory>
    ensures { IfOk result (λ text. text ≡ text_of_file file.now) }
{
    laid_text(alloc, file)
}

/// The text of `const _: () = e;`, where `e` is the expression with each part in parentheses.
pub fn enclosed_text_of(alloc: Global, expr: &Expr) -> Result<Text, NoMemory>
    ensures { IfOk result (λ text. text ≡ text_of_file (constant (part true expr.now))) }
{
    laid_text(alloc, expr)
}

/// The text of a file, as a list of its bytes.
pub fn bytes_of(alloc: Global, file: &File) -> Result<List<u8>, NoMemory>
    ensures { IfOk result (λ bytes. bytes ≡ text_of_file file.now) }
{
    laid_bytes(alloc, file)
}

/// Writes the text of a file, piece by piece as it is laid out.
pub fn write_file<K: Sink>(alloc: Global, file: &File, out: &mut K) -> Result<(), PrintError>
    ensures later { K.faults out.old ≤ K.faults out.new }
    ensures loan { SameLoan (K.loan out.old) (K.loan out.new) }
    ensures whole { OnOk result (GrewBy (K.written out.old) (K.written out.new)
        (text_of_file file.now)) }
    ensures part { OnErr result (GrewByPrefix (K.written out.old) (K.written out.new)
        (text_of_file file.now)) }
    ensures cause { IsErrOf result PrintError.WriteFailed
        → Rose (K.faults out.old) (K.faults out.new) }
{
    write_laid(alloc, file, out)
}

/// The text of what has the layout of a file.
fn laid_text<L: Laid>(alloc: Global, node: &L) -> Result<Text, NoMemory>
    ensures { IfOk result (λ text. text ≡ text_of_file (L.file node.now)) }
{
    let bytes = laid_bytes(alloc, node)?;
    Text::from_bytes(alloc, bytes.as_slice())
}

/// The text of what has the layout of a file, as a list of bytes.
fn laid_bytes<L: Laid>(alloc: Global, node: &L) -> Result<List<u8>, NoMemory>
    ensures { IfOk result (λ bytes. bytes ≡ text_of_file (L.file node.now)) }
{
    let mut keeper = Keeper::new(alloc);
    match write_laid(alloc, node, &mut keeper) {
        Ok(()) => Ok(keeper.into_list()),
        Err(PrintError::WriteFailed | PrintError::NoMemory) => Err(NoMemory),
    }
}

/// Writes the text of what has the layout of a file, piece by piece.
fn write_laid<L: Laid, K: Sink>(alloc: Global, node: &L, out: &mut K) -> Result<(), PrintError>
    ensures later { K.faults out.old ≤ K.faults out.new }
    ensures loan { SameLoan (K.loan out.old) (K.loan out.new) }
    ensures whole { OnOk result (GrewBy (K.written out.old) (K.written out.new)
        (text_of_file (L.file node.now))) }
    ensures part { OnErr result (GrewByPrefix (K.written out.old) (K.written out.new)
        (text_of_file (L.file node.now))) }
    ensures cause { IsErrOf result PrintError.WriteFailed
        → Rose (K.faults out.old) (K.faults out.new) }
{
    let mut core = match Core::new(alloc) {
        Ok(core) => core,
        Err(NoMemory) => return Err(PrintError::NoMemory),
    };
    let mut press = Press::new(&mut core, out);
    node.put(&mut press)?;
    press.finish()
}
