//! The texts of a file's parts.
ghost use Rattle.std.specs.Prelude.{◌≡◌, ◌++◌, IfOk, OnOk, map};
ghost use Rattle.std.specs.List.{concat};
ghost use Rattle.lay_io.specs.Told.{GrewBy};
ghost use Rattle.lay_layout.specs.Document.{stream};
ghost use Rattle.lay_stream.specs.Fed.{Did};
ghost use Rattle.lay_code.specs.Out.{layout_of_file, out as text_of_file};
ghost use Rattle.lay_items.specs.alone.Outputs.{alone, head_text, item_text};

use lay_code::{File, Item};
use lay_files::{Keeper, text_of};
use lay_io::Sink;
use lay_out_code::put_item;
use lay_out_tokens::HARD_BREAK;
use lay_printer::{Core, Press, PrintError};
use lay_stream::Emit;
use lay_text::{List, NoMemory, Text};
use std::alloc::Global;
use std::mem;

/// The text of the beginning of a file. The file is unchanged afterwards.
pub(crate) fn head_of(alloc: Global, file: &mut File) -> Result<Text, NoMemory>
    ensures same { file.new ≡ file.old }
    ensures head { IfOk result (λ head. head ≡ head_text file.old) }
{
    let items = mem::replace(&mut file.items, List::new(alloc));
    let head = text_of(alloc, file);
    file.items = items;
    head
}

/// The texts of items.
pub(crate) fn outputs_of(alloc: Global, items: &[Item]) -> Result<List<Text>, NoMemory>
    ensures { IfOk result (λ outputs. outputs ≡ map item_text items.now) }
{
    let mut outputs = Vec::new(alloc);
    for item in items {
        outputs.push(output_of(alloc, item)?)?;
    }
    Ok(List::from_vec(outputs))
}

/// The text of an item.
pub(crate) fn output_of(alloc: Global, item: &Item) -> Result<Text, NoMemory>
    ensures { IfOk result (λ output. output ≡ item_text item.now) }
{
    let mut keeper = Keeper::new(alloc);
    match write_alone(alloc, item, &mut keeper) {
        Ok(()) => Text::from_bytes(alloc, keeper.into_list().as_slice()),
        // A `Keeper` fails only if memory is out.
        Err(PrintError::WriteFailed | PrintError::NoMemory) => Err(NoMemory),
    }
}

/// Writes the text of a file with only this item.
fn write_alone<K: Sink>(alloc: Global, item: &Item, out: &mut K) -> Result<(), PrintError>
    ensures { OnOk result (GrewBy (K.written out.old) (K.written out.new)
        (text_of_file (alone item.now))) }
{
    let mut core = match Core::new(alloc) {
        Ok(core) => core,
        Err(NoMemory) => return Err(PrintError::NoMemory),
    };
    let mut press = Press::new(&mut core, out);
    put_alone(&mut press, item)?;
    press.finish()
}

/// Emits the layout of a file with only this item.
fn put_alone<E: Emit>(out: &mut E, item: &Item) -> Result<(), E::Fault>
    ensures { Did E.meanings out.old (stream (layout_of_file (alone item.now))) result out.new }
{
    put_item(out, item)?;
    out.brk(HARD_BREAK)
}

/// Appends texts to another.
pub(crate) fn push_all(text: &mut Text, parts: &[Text]) -> Result<(), NoMemory>
    ensures { OnOk result (text.new ≡ text.old ++ concat parts.now) }
{
    for part in parts {
        text.push_bytes(part.as_bytes())?;
    }
    Ok(())
}
