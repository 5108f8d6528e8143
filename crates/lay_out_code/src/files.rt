//! The layout of files.
ghost use Rattle.std.specs.Prelude.{map, Some};
ghost use Rattle.lay_layout.specs.Document.{Empty, stream};
ghost use Rattle.lay_stream.specs.Fed.{Did};
ghost use Rattle.lay_form.specs.Notation.{lines};
ghost use Rattle.lay_form.specs.Stream.{stream_of};
ghost use Rattle.lay_code.specs.Out.{behind_shebang, layout_of_file};
ghost use Rattle.lay_code.specs.nodes.Code.{form_of_item};

use crate::items::put_item;
use lay_code::{File, Item};
use lay_out_pats::add_attrs;
use lay_out_tokens::HARD_BREAK;
use lay_stream::Emit;
use lay_text::Text;

/// Emits the layout of a file: its first line, if it is a shebang, its attributes and its items,
/// each with a newline after it.
pub fn put_file<E: Emit>(out: &mut E, file: &File) -> Result<(), E::Fault>
    ensures { Did E.meanings out.old (stream (layout_of_file file.now)) result out.new }
{
    put_shebang(out, &file.shebang)?;
    add_attrs(out, Ok(()), file.attrs.as_slice())?;
    put_items(out, file.items.as_slice())
}

/// Emits the layout of the first line of a file, if it is a shebang: the line, with a newline after
/// it.
pub fn put_shebang<E: Emit>(out: &mut E, shebang: &Option<Text>) -> Result<(), E::Fault>
    ensures { Did E.meanings out.old (stream (behind_shebang shebang.now Empty)) result out.new }
{
    match shebang {
        None => Ok(()),
        Some(line) => put_line(out, line.as_bytes()),
    }
}

/// Emits a text, with a newline after it.
fn put_line<E: Emit>(out: &mut E, line: &[u8]) -> Result<(), E::Fault>
    ensures { Did E.meanings out.old (stream (behind_shebang (Some line.now) Empty)) result
        out.new }
{
    out.text(line)?;
    out.brk(HARD_BREAK)
}

/// Emits items, each with a newline after it.
fn put_items<E: Emit>(out: &mut E, items: &[Item]) -> Result<(), E::Fault>
    ensures { Did E.meanings out.old (stream_of (lines (map form_of_item items.now))) result
        out.new }
{
    for item in items {
        put_item(out, item)?;
        out.brk(HARD_BREAK)?;
    }
    Ok(())
}
