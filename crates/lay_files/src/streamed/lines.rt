//! The layout of parts of a file or of a module, each on a line of its own.
ghost use Rattle.std.specs.Prelude.{[], ◌∷◌};
ghost use Rattle.lay_stream.specs.Fed.{Did};
ghost use Rattle.lay_node.specs.nodes.Attr.{attr_form};
ghost use Rattle.lay_code.specs.nodes.Code.{form_of_item};
ghost use Rattle.lay_files.specs.streamed.Through.{line_before, line_behind, rows};

use lay_code::{Attr, Item};
use lay_out_code::put_item;
use lay_out_tokens::{HARD_BREAK, put_bare_attr};
use lay_stream::Emit;

/// Emits an inner attribute, with a newline before it if it is inside a module, else after it.
pub fn put_attr_line<E: Emit>(out: &mut E, within: bool, attr: &Attr) -> Result<(), E::Fault>
    ensures { Did E.meanings out.old (rows within (attr_form attr.now ∷ [])) result out.new }
{
    put_line_before(out, within)?;
    put_bare_attr(out, attr)?;
    put_line_behind(out, within)
}

/// Emits an item, with a newline before it if it is inside a module, else after it.
pub fn put_item_line<E: Emit>(out: &mut E, within: bool, item: &Item) -> Result<(), E::Fault>
    ensures { Did E.meanings out.old (rows within (form_of_item item.now ∷ [])) result out.new }
{
    put_line_before(out, within)?;
    put_item(out, item)?;
    put_line_behind(out, within)
}

/// Emits a newline before a part, if it is inside a module.
pub fn put_line_before<E: Emit>(out: &mut E, within: bool) -> Result<(), E::Fault>
    ensures { Did E.meanings out.old (line_before within) result out.new }
{
    if within { out.brk(HARD_BREAK) } else { Ok(()) }
}

/// Emits a newline after a part, if it isn't inside a module.
pub fn put_line_behind<E: Emit>(out: &mut E, within: bool) -> Result<(), E::Fault>
    ensures { Did E.meanings out.old (line_behind within) result out.new }
{
    if within { Ok(()) } else { out.brk(HARD_BREAK) }
}
