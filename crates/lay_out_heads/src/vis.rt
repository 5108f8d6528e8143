//! The layout of visibilities.
ghost use Rattle.lay_stream.specs.Fed.{Did};
ghost use Rattle.lay_form.specs.Stream.{stream_of};
ghost use Rattle.lay_node.specs.nodes.Vis.{vis_form};
ghost use Rattle.lay_out_types.specs.Calls.{Adds};

use crate::calls::add_simple_path;
use lay_node::Vis;
use lay_out_types::calls::add_text;
use lay_stream::Emit;

/// Emits the layout of a visibility, with a blank after it; nothing if none is written.
pub fn put_vis<E: Emit>(out: &mut E, vis: &Vis) -> Result<(), E::Fault>
    ensures { Did E.meanings out.old (stream_of (vis_form vis.now)) result out.new }
{
    add_vis(out, Ok(()), vis)
}

/// Emits a visibility.
pub fn add_vis<E: Emit>(
    out: &mut E,
    before: Result<(), E::Fault>,
    vis: &Vis,
) -> Result<(), E::Fault>
    ensures { Adds E.meanings before out.old (stream_of (vis_form vis.now)) result out.new }
{
    match vis {
        Vis::Inherited => before,
        Vis::Public => add_text(out, before, b"pub "),
        Vis::Crate => add_text(out, before, b"pub(crate) "),
        Vis::Own => add_text(out, before, b"pub(self) "),
        Vis::Super => add_text(out, before, b"pub(super) "),
        Vis::In(path) => {
            let word = add_text(out, before, b"pub(in ");
            let path = add_simple_path(out, word, path);
            add_text(out, path, b") ")
        },
    }
}
