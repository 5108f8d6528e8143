//! The builder of files.
ghost use Rattle.std.specs.Prelude.{◌≡◌, ◌≤◌, IfOk};
ghost use Rattle.lay_form.specs.Depth.{least_depth};
ghost use Rattle.lay_code.specs.nodes.File.{form_of_file};
ghost use Rattle.lay_code.specs.Reading.{top};
ghost use Rattle.lay_code.specs.Written.{Written};
ghost use Rattle.lay_build.specs.Nodes as node;

use lay_build_types::{BuiltItem, nodes};
use lay_code::File;
use lay_text::{List, NoMemory};
use std::alloc::Global;

/// A file of these items. It can be written: it is normal, each name and literal in it is a piece
/// of its kind, and it is no deeper than a file may be.
pub fn file(alloc: Global, items: List<BuiltItem>) -> Result<File, NoMemory>
    ensures node { IfOk result (λ file. file ≡ node.file items) }
    ensures written { IfOk result (λ file. Written file) }
    ensures within { IfOk result (λ file. least_depth (form_of_file file) ≤ top) }
{
    match nodes(alloc, items) {
        Ok(parts) => {
            let (items, _) = parts;
            Ok(File {
                shebang: None,
                attrs: List::new(alloc),
                items,
            })
        },
        Err(_) => Err(NoMemory),
    }
}
