//! The depth of use trees.
ghost use Rattle.std.specs.Prelude.{◌≡◌, map};
ghost use Rattle.lay_form.specs.Depth.{least_depth};
ghost use Rattle.lay_node.specs.nodes.Facts.{forms};
ghost use Rattle.lay_node.specs.nodes.Use.{about_use, about_use_end};
ghost use Rattle.lay_depth.specs.nodes.Depths.{counted, greatest};

use crate::nodes::levels::deeper;
use lay_node::{UseEnd, UseTree};

/// The depth of a use tree.
#[cycle(uses)]
pub fn use_depth(tree: &UseTree) -> u32
    ensures { result ≡ counted (least_depth (about_use tree.now).form) }
{
    deeper(end_depth(&tree.end))
}

/// The depth of the end of a use tree.
#[cycle(uses)]
fn end_depth(end: &UseEnd) -> u32
    ensures { result ≡ counted (least_depth (about_use_end end.now).form) }
{
    match end {
        UseEnd::Word { .. } | UseEnd::Glob => 0,
        UseEnd::Group { trees } => trees_depth(trees.as_slice()),
    }
}

/// The greatest depth of the use trees.
#[cycle(uses)]
fn trees_depth(trees: &[UseTree]) -> u32
    ensures { result ≡ counted (greatest (forms (map about_use trees.now))) }
{
    let mut most = 0u32;
    for tree in trees {
        most = most.max(use_depth(tree));
    }
    most
}
