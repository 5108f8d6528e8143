//! Boxing of nodes.
ghost use Rattle.std.specs.Prelude.{◌≡◌, IfErr, IfOk};

use lay_node::Boxed;
use lay_read_tokens::stop::{boxed, keep, room_for};
use lay_read_tokens::{Found, ReadNone};
use lay_token::List;
use std::alloc::Global;

/// Boxes the node, and keeps the depth that it needs.
pub fn boxed_found<T: Drop>(alloc: Global, node: T, need: u32) -> Result<Found<Boxed<T>>, ReadNone>
    ensures node { IfOk result (λ found. found.node ≡ node) }
    ensures need { IfOk result (λ found. found.need ≡ need) }
    ensures err { IfErr result (λ none. none ≡ ReadNone.NoMemory) }
{
    let node = boxed(alloc, node)?;
    Ok(Found { node, need })
}

/// Takes the nodes out of their boxes, into a list with no spare capacity.
pub fn unboxed<T: Drop>(alloc: Global, boxes: List<Boxed<T>>) -> Result<List<T>, ReadNone>
    ensures ok { IfOk result (λ nodes. nodes ≡ boxes) }
    ensures err { IfErr result (λ none. none ≡ ReadNone.NoMemory) }
{
    let boxes = boxes.into_vec();
    let mut nodes = room_for(alloc, boxes.len())?;
    for node in boxes {
        keep(&mut nodes, node.into_inner())?;
    }
    Ok(nodes)
}
