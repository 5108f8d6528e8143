//! Lists of built nodes.
ghost use Rattle.std.specs.Prelude.{◌≡◌, IfSome, map};
ghost use Rattle.lay_build_types.specs.Answers.{AreParts, Gives, IsKept, need_if};

use crate::built::{BuildError, Built, Node};
use crate::joins::keep;
use lay_text::List;
use std::alloc::Global;

/// The nodes of a list, and the greatest depth that one of them needs.
pub fn nodes<N: Node + Drop>(
    alloc: Global,
    list: List<Built<N>>,
) -> Result<(List<N>, u32), BuildError>
    ensures { Gives result (AreParts N.form N.Holds list) }
{
    let mut left = list.into_vec();
    left.reverse();
    let mut nodes = List::new(alloc);
    let mut need = 0u32;
    while let Some(built) = left.pop() {
        let (node, more) = built.into_parts();
        keep(&mut nodes, node)?;
        need = need.max(more);
    }
    Ok((nodes, need))
}

/// The optional node, and the depth that it needs.
pub fn part_or_none<N: Node>(built: Option<Built<N>>) -> (Option<N>, u32)
    ensures part { result ≡ (built, need_if N.form built) }
    ensures kept { IfSome built (IsKept N.form N.Holds) }
{
    match built {
        Some(built) => {
            let (node, need) = built.into_parts();
            (Some(node), need)
        },
        None => (None, 0),
    }
}

/// A node that can be turned into a node of type `M`.
pub trait Turns<M> {
    /// The node that it becomes.
    ghost turned: { Self → M };

    /// Turns the node.
    fn turn(self, alloc: Global) -> Result<M, BuildError>
        ensures { Gives result (λ made. made ≡ turned self) };
}

/// Turns each node of a list.
pub fn turn_all<N: Turns<M> + Drop, M: Drop>(
    alloc: Global,
    list: List<N>,
) -> Result<List<M>, BuildError>
    ensures { Gives result (λ made. made ≡ map N.turned list) }
{
    let mut left = list.into_vec();
    left.reverse();
    let mut made = List::new(alloc);
    while let Some(node) = left.pop() {
        keep(&mut made, node.turn(alloc)?)?;
    }
    Ok(made)
}
