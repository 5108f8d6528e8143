//! The result of a reader of nodes that can be nested.
ghost use Rattle.std.specs.Prelude.{◌≡◌, max};

/// A node, and the least depth at which its tokens spell it.
#[derive(Debug, Drop)]
pub struct Found<T> {
    pub node: T,
    pub need: u32,
}

/// The greater of two depths.
pub fn greater(need: u32, other: u32) -> u32
    ensures { result ≡ max need other }
{
    if need < other { other } else { need }
}
