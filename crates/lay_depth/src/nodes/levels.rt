//! One level more, and the greatest depth of several nodes.
ghost use Rattle.std.specs.Prelude.{◌≡◌, ◌+◌, map};
ghost use Rattle.lay_form.specs.Depth.{least_depth};
ghost use Rattle.lay_form.specs.Form.{Form};
ghost use Rattle.lay_depth.specs.nodes.Depths.{counted, greatest};

/// The depth of a node whose deepest part has this depth: one more, but at most `u32::MAX`.
pub fn deeper(depth: u32) -> u32
    ensures { result ≡ counted (depth + 1) }
{
    depth.saturating_add(1)
}

/// A node whose depth is counted, and that stands in lists.
pub trait Deep {
    /// The form of a node.
    ghost form: { Self → Form };

    /// Its depth.
    fn depth(&self) -> u32
        ensures { result ≡ counted (least_depth (form self.now)) };
}

/// The greatest depth of the nodes; 0 if there are none.
pub fn deepest<T: Deep>(nodes: &[T]) -> u32
    ensures { result ≡ counted (greatest (map T.form nodes.now)) }
{
    let mut most = 0u32;
    for node in nodes {
        most = most.max(node.depth());
    }
    most
}
