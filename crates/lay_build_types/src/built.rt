//! Nodes that were built, and the errors of building.
ghost use Rattle.std.specs.Prelude.{◌≡◌, IfOk};
ghost use Rattle.lay_form.specs.Depth.{least_depth};
ghost use Rattle.lay_form.specs.Form.{Form};
ghost use Rattle.lay_build_types.specs.Answers.{Answers, IsKept, IsPart};

use std::marker::Model;

/// The greatest depth of what a file holds.
const DEPTH: u32 = 256;

/// Why building failed. The arguments of the call are dropped.
#[derive(Clone, Copy, Debug, PartialEq, Eq)]
pub enum BuildError {
    /// The text is not an identifier, or it is `_`, `crate`, `self`, `super` or `Self`.
    BadName,
    /// The text is not UTF-8.
    BadText,
    /// The node is deeper than a file may be.
    TooDeep,
    /// Memory could not be allocated.
    NoMemory,
}

/// A kind of node that can be built.
pub trait Node {
    /// The form of a node, which determines the depth that it needs.
    ghost form: { Self → Form };

    /// What holds of a built node, wherever it is put.
    ghost Holds: { Self → Type 0 };
}

/// A built node. Contracts see the node only; the depth that it needs is kept beside it.
#[derive(Drop)]
pub struct Built<N: Node> {
    node: N,
    need: u32,
}

impl<N: Node> Model for Built<N> {
    ghost use Rattle.std.specs.Prelude.{◌≡◌};
    ghost use Rattle.lay_form.specs.Depth.{least_depth};
    ghost use Rattle.lay_build_types.specs.Answers.{IsKept};

    ghost Value = { N };

    ghost coded = { N.code };

    ghost view = { λ built. built.node };

    ghost invariant = { λ built. IsKept N.form N.Holds built.node × (built.need ≡ least_depth (N.form built.node)) };
}

impl<N: Node> Built<N> {
    /// The node.
    pub fn node(&self) -> &N
        ensures node { result.now ≡ self.now }
        ensures kept { IsKept N.form N.Holds self.now }
    {
        &self.node
    }

    /// Takes the node out, with the depth that it needs.
    pub fn into_parts(self) -> (N, u32)
        ensures parts { result ≡ (self, least_depth (N.form self)) }
        ensures kept { IsKept N.form N.Holds self }
    {
        let Built { node, need } = self;
        (node, need)
    }
}

/// The node as a built one, unless it is too deep; `made` is the node with the depth that it needs.
pub fn kept<N: Node + Drop>(made: Result<(N, u32), BuildError>) -> Result<Built<N>, BuildError>
    requires { IfOk made (IsPart N.form N.Holds) }
    ensures { Answers N.form made result }
{
    let (node, need) = made?;
    if need > DEPTH {
        return Err(BuildError::TooDeep);
    }
    Ok(Built { node, need })
}
