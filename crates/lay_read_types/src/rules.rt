//! What the rules share: the readers of the next deeper level.
ghost use Rattle.std.specs.Prelude.{◌≤◌, IfOk};
ghost use Rattle.lay_node.specs.reader.Types.{within};
ghost use Rattle.lay_read_tokens.specs.Answers.{IsFound};
ghost use Rattle.lay_read_types.specs.Answers.{AreDeeper};

use lay_node::{Constraint, Ty, TypePlace};
use lay_read_tokens::{Ahead, Found, ReadNone};
use std::alloc::Global;

/// The rules of one level, over the readers of the next deeper level: of types at a place, and of
/// constraints.
#[derive(Drop)]
pub struct Rules<F, G> {
    pub alloc: Global,
    /// The depth limit of the next deeper level.
    pub depth: u32,
    pub types: F,
    pub constraints: G,
}

impl<
    F: Fn(Global, &mut Ahead<'_>, TypePlace, u32) -> Result<Found<Ty>, ReadNone>,
    G: Fn(Global, &mut Ahead<'_>, u32) -> Result<Found<Constraint>, ReadNone>,
> Rules<F, G> {
    /// Parses a type of the next deeper level.
    pub fn inner(&self, at: &mut Ahead<'_>, place: TypePlace) -> Result<Found<Ty>, ReadNone>
        requires { AreDeeper self.now.depth (F.pre self.now.types) (F.post self.now.types)
            (G.pre self.now.constraints) (G.post self.now.constraints) }
        ensures read { IsFound ((within self.now.depth).types place at.old) result at.new }
        ensures within { IfOk result (λ found. found.need ≤ self.now.depth) }
    {
        (self.types)(self.alloc, at, place, self.depth)
    }

    /// Parses a constraint of the next deeper level.
    pub fn asked(&self, at: &mut Ahead<'_>) -> Result<Found<Constraint>, ReadNone>
        requires { AreDeeper self.now.depth (F.pre self.now.types) (F.post self.now.types)
            (G.pre self.now.constraints) (G.post self.now.constraints) }
        ensures read { IsFound ((within self.now.depth).constraints at.old) result at.new }
        ensures within { IfOk result (λ found. found.need ≤ self.now.depth) }
    {
        (self.constraints)(self.alloc, at, self.depth)
    }
}
