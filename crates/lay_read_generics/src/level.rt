//! The readers of generic parameters and where clauses at a depth limit.
ghost use Rattle.std.specs.Prelude.{◌≤◌, IfOk};
ghost use Rattle.lay_node.specs.reader.Generics.{generics};
ghost use Rattle.lay_node.specs.reader.Types.{within};
ghost use Rattle.lay_node.specs.reader.Where.{wheres};
ghost use Rattle.lay_read_tokens.specs.Answers.{IsFound};

use lay_node::{Generics, Wheres};
use lay_read_tokens::{Ahead, Found, ReadNone};
use std::alloc::Global;

/// The depth limit of what parameters and predicates contain.
#[derive(Drop)]
pub struct Level {
    pub alloc: Global,
    pub depth: u32,
}

/// Parses generic parameters. What they contain fits in `depth` levels. The flag says that there
/// were `<` and `>`.
pub fn generics_ahead(
    alloc: Global,
    at: &mut Ahead<'_>,
    depth: u32,
) -> Result<Found<(Generics, bool)>, ReadNone>
    ensures read { IsFound (generics (within depth) at.old) result at.new }
    ensures within { IfOk result (λ found. found.need ≤ depth) }
{
    let level = Level { alloc, depth };
    level.generics(at)
}

/// Parses a where clause, with everything in it within `depth` levels. The flag says that its last
/// predicate has a comma, or that it is a `where` without predicates.
pub fn wheres_ahead(
    alloc: Global,
    at: &mut Ahead<'_>,
    depth: u32,
) -> Result<Found<(Wheres, bool)>, ReadNone>
    ensures read { IsFound (wheres (within depth) at.old) result at.new }
    ensures within { IfOk result (λ found. found.need ≤ depth) }
{
    let level = Level { alloc, depth };
    level.wheres(at)
}
