//! The recursion: types, and what contains them, within a depth limit.
ghost use Rattle.std.specs.Prelude.{◌≤◌, IfOk};
ghost use Rattle.lay_node.specs.reader.Types.{all_bounds, args_by, path, type_at, within};
ghost use Rattle.lay_read_tokens.specs.Answers.{IsFound};

use crate::rules::Rules;
use lay_node::{Args, Bound, Constraint, Path, PathStyle, Ty, TypePlace};
use lay_read_tokens::{Ahead, Found, ReadNone};
use lay_token::List;
use std::alloc::Global;

/// Parses a type at a place. What it contains fits in `depth` levels.
#[cycle(types)]
pub fn type_ahead(
    alloc: Global,
    at: &mut Ahead<'_>,
    place: TypePlace,
    depth: u32,
) -> Result<Found<Ty>, ReadNone>
    ensures read { IsFound (type_at place depth at.old) result at.new }
    ensures within { IfOk result (λ found. found.need ≤ depth) }
{
    if depth == 0 {
        return Err(ReadNone::NoReading);
    }
    let rules = Rules {
        alloc,
        depth: depth - 1,
        types: type_ahead,
        constraints: constraint_ahead,
    };
    rules.type_by(at, place)
}

/// Parses the constraint of a name among generic arguments, within `depth` levels.
#[cycle(types)]
pub fn constraint_ahead(
    alloc: Global,
    at: &mut Ahead<'_>,
    depth: u32,
) -> Result<Found<Constraint>, ReadNone>
    ensures read { IsFound ((within depth).constraints at.old) result at.new }
    ensures within { IfOk result (λ found. found.need ≤ depth) }
{
    if depth == 0 {
        return Err(ReadNone::NoReading);
    }
    let rules = Rules {
        alloc,
        depth: depth - 1,
        types: type_ahead,
        constraints: constraint_ahead,
    };
    rules.constraint(at)
}

/// Parses a path. What it contains fits in `depth` levels.
pub fn path_ahead(
    alloc: Global,
    at: &mut Ahead<'_>,
    style: PathStyle,
    depth: u32,
) -> Result<Found<Path>, ReadNone>
    ensures read { IsFound (path (within depth) style at.old) result at.new }
    ensures within { IfOk result (λ found. found.need ≤ depth) }
{
    let rules = Rules {
        alloc,
        depth,
        types: type_ahead,
        constraints: constraint_ahead,
    };
    rules.path(at, style)
}

/// Parses generic arguments. What they contain fits in `depth` levels.
pub fn args_ahead(
    alloc: Global,
    at: &mut Ahead<'_>,
    style: PathStyle,
    depth: u32,
) -> Result<Found<Args>, ReadNone>
    ensures read { IsFound (args_by (within depth) style at.old) result at.new }
    ensures within { IfOk result (λ found. found.need ≤ depth) }
{
    let rules = Rules {
        alloc,
        depth,
        types: type_ahead,
        constraints: constraint_ahead,
    };
    rules.args(at, style)
}

/// Parses one or more bounds. Everything nested in them fits in `depth` levels.
pub fn bounds_ahead(
    alloc: Global,
    at: &mut Ahead<'_>,
    depth: u32,
) -> Result<Found<List<Bound>>, ReadNone>
    ensures read { IsFound (all_bounds (within depth) at.old) result at.new }
    ensures within { IfOk result (λ found. found.need ≤ depth) }
{
    let rules = Rules {
        alloc,
        depth,
        types: type_ahead,
        constraints: constraint_ahead,
    };
    rules.all_bounds(at)
}
