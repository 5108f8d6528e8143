//! The public readers of types, paths, generic arguments and bounds.
ghost use Rattle.lay_node.specs.nodes.Facts.{Front};
ghost use Rattle.lay_node.specs.nodes.Types.{BoundsFront, TypeFront, about_args, about_path, about_type, alone, in_style};
ghost use Rattle.lay_node.specs.declared.types.Args.{Args as ArgsValue};
ghost use Rattle.lay_node.specs.declared.types.Path.{Path as PathValue};
ghost use Rattle.lay_node.specs.declared.types.Ty.{Ty as TyValue};
ghost use Rattle.lay_read_tokens.specs.Answers.{AreLexed};
ghost use Rattle.lay_read_parts.specs.Answers.{IsReadAt};

use crate::knot::{args_ahead, bounds_ahead, path_ahead, type_ahead};
use lay_nest::Cursor;
use lay_node::{Args, Bound, Path, PathStyle, Ty, TypePlace};
use lay_read_tokens::{Ahead, ReadNone};
use lay_token::List;
use std::alloc::Global;

/// Parses the next type, at `place` and within `depth` levels. On an error the cursor doesn't move.
pub fn read_type(
    alloc: Global,
    at: &mut Cursor<'_>,
    place: TypePlace,
    depth: u32,
) -> Result<Ty, ReadNone>
    requires { AreLexed at.old }
    ensures { IsReadAt depth (λ (x : TyValue). TypeFront place (about_type x)) at.old result
        at.new }
{
    let mut ahead = Ahead::new(at.fork());
    let found = type_ahead(alloc, &mut ahead, place, depth)?;
    *at = ahead.into_cursor();
    Ok(found.node)
}

/// Parses the next path, with generic arguments in this style, within `depth` levels, of which the
/// path takes one. On an error the cursor doesn't move.
pub fn read_path(
    alloc: Global,
    at: &mut Cursor<'_>,
    style: PathStyle,
    depth: u32,
) -> Result<Path, ReadNone>
    requires { AreLexed at.old }
    ensures { IsReadAt depth (λ (x : PathValue). Front (alone (about_path x style))) at.old result
        at.new }
{
    if depth == 0 {
        return Err(ReadNone::NoReading);
    }
    let mut ahead = Ahead::new(at.fork());
    let found = path_ahead(alloc, &mut ahead, style, depth - 1)?;
    *at = ahead.into_cursor();
    Ok(found.node)
}

/// Parses the next generic arguments, within `depth` levels, of which they take one; in an
/// expression they begin with `::`. On an error the cursor doesn't move.
pub fn read_args(
    alloc: Global,
    at: &mut Cursor<'_>,
    style: PathStyle,
    depth: u32,
) -> Result<Args, ReadNone>
    requires { AreLexed at.old }
    ensures { IsReadAt depth (λ (x : ArgsValue). Front (alone (in_style style (about_args x))))
        at.old result at.new }
{
    if depth == 0 {
        return Err(ReadNone::NoReading);
    }
    let mut ahead = Ahead::new(at.fork());
    let found = args_ahead(alloc, &mut ahead, style, depth - 1)?;
    *at = ahead.into_cursor();
    Ok(found.node)
}

/// Parses the next bounds, as many as there are, within `depth` levels, of which they take one. On
/// an error the cursor doesn't move.
pub fn read_bounds(alloc: Global, at: &mut Cursor<'_>, depth: u32) -> Result<List<Bound>, ReadNone>
    requires { AreLexed at.old }
    ensures { IsReadAt depth BoundsFront at.old result at.new }
{
    if depth == 0 {
        return Err(ReadNone::NoReading);
    }
    let mut ahead = Ahead::new(at.fork());
    let found = bounds_ahead(alloc, &mut ahead, depth - 1)?;
    *at = ahead.into_cursor();
    Ok(found.node)
}
