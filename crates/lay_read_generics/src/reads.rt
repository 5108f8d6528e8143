//! The public readers of generic parameters and where clauses.
ghost use Rattle.lay_node.specs.nodes.Generics.{GenericsFront};
ghost use Rattle.lay_node.specs.nodes.Where.{WheresFront};
ghost use Rattle.lay_read_tokens.specs.Answers.{AreLexed};
ghost use Rattle.lay_read_parts.specs.Answers.{IsReadAt};

use crate::level::{generics_ahead, wheres_ahead};
use lay_nest::Cursor;
use lay_node::{Generics, Wheres};
use lay_read_tokens::{Ahead, ReadNone};
use std::alloc::Global;

/// Parses the next generic parameters, which may be none, within `depth` levels, of which they take
/// one. On an error the cursor doesn't move.
pub fn read_generics(alloc: Global, at: &mut Cursor<'_>, depth: u32) -> Result<Generics, ReadNone>
    requires { AreLexed at.old }
    ensures { IsReadAt depth GenericsFront at.old result at.new }
{
    if depth == 0 {
        return Err(ReadNone::NoReading);
    }
    let mut ahead = Ahead::new(at.fork());
    let found = generics_ahead(alloc, &mut ahead, depth - 1)?;
    *at = ahead.into_cursor();
    Ok(found.node.0)
}

/// Parses the next where clause, which may be none, within `depth` levels, of which it takes one.
/// On an error the cursor doesn't move.
pub fn read_wheres(alloc: Global, at: &mut Cursor<'_>, depth: u32) -> Result<Wheres, ReadNone>
    requires { AreLexed at.old }
    ensures { IsReadAt depth WheresFront at.old result at.new }
{
    if depth == 0 {
        return Err(ReadNone::NoReading);
    }
    let mut ahead = Ahead::new(at.fork());
    let found = wheres_ahead(alloc, &mut ahead, depth - 1)?;
    *at = ahead.into_cursor();
    Ok(found.node.0)
}
