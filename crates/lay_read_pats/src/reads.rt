//! The public readers of patterns.
ghost use Rattle.lay_node.specs.nodes.Patterns.{PatFront, about_pat};
ghost use Rattle.lay_node.specs.declared.patterns.Pat.{Pat};
ghost use Rattle.lay_node.specs.declared.patterns.PatPlace.TheVariants.{Alternatives, Single};
ghost use Rattle.lay_read_tokens.specs.Answers.{AreLexed};
ghost use Rattle.lay_read_parts.specs.Answers.{IsReadAt};

use crate::pats::pat_ahead;
use lay_nest::Cursor;
use lay_node::{Pat, PatPlace};
use lay_read_tokens::{Ahead, ReadNone};
use std::alloc::Global;

/// Parses the next pattern, which may be an alternation, within `depth` levels. On an error the
/// cursor doesn't move.
pub fn read_pat(alloc: Global, at: &mut Cursor<'_>, depth: u32) -> Result<Pat, ReadNone>
    requires { AreLexed at.old }
    ensures { IsReadAt depth (λ (x : Pat). PatFront Alternatives (about_pat x)) at.old result
        at.new }
{
    read_at(alloc, at, PatPlace::Alternatives, depth)
}

/// Parses the next pattern that is no alternation, within `depth` levels. On an error the cursor
/// doesn't move.
pub fn read_pat_no_alt(alloc: Global, at: &mut Cursor<'_>, depth: u32) -> Result<Pat, ReadNone>
    requires { AreLexed at.old }
    ensures { IsReadAt depth (λ (x : Pat). PatFront Single (about_pat x)) at.old result at.new }
{
    read_at(alloc, at, PatPlace::Single, depth)
}

/// Parses the next pattern at its place, within `depth` levels. On an error the cursor doesn't
/// move.
fn read_at(alloc: Global, at: &mut Cursor<'_>, place: PatPlace, depth: u32) -> Result<Pat, ReadNone>
    requires { AreLexed at.old }
    ensures { IsReadAt depth (λ (x : Pat). PatFront place (about_pat x)) at.old result at.new }
{
    let mut ahead = Ahead::new(at.fork());
    let found = pat_ahead(alloc, &mut ahead, place, depth)?;
    *at = ahead.into_cursor();
    Ok(found.node)
}
