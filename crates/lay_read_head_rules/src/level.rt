//! Helpers that the readers of heads share.
ghost use Rattle.std.specs.Prelude.{◌≡◌, ◌≤◌, if◌then◌else◌, IfOk, Ok, Err};
ghost use Rattle.lay_node.specs.Ahead.{is_keyword};
ghost use Rattle.lay_node.specs.reader.Generics.{met_if};
ghost use Rattle.lay_node.specs.reader.Types.{flag, within};
ghost use Rattle.lay_read_tokens.specs.Answers.{IsFound};

use lay_node::Bound;
use lay_read_parts::leads::begins_bound;
use lay_read_tokens::front::{takes_keyword, takes_op};
use lay_read_tokens::{Ahead, Found, ReadNone};
use lay_read_types::bounds_ahead;
use lay_token::List;
use std::alloc::Global;

/// The depth limit of what the elements of a list contain.
#[derive(Clone, Copy)]
pub struct Level {
    pub alloc: Global,
    pub depth: u32,
}

/// The value, or the error `NoReading` unless `keeps`.
pub fn kept_if<T: Drop>(found: T, keeps: bool) -> Result<T, ReadNone>
    ensures { result ≡ (if keeps then Ok found else Err ReadNone.NoReading) }
{
    if keeps {
        Ok(found)
    } else {
        Err(ReadNone::NoReading)
    }
}

/// Moves past the keyword if it comes next, and says whether it did.
pub fn takes_flag(at: &mut Ahead<'_>, word: &[u8]) -> bool
    ensures found { result ≡ (flag (is_keyword word.now) at.old).0 }
    ensures passed { at.new ≡ (flag (is_keyword word.now) at.old).1 }
{
    takes_keyword(at, word)
}

/// Parses a `:` and bounds, if a `:` comes next; the bounds may be none.
pub fn met_if(alloc: Global, at: &mut Ahead<'_>, depth: u32) -> Result<Found<List<Bound>>, ReadNone>
    ensures read { IsFound (met_if (within depth) at.old) result at.new }
    ensures within { IfOk result (λ found. found.need ≤ depth) }
{
    if takes_op(at, b":") && begins_bound(at) {
        bounds_ahead(alloc, at, depth)
    } else {
        Ok(Found {
            node: List::new(alloc),
            need: 0,
        })
    }
}
