//! The recursion: patterns at their places, within a depth limit.
ghost use Rattle.std.specs.Prelude.{◌≡◌, ◌≤◌, codes, IfOk};
ghost use Rattle.lay_node.specs.reader.Patterns.{pat_at, single_at};
ghost use Rattle.lay_node.specs.reader.Types.{chain};
ghost use Rattle.lay_read_tokens.specs.Answers.{AreFound, IsFound, IsHeld};
ghost use Rattle.lay_read_pats.specs.Answers.{alternatives_behind};

use crate::rules::PatRules;
use lay_node::{Pat, PatPlace};
use lay_read_parts::loops::{Joint, Part, read_chain};
use lay_read_tokens::front::takes_op;
use lay_read_tokens::{Ahead, Found, ReadNone};
use lay_token::List;
use std::alloc::Global;

/// The depth limit at which alternatives are read.
#[derive(Clone, Copy)]
struct Level {
    alloc: Global,
    depth: u32,
}

/// Single patterns as the parts of an alternation.
struct Singles;

impl Part<Pat, ()> for Singles {
    ghost reads = { λ depth place ts. single_at depth ts };
}

/// Parses a pattern at its place, within `depth` levels.
#[cycle(pats)]
pub fn pat_ahead(
    alloc: Global,
    at: &mut Ahead<'_>,
    place: PatPlace,
    depth: u32,
) -> Result<Found<Pat>, ReadNone>
    ensures read { IsFound (pat_at place depth at.old) result at.new }
    ensures within { IfOk result (λ found. found.need ≤ depth) }
{
    match place {
        PatPlace::Single => single_ahead(alloc, at, depth),
        PatPlace::Alternatives => {
            takes_op(at, b"|");
            let found = alternatives(alloc, at, depth)?;
            alternatives_of(at, found, depth)
        }
    }
}

/// Parses a pattern that is no alternation, within `depth` levels.
#[cycle(pats)]
#[tactic(auto, unfolding(lay_node::specs::reader::Patterns::single_at))]
pub fn single_ahead(alloc: Global, at: &mut Ahead<'_>, depth: u32) -> Result<Found<Pat>, ReadNone>
    ensures read { IsFound (single_at depth at.old) result at.new }
    ensures within { IfOk result (λ found. found.need ≤ depth) }
{
    if depth == 0 {
        return Err(ReadNone::NoReading);
    }
    let rules = PatRules {
        alloc,
        depth: depth - 1,
        pats: pat_ahead,
    };
    rules.single_by(at)
}

/// Parses one or more patterns with a `|` between them.
#[cycle(pats)]
#[tactic(auto, using(crate::proofs::Left::single_leaves))]
fn alternatives(alloc: Global, at: &mut Ahead<'_>, depth: u32) -> Result<Found<List<Pat>>, ReadNone>
    ensures read { IsHeld AreFound (chain (codes "|") (single_at depth) at.old) result at.new }
    ensures within { IfOk result (λ found. found.need ≤ depth) }
{
    let level = Level { alloc, depth };
    read_chain::<Singles, Level, Pat, (), _>(
        alloc,
        at,
        depth,
        Joint::Bar,
        &level,
        one_alternative,
        (),
    )
}

/// Parses one of the alternatives.
#[cycle(pats)]
fn one_alternative(level: &Level, at: &mut Ahead<'_>, _place: ()) -> Result<Found<Pat>, ReadNone>
    ensures read { IsFound (single_at level.now.depth at.old) result at.new }
    ensures within { IfOk result (λ found. found.need ≤ level.now.depth) }
{
    single_ahead(level.alloc, at, level.depth)
}

/// The alternation of these patterns, which counts one level of depth more; or, if there is only
/// one, that pattern.
pub fn alternatives_of(
    at: &Ahead<'_>,
    found: Found<List<Pat>>,
    depth: u32,
) -> Result<Found<Pat>, ReadNone>
    requires { found.need ≤ depth }
    ensures read { IsFound (alternatives_behind depth found.node found.need at.now) result at.now }
    ensures within { IfOk result (λ read. read.need ≤ depth) }
{
    let Found { node, need } = found;
    let mut pats = node.into_vec();
    if pats.len() == 1 {
        return match pats.pop() {
            Some(node) => Ok(Found { node, need }),
            None => Err(ReadNone::NoReading),
        };
    }
    if need < depth {
        Ok(Found {
            node: Pat::Or {
                alternatives: List::from_vec(pats),
            },
            need: need + 1,
        })
    } else {
        Err(ReadNone::NoReading)
    }
}
