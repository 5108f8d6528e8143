//! The rules of one level, over the reader of the next deeper level.
ghost use Rattle.std.specs.Prelude.{◌≡◌, ◌≤◌, IfOk};
ghost use Rattle.lay_node.specs.reader.Patterns.{pat_at};
ghost use Rattle.lay_read_tokens.specs.Answers.{IsFound};
ghost use Rattle.lay_read_pats.specs.Answers.{ArePats};

use lay_node::{Boxed, Pat, PatPlace};
use lay_read_tokens::stop::boxed;
use lay_read_tokens::{Ahead, Found, ReadNone};
use std::alloc::Global;

/// The rules of one level, over the reader of patterns of the next deeper level.
#[derive(Drop)]
pub struct PatRules<P> {
    pub alloc: Global,
    /// The depth limit of the next deeper level.
    pub depth: u32,
    pub pats: P,
}

impl<P: Fn(Global, &mut Ahead<'_>, PatPlace, u32) -> Result<Found<Pat>, ReadNone>> PatRules<P> {
    /// Parses a pattern of the next deeper level.
    pub fn inner(&self, at: &mut Ahead<'_>, place: PatPlace) -> Result<Found<Pat>, ReadNone>
        requires { ArePats self.now.depth (P.pre self.now.pats) (P.post self.now.pats) }
        ensures read { IsFound (pat_at place self.now.depth at.old) result at.new }
        ensures within { IfOk result (λ found. found.need ≤ self.now.depth) }
    {
        (self.pats)(self.alloc, at, place, self.depth)
    }

    /// Parses a pattern of the next deeper level, and boxes it.
    pub fn boxed_inner(
        &self,
        at: &mut Ahead<'_>,
        place: PatPlace,
    ) -> Result<Found<Boxed<Pat>>, ReadNone>
        requires { ArePats self.now.depth (P.pre self.now.pats) (P.post self.now.pats) }
        ensures read { IsFound (pat_at place self.now.depth at.old) result at.new }
        ensures within { IfOk result (λ found. found.need ≤ self.now.depth) }
    {
        let found = self.inner(at, place)?;
        let node = boxed(self.alloc, found.node)?;
        Ok(Found {
            node,
            need: found.need,
        })
    }
}
