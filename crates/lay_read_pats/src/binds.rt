//! Parsing of bindings.
ghost use Rattle.std.specs.Prelude.{◌≡◌, ◌+◌, ◌≤◌, IfOk};
ghost use Rattle.lay_node.specs.reader.Patterns as reader;
ghost use Rattle.lay_read_tokens.specs.Answers.{IsFound};
ghost use Rattle.lay_read_pats.specs.Answers.{ArePats, pats_within};

use crate::rules::PatRules;
use lay_node::{Name, Pat, PatPlace};
use lay_read_parts::joins::{both, refused};
use lay_read_tokens::front::{is_at_keyword, takes_keyword, takes_op};
use lay_read_tokens::names::read_name;
use lay_read_tokens::{Ahead, Found, ReadNone};
use std::alloc::Global;

/// Whether a binding comes next that begins with `ref` or `mut`.
pub fn begins_bind(at: &Ahead<'_>) -> bool
    ensures { result ≡ reader.begins_bind at.now }
{
    is_at_keyword(at, b"ref") || is_at_keyword(at, b"mut")
}

/// The binding that was read, if neither `::` nor `!` follows.
fn bound(at: &Ahead<'_>, found: Found<Pat>) -> Result<Found<Pat>, ReadNone>
    ensures read { IsFound (reader.bound (found.node, found.need) at.now) result at.now }
    ensures within { IfOk result (λ read. read.need ≡ found.need) }
{
    if at.op_is(b"::") || at.op_is(b"!") {
        refused(found)
    } else {
        Ok(found)
    }
}

impl<P: Fn(Global, &mut Ahead<'_>, PatPlace, u32) -> Result<Found<Pat>, ReadNone>> PatRules<P> {
    /// Parses the `@` and the pattern of a binding, if they come next.
    #[tactic(auto, unfolding(lay_node::specs::reader::Patterns::bind))]
    pub fn bind(
        &self,
        at: &mut Ahead<'_>,
        by_ref: bool,
        mutable: bool,
        name: Name,
    ) -> Result<Found<Pat>, ReadNone>
        requires { ArePats self.now.depth (P.pre self.now.pats) (P.post self.now.pats) }
        ensures read { IsFound (reader.bind (pats_within self.now.depth) by_ref mutable name at.old)
            result at.new }
        ensures within { IfOk result (λ found. found.need ≤ self.now.depth + 1) }
    {
        if takes_op(at, b"@") {
            let (name, of) = both(name, self.boxed_inner(at, PatPlace::Single))?;
            let node = Pat::Bind {
                by_ref,
                mutable,
                name,
                of: Some(of.node),
            };
            bound(
                at,
                Found {
                    node,
                    need: of.need + 1,
                },
            )
        } else {
            let node = Pat::Bind {
                by_ref,
                mutable,
                name,
                of: None,
            };
            bound(at, Found { node, need: 1 })
        }
    }

    /// Parses a binding that begins with `ref` or `mut`.
    #[tactic(auto, unfolding(lay_node::specs::reader::Patterns::marked_bind), using(crate::proofs::Steps::flag_found, crate::proofs::Steps::flag_rest))]
    pub fn marked_bind(&self, at: &mut Ahead<'_>) -> Result<Found<Pat>, ReadNone>
        requires { ArePats self.now.depth (P.pre self.now.pats) (P.post self.now.pats) }
        ensures read { IsFound (reader.marked_bind (pats_within self.now.depth) at.old) result
            at.new }
        ensures within { IfOk result (λ found. found.need ≤ self.now.depth + 1) }
    {
        let by_ref = takes_keyword(at, b"ref");
        let mutable = takes_keyword(at, b"mut");
        let name = read_name(self.alloc, at)?;
        self.bind(at, by_ref, mutable, name)
    }
}
