//! Parsing of optional types.
ghost use Rattle.std.specs.Prelude.{◌≤◌, drop, IfOk};
ghost use Rattle.lay_token.specs.Operators.{is_op};
ghost use Rattle.lay_node.specs.reader.Types.{if_read, within};
ghost use Rattle.lay_node.specs.declared.types.TypePlace.TheVariants.{Bounds};
ghost use Rattle.lay_read_tokens.specs.Answers.{IsFound};

use lay_node::{Ty, TypePlace};
use lay_read_tokens::front::takes_op;
use lay_read_tokens::{Ahead, Found, ReadNone};
use lay_read_types::type_ahead;
use std::alloc::Global;

/// Parses an operator of one character and a type, if the operator comes next.
pub fn type_if(
    alloc: Global,
    at: &mut Ahead<'_>,
    op: &[u8],
    depth: u32,
) -> Result<Found<Option<Ty>>, ReadNone>
    ensures read { IsFound (if_read (is_op op.now at.old)
        (λ ts. (within depth).types Bounds (drop 1 ts)) at.old) result at.new }
    ensures within { IfOk result (λ found. found.need ≤ depth) }
{
    if !takes_op(at, op) {
        return Ok(Found {
            node: None,
            need: 0,
        });
    }
    let ty = type_ahead(alloc, at, TypePlace::Bounds, depth)?;
    Ok(Found {
        node: Some(ty.node),
        need: ty.need,
    })
}
