//! Parsing of macro calls.
ghost use Rattle.std.specs.Prelude.{◌≡◌, if◌then◌else◌, Some, None};
ghost use Rattle.lay_node.specs.reader.Call as reader;
ghost use Rattle.lay_node.specs.nodes.Call.{about_call};
ghost use Rattle.lay_node.specs.nodes.Facts.{Front};
ghost use Rattle.lay_node.specs.declared.tokens.MacroCall.{MacroCall};
ghost use Rattle.lay_read_tokens.specs.Answers.{AreLexed, IsGot, IsRead};

use crate::ahead::Ahead;
use crate::front::{takes_mark, takes_op};
use crate::simple_paths::read_simple_path;
use crate::stop::ReadNone;
use crate::tokens::read_group;
use lay_nest::Cursor;
use lay_node::MacroCall;
use lay_token::Delim;
use std::alloc::Global;

/// Parses the next macro call. On an error the cursor doesn't move.
pub fn read_call(alloc: Global, at: &mut Cursor<'_>) -> Result<MacroCall, ReadNone>
    requires { AreLexed at.old }
    ensures { IsRead (λ (call : MacroCall). Front (about_call call)) at.old result at.new }
{
    let mut ahead = Ahead::new(at.fork());
    let call = call_ahead(alloc, &mut ahead)?;
    *at = ahead.into_cursor();
    Ok(call)
}

/// Parses the next macro call. After an error the cursor may be anywhere.
#[tactic(auto, unfolding(lay_node::specs::reader::Call::call))]
pub fn call_ahead(alloc: Global, at: &mut Ahead<'_>) -> Result<MacroCall, ReadNone>
    ensures { IsGot (reader.call at.old) result at.new }
{
    let path = read_simple_path(alloc, at)?;
    if !takes_op(at, b"!") {
        return Err(ReadNone::NoReading);
    }
    let tokens = read_group(alloc, at)?;
    Ok(MacroCall { path, tokens })
}

/// Moves past the end of an item that is a macro call or a macro definition: after braces nothing,
/// else a `;`. Says whether it was there.
pub fn takes_end(at: &mut Ahead<'_>, delim: Delim) -> bool
    ensures { (if result then Some at.new else None) ≡ reader.behind_end delim at.old }
{
    match delim {
        Delim::Paren => takes_mark(at, b";"),
        Delim::Bracket => takes_mark(at, b";"),
        Delim::Brace => true,
    }
}
