//! The loop over consecutive parts, which is given a reader of parts.
ghost use Rattle.std.specs.Prelude.{◌≡◌, ◌≤◌, ◌++◌, ◌∷◌, [], IfErr, IfOk, MatchResult};
ghost use Rattle.lay_node.specs.reader.Loops.{repeat};
ghost use Rattle.lay_code.specs.reader.Exprs.{begins_else_if};
ghost use Rattle.lay_read_tokens.specs.Answers.{AreFound, IsHeld};
ghost use Rattle.lay_read_parts.specs.Answers.{ReadsParts};
ghost use Rattle.lay_read_shared.specs.Loops.{goes_on};

use lay_ops::ahead::{begins_step, strength};
use lay_read_parts::loops::Part;
use lay_read_tokens::found::greater;
use lay_read_tokens::front::{has_items, is_at_keyword, takes_keyword};
use lay_read_tokens::stop::keep;
use lay_read_tokens::{Ahead, Found, ReadNone};
use lay_token::List;
use std::alloc::Global;

/// A list that goes on as long as a further part begins.
#[derive(Clone, Copy)]
pub enum Going {
    /// Postfix steps.
    Steps,
    /// Operators of this precedence level with their operands.
    Operands(u8),
    /// Types after `as`.
    Types,
    /// Statements or items, up to the `}`.
    Items,
    /// Branches after `else if`.
    ElseIfs,
}

/// Whether `else if` comes next.
fn begins_else_if(at: &Ahead<'_>) -> bool
    ensures { result ≡ begins_else_if at.now }
{
    let mut behind = at.fork();
    takes_keyword(&mut behind, b"else") && is_at_keyword(&behind, b"if")
}

/// Whether a further part begins with the next tokens.
fn goes_on(at: &Ahead<'_>, going: Going) -> bool
    ensures { result ≡ goes_on going at.now }
{
    match going {
        Going::Steps => begins_step(at),
        Going::Operands(level) => strength(at) as u16 == level as u16 + 1,
        Going::Types => is_at_keyword(at, b"as"),
        Going::Items => has_items(at),
        Going::ElseIfs => begins_else_if(at),
    }
}

/// Appends the part to `nodes`, and gives the depth that it needs. It is a function of its own, so
/// that the loop's frame has no room for these moves while a part is read.
#[inline(never)]
fn keep_part<T: Drop>(
    nodes: &mut List<T>,
    part: Result<Found<T>, ReadNone>,
) -> Result<u32, ReadNone>
    ensures ok { IfOk result (λ need. MatchResult part
        (λ found. (need ≡ found.need) × (nodes.new ≡ nodes.old ++ found.node ∷ [])) (λ none. ⊥)) }
    ensures err { IfErr result (λ none. MatchResult part (λ found. none ≡ ReadNone.NoMemory)
        (λ stopped. none ≡ stopped)) }
{
    match part {
        Ok(found) => {
            keep(nodes, found.node)?;
            Ok(found.need)
        }
        Err(none) => Err(none),
    }
}

/// Parses parts as long as one begins.
#[inline(never)]
pub fn read_parts<
    P: Part<T, X>,
    R,
    T: Drop,
    X: Copy,
    E: Fn(&R, &mut Ahead<'_>, X) -> Result<Found<T>, ReadNone>,
>(
    alloc: Global,
    at: &mut Ahead<'_>,
    depth: u32,
    going: Going,
    rules: &R,
    part: E,
    place: X,
) -> Result<Found<List<T>>, ReadNone>
    requires { ReadsParts depth rules.now place (P.reads depth place) (E.pre part) (E.post part) }
    ensures read { IsHeld AreFound (repeat (goes_on going) (P.reads depth place) at.old) result
        at.new }
    ensures within { IfOk result (λ found. found.need ≤ depth) }
{
    let mut nodes = List::new(alloc);
    let mut need = 0;
    while goes_on(at, going) {
        let needed = keep_part(&mut nodes, part(rules, at, place))?;
        need = greater(need, needed);
    }
    Ok(Found { node: nodes, need })
}
