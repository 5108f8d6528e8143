//! Parsing of literals in patterns, and of range patterns.
ghost use Rattle.std.specs.Prelude.{◌≡◌, ◌+◌, ◌^◌, ◌<◌, ◌≤◌, drop, IfOk};
ghost use Rattle.lay_node.specs.Begins as begins;
ghost use Rattle.lay_node.specs.Follow as follow;
ghost use Rattle.lay_node.specs.reader.Patterns as reader;
ghost use Rattle.lay_node.specs.reader.Types.{within};
ghost use Rattle.lay_read_tokens.specs.Answers.{IsFound, IsGot};

use lay_node::{Pat, PatValue, PathStyle, SpanEnd};
use lay_read_parts::joins::both;
use lay_read_parts::leads::{Lead, is_at_literal, is_at_number, lead_at};
use lay_read_parts::parts::read_literal;
use lay_read_tokens::found::greater;
use lay_read_tokens::front::{is_at_mark, pass, pass_two, takes_mark};
use lay_read_tokens::stop::boxed;
use lay_read_tokens::{Ahead, Found, ReadNone};
use lay_read_types::path_ahead;
use std::alloc::Global;

/// Whether the `..` or `..=` of a range pattern comes next.
pub fn begins_dots(at: &Ahead<'_>) -> bool
    ensures { result ≡ follow.begins_dots at.now }
{
    at.op_is(b"..") || at.op_is(b"..=")
}

/// Whether a literal or a negative number comes next.
pub fn begins_value(at: &Ahead<'_>) -> bool
    ensures { result ≡ begins.begins_value at.now }
{
    is_at_literal(at) || is_at_mark(at, b"-")
}

/// Whether the end of a range pattern comes next.
fn begins_span_end(at: &Ahead<'_>) -> bool
    ensures { result ≡ begins.begins_span_end at.now }
{
    begins_value(at) || matches!(lead_at(at), Some(Lead::Path))
}

/// Moves past three tokens, or as many as there are.
fn pass_three(at: &mut Ahead<'_>)
    ensures { at.new ≡ drop 3 at.old }
{
    pass(at);
    pass_two(at);
}

/// Parses a literal, or a negative number.
#[tactic(auto, using(crate::proofs::Steps::negative_value, crate::proofs::Steps::plain_value))]
fn read_value(alloc: Global, at: &mut Ahead<'_>) -> Result<PatValue, ReadNone>
    ensures { IsGot (reader.value at.old) result at.new }
{
    if takes_mark(at, b"-") {
        let passes = is_at_number(at);
        let literal = read_literal(alloc, at, passes)?;
        Ok(PatValue {
            negative: true,
            literal,
        })
    } else {
        let passes = is_at_literal(at);
        let literal = read_literal(alloc, at, passes)?;
        Ok(PatValue {
            negative: false,
            literal,
        })
    }
}

/// Parses an end of a range pattern.
#[tactic(auto, unfolding(lay_node::specs::reader::Patterns::one_end))]
fn one_end(alloc: Global, at: &mut Ahead<'_>, depth: u32) -> Result<Found<SpanEnd>, ReadNone>
    ensures read { IsFound (reader.one_end (within depth) at.old) result at.new }
    ensures within { IfOk result (λ found. found.need ≤ depth) }
{
    if begins_value(at) {
        let value = read_value(alloc, at)?;
        Ok(Found {
            node: SpanEnd::Value(value),
            need: 0,
        })
    } else {
        let path = path_ahead(alloc, at, PathStyle::Code, depth)?;
        Ok(Found {
            node: SpanEnd::Path(path.node),
            need: path.need,
        })
    }
}

/// Parses the end of a range pattern, after its `..` or `..=`.
fn closed_span(
    alloc: Global,
    at: &mut Ahead<'_>,
    depth: u32,
    start: Found<Option<SpanEnd>>,
    inclusive: bool,
) -> Result<Found<Pat>, ReadNone>
    requires room { depth + 1 < 2 ^ 32 }
    requires within { start.need ≤ depth }
    ensures read { IsFound (reader.closed_span (within depth) start.node start.need inclusive
        at.old) result at.new }
    ensures within { IfOk result (λ found. found.need ≤ depth + 1) }
{
    let (start, end) = both(start, one_end(alloc, at, depth))?;
    let need = greater(start.need, end.need) + 1;
    let (end, start) = both(Some(end.node), boxed(alloc, start.node))?;
    let (start, end) = both(start, boxed(alloc, end))?;
    Ok(Found {
        node: Pat::Span {
            start,
            inclusive,
            end,
        },
        need,
    })
}

/// A `..` that no end follows: a rest pattern, or a range with a start alone.
fn open_span(
    alloc: Global,
    at: &Ahead<'_>,
    start: Found<Option<SpanEnd>>,
) -> Result<Found<Pat>, ReadNone>
    requires { start.need + 1 < 2 ^ 32 }
    ensures read { IsFound (reader.open_span start.node start.need at.now) result at.now }
    ensures within { IfOk result (λ found. found.need ≤ start.need + 1) }
{
    let need = start.need + 1;
    match start.node {
        Some(end) => {
            let start = boxed(alloc, Some(end))?;
            let (start, end) = both(start, boxed(alloc, None))?;
            Ok(Found {
                node: Pat::Span {
                    start,
                    inclusive: false,
                    end,
                },
                need,
            })
        }
        None => Ok(Found {
            node: Pat::Rest,
            need: 1,
        }),
    }
}

/// Parses a range pattern from its `..` or `..=` on, or a rest pattern.
#[tactic(auto, unfolding(lay_node::specs::reader::Patterns::span))]
pub fn span(
    alloc: Global,
    at: &mut Ahead<'_>,
    depth: u32,
    start: Found<Option<SpanEnd>>,
) -> Result<Found<Pat>, ReadNone>
    requires room { depth + 1 < 2 ^ 32 }
    requires within { start.need ≤ depth }
    ensures read { IsFound (reader.span (within depth) start.node start.need at.old) result at.new }
    ensures within { IfOk result (λ found. found.need ≤ depth + 1) }
{
    if at.op_is(b"..=") {
        pass_three(at);
        return closed_span(alloc, at, depth, start, true);
    }
    pass_two(at);
    if begins_span_end(at) {
        closed_span(alloc, at, depth, start, false)
    } else {
        open_span(alloc, at, start)
    }
}

/// Parses a literal, or a range pattern that begins with one.
#[tactic(auto, unfolding(lay_node::specs::reader::Patterns::value_pat))]
pub fn value_pat(alloc: Global, at: &mut Ahead<'_>, depth: u32) -> Result<Found<Pat>, ReadNone>
    requires { depth + 1 < 2 ^ 32 }
    ensures read { IsFound (reader.value_pat (within depth) at.old) result at.new }
    ensures within { IfOk result (λ found. found.need ≤ depth + 1) }
{
    let value = read_value(alloc, at)?;
    if begins_dots(at) {
        let start = Found {
            node: Some(SpanEnd::Value(value)),
            need: 0,
        };
        span(alloc, at, depth, start)
    } else {
        Ok(Found {
            node: Pat::Value { value },
            need: 1,
        })
    }
}
