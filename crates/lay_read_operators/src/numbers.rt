//! Lookahead: tuple indices.
ghost use Rattle.std.specs.Prelude.{◌≡◌, IsUtf8};
ghost use Rattle.std.specs.Str.{chars};
ghost use Rattle.lay_piece.specs.Number.{is_index};
ghost use Rattle.lay_node.specs.Ahead.{first};
ghost use Rattle.lay_code.specs.reader.Exprs as reader;

use lay_node::are_digits;
use lay_read_tokens::Ahead;
use lay_read_tokens::front::takes_op;
use lay_token::Kind;

/// Whether a tuple index comes next.
pub fn is_at_tuple_index(at: &Ahead<'_>) -> bool
    ensures { result ≡ first reader.is_index_token at.now }
{
    match at.front() {
        Some(token) => matches!(token.kind, Kind::Int) && is_index(token.text.as_bytes()),
        None => false,
    }
}

/// Whether a `.` and then a tuple index come next.
pub fn begins_tuple_index(at: &Ahead<'_>) -> bool
    ensures { result ≡ reader.begins_tuple_index at.now }
{
    let mut behind = at.fork();
    takes_op(&mut behind, b".") && is_at_tuple_index(&behind)
}

/// Whether the text is digits and nothing more.
#[tactic(auto, using(crate::proofs::Digits::index_chars, crate::proofs::Digits::index_some))]
fn is_index(text: &[u8]) -> bool
    requires { IsUtf8 text.now }
    ensures { result ≡ is_index (chars text.now) }
{
    match text {
        [] => false,
        _ => are_digits(text),
    }
}
