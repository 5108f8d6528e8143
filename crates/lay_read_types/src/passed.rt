//! Simple paths that are skipped, so that nothing is allocated for them.
ghost use Rattle.std.specs.Prelude.{◌≡◌, is_some};
ghost use Rattle.lay_node.specs.reader.Loops.{repeat};
ghost use Rattle.lay_node.specs.reader.SimplePath.{begins_colons, further_word, simple_path};
ghost use Rattle.lay_node.specs.reader.Words.{word, word_by};
ghost use Rattle.lay_read_types.specs.Passed.{IsPassed};

use lay_read_tokens::Ahead;
use lay_read_tokens::front::{is_at_colons, pass, pass_two, takes_colons};
use lay_token::word::{Class, word_class};
use lay_token::{Kind, Token};

/// Moves past a simple path, if one comes next, and says whether it did. If it didn't, the cursor
/// may be anywhere.
#[tactic(auto, unfolding(lay_node::specs::reader::SimplePath::simple_path))]
pub fn takes_simple_path(at: &mut Ahead<'_>) -> bool
    ensures { IsPassed (simple_path at.old) result at.new }
{
    takes_colons(at);
    takes_word(at) && takes_further_words(at)
}

/// Moves past the words of a simple path after its first, each with the `::` before it.
fn takes_further_words(at: &mut Ahead<'_>) -> bool
    ensures { IsPassed (repeat begins_colons further_word at.old) result at.new }
{
    while is_at_colons(at) {
        if !takes_further_word(at) {
            return false;
        }
    }
    true
}

/// Moves past a `::` and a word.
fn takes_further_word(at: &mut Ahead<'_>) -> bool
    ensures { IsPassed (further_word at.old) result at.new }
{
    pass_two(at);
    takes_word(at)
}

/// Moves past a word of a path.
fn takes_word(at: &mut Ahead<'_>) -> bool
    ensures { IsPassed (word at.old) result at.new }
{
    if is_at_word(at) {
        pass(at);
        true
    } else {
        false
    }
}

/// Whether a word of a path comes next.
#[tactic(auto, unfolding(lay_node::specs::reader::Words::word))]
fn is_at_word(at: &Ahead<'_>) -> bool
    ensures { result ≡ is_some (word at.now) }
{
    match at.peek(0) {
        Some(token) => is_word(token),
        None => false,
    }
}

/// Whether the token is a word of a path.
fn is_word(token: &Token) -> bool
    ensures { result ≡ is_some (word_by token.now.kind token.now.text) }
{
    match token.kind {
        Kind::Ident => matches!(
            word_class(token.text.as_bytes()),
            Class::Plain | Class::PathWord
        ),
        Kind::RawIdent => true,
        _ => false,
    }
}
