//! A cursor over nested tokens.
ghost use Rattle.std.specs.Prelude.{◌≡◌, ◌↔◌, ◌<◌, ◌≤◌, ◌++◌, ◌∷◌, List, IsTrue, length, drop, slice_get, option_copied, MatchOption};
ghost use Rattle.lay_token.specs.Operators.{is_op};
ghost use Rattle.lay_nest.specs.Ahead.{SpannedAhead};
ghost use Rattle.lay_token.specs.Delimiters.{is_opener};
ghost use Rattle.lay_nest.specs.Groups.{AreTree, BehindTree, Grouped, begins_group, begins_tree};

use crate::operator::is_op;
use lay_token::{Kind, Token};
use std::marker::Model;

/// A cursor over tokens. Contracts see it as the list of the tokens ahead. It allocates nothing.
#[derive(Debug, Drop)]
pub struct Cursor<'a> {
    tokens: &'a [Token],
    /// For each token ahead: the number of tokens between it and its partner if it is an opener,
    /// else 0.
    spans: &'a [usize],
}

impl<'a> Model for Cursor<'a> {
    ghost use Rattle.std.specs.Prelude.{List as Items};
    ghost use Rattle.lay_token.specs.declared.token.Token.{Token as TokenValue};
    ghost use Rattle.lay_nest.specs.Ahead.{SpannedAhead};

    ghost Value = { Items TokenValue };

    ghost view = { λ cursor. cursor.tokens.now };

    ghost invariant = { λ cursor. SpannedAhead cursor.tokens.now cursor.spans.now };
}

impl<'a> Cursor<'a> {
    /// A cursor before the first of these tokens; `spans` has the distance of each opener to its
    /// partner.
    pub(crate) fn new(tokens: &'a [Token], spans: &'a [usize]) -> Cursor<'a>
        requires { SpannedAhead tokens.now spans.now }
        ensures { result ≡ tokens.now }
    {
        Cursor { tokens, spans }
    }

    /// A second cursor at the same place.
    pub fn fork(&self) -> Cursor<'a>
        ensures { result ≡ self.now }
    {
        Cursor {
            tokens: self.tokens,
            spans: self.spans,
        }
    }

    /// The token after `ahead` others, or `None` if there is none.
    pub fn peek(&self, ahead: usize) -> Option<&'a Token>
        ensures token { option_copied result ≡ slice_get self.now ahead }
        ensures within { MatchOption result (length self.now ≤ ahead)
            (λ _. ahead < length self.now) }
    {
        self.tokens.get(ahead)
    }

    /// Whether no token is ahead.
    pub fn is_end(&self) -> bool
        ensures { IsTrue result ↔ length self.now ≡ 0 }
    {
        self.tokens.is_empty()
    }

    /// Whether the next tokens are this operator: the longest that they begin with (Rust Reference,
    /// "Punctuation").
    pub fn op_is(&self, op: &[u8]) -> bool
        ensures { result ≡ is_op op.now self.now }
    {
        is_op(self.tokens, op)
    }

    /// Moves past one token. Past an opener it moves into the group, whose closer is then ahead as
    /// any other token.
    pub fn step(&mut self)
        requires { 0 < length self.old }
        ensures { self.new ≡ drop 1 self.old }
    {
        self.tokens = behind_first(self.tokens);
        self.spans = behind_first(self.spans);
    }

    /// Moves past the next group, and gives a cursor over what is between its delimiters.
    pub fn group(&mut self) -> Cursor<'a>
        requires { IsTrue (begins_group self.old) }
        ensures { Grouped self.old result self.new }
    {
        let span = self.spans[0];
        let (tokens, tokens_behind) = split_group(self.tokens, span);
        let (spans, spans_behind) = split_group(self.spans, span);
        self.tokens = tokens_behind;
        self.spans = spans_behind;
        Cursor { tokens, spans }
    }

    /// Moves past the next token tree and gives its tokens: one token, or a group with its
    /// delimiters (Rust Reference, "Macros": token trees).
    pub fn tree(&mut self) -> &'a [Token]
        requires { IsTrue (begins_tree self.old) }
        ensures whole { self.old ≡ result.now ++ self.new }
        ensures tree { AreTree result.now }
        ensures some { 0 < length result.now }
    {
        let tokens = self.as_slice();
        self.pass_tree();
        &tokens[..tokens.len() - self.as_slice().len()]
    }

    /// Moves past the next token tree.
    fn pass_tree(&mut self)
        requires { IsTrue (begins_tree self.old) }
        ensures { BehindTree self.old self.new }
    {
        if is_opener(&self.tokens[0]) {
            self.group();
        } else {
            self.step();
        }
    }

    /// The tokens ahead.
    pub fn as_slice(&self) -> &'a [Token]
        ensures { result.now ≡ self.now }
    {
        self.tokens
    }
}

/// Whether the token opens a group.
fn is_opener(token: &Token) -> bool
    ensures { result ≡ is_opener token.now.kind }
{
    matches!(token.kind, Kind::Opener(_))
}

/// The items without the first.
fn behind_first<T>(items: &[T]) -> &[T]
    requires { 0 < length items.now }
    ensures { result.now ≡ drop 1 items.now }
{
    &items[1..]
}

/// The items between the delimiters of the leading group, which has this span, and the items after
/// the group.
fn split_group<T>(items: &[T], span: usize) -> (&[T], &[T])
    requires { (opener closer : T) × (inside : List T) × (behind : List T)
        × (items.now ≡ opener ∷ (inside ++ closer ∷ behind)) × (span ≡ length inside) }
    ensures { (opener closer : T) (inside behind : List T)
        → items.now ≡ opener ∷ (inside ++ closer ∷ behind) → span ≡ length inside
        → (result.0.now ≡ inside) × (result.1.now ≡ behind) }
{
    let (inside, behind) = behind_first(items).split_at(span);
    (inside, behind_first(behind))
}
