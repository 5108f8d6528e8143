//! The cursor that readers use: tokens of a text that was lexed.
ghost use Rattle.std.specs.Prelude.{◌≡◌, ◌↔◌, ◌<◌, ◌≤◌, ◌++◌, IsTrue, IsUtf8, IfSome, MatchOption, drop, length, option_copied, slice_get};
ghost use Rattle.lay_cook.specs.Cooking.{IsString};
ghost use Rattle.lay_nest.specs.Groups.{AreTree, Grouped, begins_group, begins_tree};
ghost use Rattle.lay_token.specs.Operators.{is_op};
ghost use Rattle.lay_read_tokens.specs.Answers.{AreLexed};

use lay_nest::Cursor;
use lay_token::Token;
use std::marker::Model;

/// A cursor over lexed tokens. Contracts see it as the list of the tokens ahead, each of which is a
/// piece of its kind.
#[derive(Debug, Drop)]
pub struct Ahead<'a> {
    at: Cursor<'a>,
}

impl<'a> Model for Ahead<'a> {
    ghost use Rattle.std.specs.Prelude.{IsTrue, List as Items};
    ghost use Rattle.lay_token.specs.declared.token.Token.{Token as TokenValue};
    ghost use Rattle.lay_node.specs.tokens.Texts.{are_texts};

    ghost Value = { Items TokenValue };

    ghost view = { λ ahead. ahead.at };

    ghost invariant = { λ ahead. IsTrue (are_texts ahead.at) };
}

impl<'a> Ahead<'a> {
    /// A reader's cursor at the same place.
    pub fn new(at: Cursor<'a>) -> Ahead<'a>
        requires { AreLexed at }
        ensures { result ≡ at.entry }
    {
        Ahead { at }
    }

    /// The plain cursor at the same place.
    pub fn into_cursor(self) -> Cursor<'a>
        ensures { result ≡ self.entry }
    {
        self.at
    }

    /// A second cursor at the same place.
    pub fn fork(&self) -> Ahead<'a>
        ensures { result ≡ self.now }
    {
        Ahead { at: self.at.fork() }
    }

    /// The token after `ahead` others, or `None` if there is none.
    pub fn peek(&self, ahead: usize) -> Option<&'a Token>
        ensures token { option_copied result ≡ slice_get self.now ahead }
        ensures within { MatchOption result (length self.now ≤ ahead)
            (λ _. ahead < length self.now) }
    {
        self.at.peek(ahead)
    }

    /// The next token. Its text is UTF-8, and if it is a string literal, it is a whole one.
    pub fn front(&self) -> Option<&'a Token>
        ensures token { option_copied result ≡ slice_get self.now 0 }
        ensures text { IfSome result (λ token. IsUtf8 token.now.text) }
        ensures string { IfSome result (λ token. IsString token.now) }
    {
        self.at.peek(0)
    }

    /// Whether no token is ahead.
    pub fn is_end(&self) -> bool
        ensures { IsTrue result ↔ length self.now ≡ 0 }
    {
        self.at.is_end()
    }

    /// Whether the next tokens are this operator, and no longer one.
    pub fn op_is(&self, op: &[u8]) -> bool
        ensures { result ≡ is_op op.now self.now }
    {
        self.at.op_is(op)
    }

    /// Moves past one token. Past an opener it moves into the group.
    pub fn step(&mut self)
        requires { 0 < length self.old }
        ensures { self.new ≡ drop 1 self.old }
    {
        self.at.step();
    }

    /// Moves past the next group, and gives a cursor over what is between its delimiters.
    pub fn group(&mut self) -> Ahead<'a>
        requires { IsTrue (begins_group self.old) }
        ensures { Grouped self.old result self.new }
    {
        Ahead {
            at: self.at.group(),
        }
    }

    /// Moves past the next token tree, and gives its tokens: one token, or a group with its
    /// delimiters.
    pub(crate) fn tree(&mut self) -> &'a [Token]
        requires { IsTrue (begins_tree self.old) }
        ensures whole { self.old ≡ result.now ++ self.new }
        ensures tree { AreTree result.now }
        ensures some { 0 < length result.now }
    {
        self.at.tree()
    }

    /// The tokens ahead.
    pub fn as_slice(&self) -> &'a [Token]
        ensures { result.now ≡ self.now }
    {
        self.at.as_slice()
    }
}
