//! Neighbours, with the facts that are asked most computed once.
//!
//! All of it, and the rows that use it, are `#[inline(always)]`: otherwise these values would be
//! built in memory for each token of a list, to be passed by reference.
ghost use Rattle.std.specs.Prelude.{◌≡◌, ◌<◌, [], ◌∷◌};
ghost use Rattle.lay_node.specs.tokens.Pairs as pairs;
ghost use Rattle.lay_out_tokens.specs.Neighbours.{mark_of, neighbour_of, one};

use crate::neighbours::{Neighbour, is_any_word, is_free_word, is_keyword, is_line_doc, is_number};
use lay_node::Listed;
use lay_token::{Delim, Kind};

/// A neighbour, with some facts about it.
#[derive(Clone, Copy)]
pub struct Told<'a> {
    pub neighbour: Neighbour<'a>,
    /// The character of punctuation, else 0.
    pub mark: u8,
    /// Whether it is punctuation.
    pub punct: bool,
    /// Whether it is documentation.
    pub doc: bool,
    /// Whether it is joint with the token that follows.
    pub joint: bool,
    ghost marked: { mark ≡ mark_of (neighbour_of neighbour) },
    ghost puncts: { punct ≡ pairs.is_punct_neighbour (neighbour_of neighbour) },
    ghost documents: { doc ≡ pairs.is_doc (neighbour_of neighbour) },
    ghost joins: { joint ≡ pairs.is_joint_neighbour (neighbour_of neighbour) },
}

impl<'a> Told<'a> {
    /// No neighbour.
    #[inline(always)]
    pub fn nothing() -> Told<'a>
        ensures { neighbour_of result.neighbour ≡ pairs.Nothing }
    {
        Told {
            neighbour: Neighbour::Nothing,
            mark: 0,
            punct: false,
            doc: false,
            joint: false,
        }
    }

    /// A group as a neighbour.
    #[inline(always)]
    pub fn enclosed(delim: Delim) -> Told<'a>
        ensures { neighbour_of result.neighbour ≡ pairs.Enclosed delim }
    {
        Told {
            neighbour: Neighbour::Enclosed(delim),
            mark: 0,
            punct: false,
            doc: false,
            joint: false,
        }
    }

    /// A single token as a neighbour.
    #[inline(always)]
    pub fn single(token: &'a Listed) -> Told<'a>
        ensures { neighbour_of result.neighbour ≡ pairs.Single token.now }
    {
        match token {
            Listed::Token { kind, text, joint } => match kind {
                Kind::Punct => Told {
                    neighbour: Neighbour::Single(token),
                    mark: one(text.as_bytes()),
                    punct: true,
                    doc: false,
                    joint: *joint,
                },
                _ => Told {
                    neighbour: Neighbour::Single(token),
                    mark: 0,
                    punct: false,
                    doc: false,
                    joint: *joint,
                },
            },
            Listed::Doc { .. } => Told {
                neighbour: Neighbour::Single(token),
                mark: 0,
                punct: false,
                doc: true,
                joint: false,
            },
        }
    }

    /// Whether there is none.
    #[inline(always)]
    pub fn is_nothing(&self) -> bool
        ensures { result ≡ pairs.is_nothing (neighbour_of self.now.neighbour) }
    {
        matches!(self.neighbour, Neighbour::Nothing)
    }

    /// Whether it is punctuation with this character.
    #[inline(always)]
    pub fn is_mark(&self, character: u8) -> bool
        requires { 0 < character }
        ensures { result ≡ pairs.is_mark (character ∷ []) (neighbour_of self.now.neighbour) }
    {
        self.mark == character
    }

    /// Whether it is joint with the token that follows.
    #[inline(always)]
    pub fn is_joint(&self) -> bool
        ensures { result ≡ pairs.is_joint_neighbour (neighbour_of self.now.neighbour) }
    {
        self.joint
    }

    /// Whether it is punctuation with this character, and joint with the token that follows.
    #[inline(always)]
    pub fn is_joint_mark(&self, character: u8) -> bool
        requires { 0 < character }
        ensures { result ≡ pairs.is_joint_mark (character ∷ []) (neighbour_of self.now.neighbour) }
    {
        self.is_mark(character) && self.is_joint()
    }

    /// Whether it is punctuation.
    #[inline(always)]
    pub fn is_punct(&self) -> bool
        ensures { result ≡ pairs.is_punct_neighbour (neighbour_of self.now.neighbour) }
    {
        self.punct
    }

    /// Whether it is documentation.
    #[inline(always)]
    pub fn is_doc(&self) -> bool
        ensures { result ≡ pairs.is_doc (neighbour_of self.now.neighbour) }
    {
        self.doc
    }

    /// Whether it is laid out as a line comment.
    #[inline(always)]
    pub fn is_line_doc(&self) -> bool
        ensures { result ≡ pairs.is_line_doc (neighbour_of self.now.neighbour) }
    {
        self.doc && self.is_line()
    }

    /// Whether documentation is laid out as a line comment.
    #[inline(always)]
    fn is_line(&self) -> bool
        ensures { result ≡ pairs.is_line_doc (neighbour_of self.now.neighbour) }
    {
        match self.neighbour {
            Neighbour::Single(token) => is_line_doc(token),
            _ => false,
        }
    }

    /// Whether it is an identifier that is no keyword.
    #[inline(always)]
    pub fn is_free_word(&self) -> bool
        ensures { result ≡ pairs.is_free_word (neighbour_of self.now.neighbour) }
    {
        match self.neighbour {
            Neighbour::Single(token) => is_free_word(token),
            _ => false,
        }
    }

    /// Whether it is a keyword.
    #[inline(always)]
    pub fn is_keyword(&self) -> bool
        ensures { result ≡ pairs.is_keyword (neighbour_of self.now.neighbour) }
    {
        match self.neighbour {
            Neighbour::Single(token) => is_keyword(token),
            _ => false,
        }
    }

    /// Whether it is an identifier or a keyword.
    #[inline(always)]
    pub fn is_any_word(&self) -> bool
        ensures { result ≡ pairs.is_any_word (neighbour_of self.now.neighbour) }
    {
        match self.neighbour {
            Neighbour::Single(token) => is_any_word(token),
            _ => false,
        }
    }

    /// Whether it is a number: a Float, or an Int that is no tuple index. `place` says that it
    /// stands where it could be one.
    #[inline(always)]
    pub fn is_number(&self, place: bool) -> bool
        ensures { result ≡ pairs.is_number place (neighbour_of self.now.neighbour) }
    {
        match self.neighbour {
            Neighbour::Single(token) => is_number(token, place),
            _ => false,
        }
    }

    /// Whether it is a group in braces.
    #[inline(always)]
    pub fn is_brace(&self) -> bool
        ensures { result ≡ pairs.is_brace (neighbour_of self.now.neighbour) }
    {
        matches!(self.neighbour, Neighbour::Enclosed(Delim::Brace))
    }

    /// Whether it is a group in brackets.
    #[inline(always)]
    pub fn is_bracket(&self) -> bool
        ensures { result ≡ pairs.is_bracket (neighbour_of self.now.neighbour) }
    {
        matches!(self.neighbour, Neighbour::Enclosed(Delim::Bracket))
    }

    /// Whether it is a group in parentheses.
    #[inline(always)]
    pub fn is_paren(&self) -> bool
        ensures { result ≡ pairs.is_paren (neighbour_of self.now.neighbour) }
    {
        matches!(self.neighbour, Neighbour::Enclosed(Delim::Paren))
    }
}

/// The only byte of a text that has one byte, else 0.
#[inline(always)]
fn one(text: &[u8]) -> u8
    ensures { result ≡ one text.now }
{
    match text {
        [byte] => *byte,
        _ => 0,
    }
}
