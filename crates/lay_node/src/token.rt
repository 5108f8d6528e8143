//! The tokens that trees hold: names, words, lifetimes, literals, and the tokens of token lists.
ghost use Rattle.std.specs.Prelude.{◌≡◌};
ghost use Rattle.std.specs.Char.{is_ascii_digit};
ghost use Rattle.std.specs.List.{list_all};

use lay_token::{Kind, Text};

/// A name: an identifier that is no keyword, or a raw identifier. The text has no `r#`.
#[derive(Debug, Drop)]
pub struct Name {
    pub raw: bool,
    pub text: Text,
}

/// A name, or `_` in its place.
#[derive(Debug, Drop)]
pub enum GivenName {
    Name(Name),
    /// `_`
    Underscore,
}

/// A word of a path: a name, or `crate`, `self`, `super` or `Self`.
#[derive(Debug, Drop)]
pub struct Word {
    pub raw: bool,
    pub text: Text,
}

/// A token of a token list. The tree doesn't keep its place in the text, nor whether documentation
/// was a block.
#[derive(Debug, Drop)]
pub enum Listed {
    /// Any token but documentation. `joint`: another punctuation token follows directly.
    Token { kind: Kind, text: Text, joint: bool },
    /// Documentation.
    Doc { inner: bool, text: Text },
}

/// A lifetime, with its `'` (Rust Reference, "Lifetimes and loop labels").
#[derive(Drop)]
pub struct Lifetime {
    pub text: Text,
}

/// A literal token, or `true` or `false`, which are identifiers (Rust Reference, "Literal
/// expressions").
#[derive(Drop)]
pub struct Literal {
    pub kind: Kind,
    pub text: Text,
}

/// Whether each byte of the text is a decimal digit, as in the index of a tuple field (Rust
/// Reference, "Tuple index"). True of an empty text.
pub fn are_digits(text: &[u8]) -> bool
    ensures { result ≡ list_all is_ascii_digit text.now }
{
    for byte in text {
        if !byte.is_ascii_digit() {
            return false;
        }
    }
    true
}
