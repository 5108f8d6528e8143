//! Balanced tokens, with the partner of each delimiter.
ghost use Rattle.std.specs.Prelude.{◌≡◌, ◌⊎◌, ℕ, Ok, Err};
ghost use Rattle.lay_text.specs.declared.refusal.Refusal.TheVariants as refusal;
ghost use Rattle.lay_token.specs.Delimiters.{Balanced, UnbalancedAt};
ghost use Rattle.lay_nest.specs.Nested.{NestedAs};

use crate::cursor::Cursor;
use crate::partners::spans_of;
use lay_token::{FormatError, List, Token};
use std::alloc::Global;
use std::marker::Model;

/// Tokens whose delimiters are balanced, with the partner of each. Contracts see the tokens only.
#[derive(Debug, Drop)]
pub struct Nested {
    tokens: List<Token>,
    /// For each token: the number of tokens between it and its partner if it is an opener, else 0.
    spans: List<usize>,
}

impl Model for Nested {
    ghost use Rattle.std.specs.Prelude.{List as Items};
    ghost use Rattle.lay_token.specs.declared.token.Token.{Token as TokenValue};
    ghost use Rattle.lay_nest.specs.Spans.{Spanned};

    ghost Value = { Items TokenValue };

    ghost view = { λ nested. nested.tokens };

    ghost invariant = { λ nested. Spanned nested.tokens nested.spans };
}

impl Nested {
    /// A cursor before the first token.
    pub fn cursor(&self) -> Cursor<'_>
        ensures tokens { result ≡ self.now }
        ensures balanced { Balanced self.now }
    {
        Cursor::new(self.tokens.as_slice(), self.spans.as_slice())
    }
}

/// Finds the partner of each delimiter (Rust Reference, "Macros": token trees).
///
/// The only syntax error is `Unbalanced`, at the first closer that isn't the partner of the last
/// opener that is open; without such a closer, at the last opener that is never closed.
pub fn nest(alloc: Global, tokens: List<Token>) -> Result<Nested, FormatError>
    ensures answer { NestedAs tokens result }
    ensures balanced { Balanced tokens → (result ≡ Ok tokens)
        ⊎ (result ≡ Err FormatError.NoMemory) }
    ensures unbalanced { (at : ℕ) → UnbalancedAt tokens at
        → (result ≡ Err (FormatError.Refused (refusal.Unbalanced at)))
        ⊎ (result ≡ Err FormatError.NoMemory) }
{
    match spans_of(alloc, tokens.as_slice()) {
        Ok(spans) => Ok(Nested { tokens, spans }),
        Err(error) => Err(error),
    }
}
