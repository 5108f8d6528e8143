//! Tokens of a text.
ghost use Rattle.std.specs.Prelude.{◌≡◌, ℕ, List};
ghost use Rattle.lay_token.specs.Lexes.{Lexes, NoTokenAt};
ghost use Rattle.lay_token.specs.declared.token.Token.{Token};

pub use lay_piece::{Delim, Kind};
use lay_text::Text;

/// One token of a text.
#[derive(Debug, Drop)]
pub struct Token {
    pub kind: Kind,
    /// Whether this token and the next are punctuation with no gap between them, and neither is `,`
    /// or `;`.
    pub joint: bool,
    /// The piece as it is written; but a raw identifier without its `r#`, and documentation without
    /// its marks, of which a line has no blanks at its end either.
    pub text: Text,
    /// Where the piece begins: a byte offset in the text.
    pub at: usize,
    /// The length of the piece in bytes.
    pub len: usize,
}

/// A text lexes to at most one list of tokens, or there is no token at one place at most, and never
/// both. (No code runs.)
pub fn tokens_law()
    ensures one_list { (bytes : List ℕ) (start : ℕ) (tokens others : List Token)
        → Lexes bytes start tokens → Lexes bytes start others → tokens ≡ others }
    ensures one_place { (bytes : List ℕ) (start at other : ℕ)
        → NoTokenAt bytes start at → NoTokenAt bytes start other → at ≡ other }
    ensures never_both { (bytes : List ℕ) (start at : ℕ) (tokens : List Token)
        → NoTokenAt bytes start at → Lexes bytes start tokens → ⊥ }
{}
