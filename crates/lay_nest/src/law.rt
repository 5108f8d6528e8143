//! The theorem about balanced delimiters.
ghost use Rattle.std.specs.Prelude.{◌≡◌, ◌++◌, ◌∷◌, ℕ, List, IsTrue};
ghost use Rattle.lay_token.specs.Delimiters.{Balanced, UnbalancedAt, is_closer};
ghost use Rattle.lay_token.specs.declared.token.Token.{Token};

/// Tokens are unbalanced at one place at most, and then not balanced. If a list begins with
/// balanced tokens and then a closer, there is only one such place in it (Rust Reference, "Macros":
/// token trees). (No code runs.)
pub fn nesting_law()
    ensures one_place { (tokens : List Token) (at other : ℕ)
        → UnbalancedAt tokens at → UnbalancedAt tokens other → at ≡ other }
    ensures never_both { (tokens : List Token) (at : ℕ) → UnbalancedAt tokens at
        → Balanced tokens → ⊥ }
    ensures one_group { (inside others rest more : List Token) (closer last : Token)
        → IsTrue (is_closer closer.kind) → IsTrue (is_closer last.kind)
        → inside ++ closer ∷ rest ≡ others ++ last ∷ more → Balanced inside → Balanced others
        → (inside ≡ others) × (closer ≡ last) × (rest ≡ more) }
{}
