//! The theorem about built string literals. (No code runs.)
ghost use Rattle.std.specs.Prelude.{◌≡◌, ℕ, IsTrue, List, Some};
ghost use Rattle.std.specs.Str.{chars, is_utf8};
ghost use Rattle.lay_piece.specs.Value.{value_of};
ghost use Rattle.lay_piece.specs.declared.kind.Kind.TheVariants.{Str};
ghost use Rattle.lay_build_types.specs.Strings.{string_text};

/// The value of the string literal of a text is that text.
pub fn string_law()
    ensures { (text : List ℕ) → IsTrue (is_utf8 text) → value_of Str (chars (string_text text)) ≡ Some (chars text) }
{}
