//! The units of a spelling: what the map from output to source pairs.
//!
//! A form may be spelled in several ways, and what one of them has and another hasn't is in no
//! unit: the last comma of a list, a `;` that is dropped, braces round the body of an arm or of a
//! closure that aren't in the tree. Each other token is a unit, and documentation is one, however
//! it is spelled. [`units_law`] says what holds of them.

ghost use Rattle.std.specs.Prelude.{◌≡◌, ℕ, List, [], true};
ghost use Rattle.lay_form.specs.Form.{Form};
ghost use Rattle.lay_form.specs.Spelled.{Spells};
ghost use Rattle.lay_token.specs.declared.token.Token.{Token};
ghost use Rattle.lay_map.specs.spelling.Choice.{chosen, clear, is_level};
ghost use Rattle.lay_map.specs.spelling.Units.{AreSingle, said, units, words};

/// The theorem about units. (No code runs.) What units say depends on the form only, not on how it
/// is spelled. So two spellings of a form have equally many units, which say the same. If the form
/// is clear, they are found by searching for the first match of what they say.
pub fn units_law()
    ensures told { (f : Form) (depth : ℕ) (ts rest : List Token) → AreSingle ts
        → (s : Spells f depth ts rest) → said (units f depth ts rest s) ≡ words f }
    ensures same { (f : Form) (depth other : ℕ) (ts us rest end : List Token) → AreSingle ts
        → AreSingle us → (s : Spells f depth ts rest) → (z : Spells f other us end)
        → said (units f depth ts rest s) ≡ said (units f other us end z) }
    ensures first { (f : Form) (depth : ℕ) (ts : List Token) → AreSingle ts → clear f [] true ≡ true
        → is_level (words f) ≡ true
        → (s : Spells f depth ts []) → chosen 0 [] (words f) ts ≡ units f depth ts [] s }
{}
