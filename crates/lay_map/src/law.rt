//! The theorems about the map. (No code runs.)
ghost use Rattle.std.specs.Prelude.{◌≡◌, Bool, ℕ, List, [], false, length, map, true};
ghost use Rattle.lay_code.specs.Reading.{top};
ghost use Rattle.lay_code.specs.Written.{Written};
ghost use Rattle.lay_code.specs.declared.file.File.{File};
ghost use Rattle.lay_code.specs.nodes.File.{form_of_file};
ghost use Rattle.lay_form.specs.Form.{Form};
ghost use Rattle.lay_form.specs.Pieces.{are_pieces};
ghost use Rattle.lay_form.specs.Spelled.{Spells};
ghost use Rattle.lay_form.specs.Stream.{stream_of};
ghost use Rattle.lay_token.specs.declared.token.Token.{Token};
ghost use Rattle.lay_map.specs.spelling.Choice.{clear, is_level};
ghost use Rattle.lay_map.specs.spelling.Units.{AreSingle, said, units, words};
ghost use Rattle.lay_read_tokens.specs.Answers.{AreLexed};
ghost use Rattle.lay_map.specs.Flow.{At, Still, flow};
ghost use Rattle.lay_map.specs.Marking.{begun, fed_all, units_of};
ghost use Rattle.lay_map.specs.Places.{place_of};

/// If a form is `clear`, and its layout tells which of its commas count, then matching the tokens
/// against the layout's stream finds exactly the form's units.
pub fn found_law()
    ensures { (f : Form) (depth : ℕ) (ts : List Token) (arrow : Bool) → AreSingle ts
        → clear f [] true ≡ true → is_level (words f) ≡ true
        → are_pieces f ≡ true → flow (At Still false) f ≡ At Still arrow
        → (s : Spells f depth ts [])
        → units_of (fed_all (stream_of f) (begun ts false)) ≡ map place_of (units f depth ts [] s) }
{}

/// Two lists of tokens that spell the same file have equally many units, and these have the same
/// content in order. If one list spells a file in two ways, its units are at the same places.
pub fn map_law()
    ensures said { (file : File) (ts us : List Token) → AreLexed ts → AreLexed us
        → (s : Spells (form_of_file file) top ts []) → (z : Spells (form_of_file file) top us [])
        → said (units (form_of_file file) top ts [] s)
        ≡ said (units (form_of_file file) top us [] z) }
    ensures number { (file : File) (ts us : List Token) → AreLexed ts → AreLexed us
        → (s : Spells (form_of_file file) top ts []) → (z : Spells (form_of_file file) top us [])
        → length (units (form_of_file file) top ts [] s)
        ≡ length (units (form_of_file file) top us [] z) }
    ensures once { (file : File) (ts : List Token) → Written file → AreLexed ts
        → (s z : Spells (form_of_file file) top ts [])
        → map place_of (units (form_of_file file) top ts [] s)
        ≡ map place_of (units (form_of_file file) top ts [] z) }
{}
