//! Forms: the notation that the grammar is written in, and the theorems about it.
//!
//! A `Form` lists the parts of a node in order: words, tokens of the tree, breaks, groups, lists in
//! delimiters. Everything else follows from it: the tokens that spell the node at a depth
//! (`Spelled`), its document (`Layout`), the stream of layout tokens that a printer is fed
//! (`Stream`), the depth that it needs (`Depth`), and whether its tokens are pieces of their kinds
//! (`Pieces`). `BracedEnds` says what ends within braces that aren't in the tree. `Notation` builds
//! lists, bodies, fields and braces of forms. `LastParts` says what may follow an optional last
//! part that is left out. A form knows nothing of trees: each node has its form in `lay_node` or
//! `lay_code`. [`form_law`] says what holds of all forms.
#![tactic(auto)]

ghost use Rattle.std.specs.Prelude.{◌≡◌, ◌≤◌, ℕ, List};
ghost use Rattle.lay_form.specs.BracedEnds.{EndsBraced};
ghost use Rattle.lay_form.specs.Depth.{least_depth};
ghost use Rattle.lay_form.specs.Form.{Form};
ghost use Rattle.lay_form.specs.Layout.{document};
ghost use Rattle.lay_form.specs.Spelled.{Spells};
ghost use Rattle.lay_form.specs.Stream.{stream_of};
ghost use Rattle.lay_layout.specs.Document.{stream};
ghost use Rattle.lay_token.specs.declared.token.Token.{Token};

/// The theorem about forms. (No code runs.) A form is spelled at no depth below its least one, and
/// what is spelled at a depth is spelled at each greater one. What ends within braces that aren't
/// in the tree is spelled so at each greater depth too. The stream of a form is the flattening of
/// its document.
pub fn form_law()
    ensures least { (f : Form) (depth : ℕ) (ts rest : List Token)
        → Spells f depth ts rest → least_depth f ≤ depth }
    ensures deeper { (f : Form) (depth more : ℕ) (ts rest : List Token)
        → depth ≤ more → Spells f depth ts rest → Spells f more ts rest }
    ensures braced { (f : Form) (depth : ℕ) (ts rest : List Token) → EndsBraced f depth ts rest
        → Spells f depth ts rest }
    ensures braced_deeper { (f : Form) (depth more : ℕ) (ts rest : List Token)
        → depth ≤ more → EndsBraced f depth ts rest → EndsBraced f more ts rest }
    ensures stream { (f : Form) → stream (document f) ≡ stream_of f }
{}
