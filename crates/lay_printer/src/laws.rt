//! The theorems about a printer at every moment. (No code runs.)
ghost use Rattle.std.specs.Prelude.{◌≡◌, ℕ, ◌≤◌, ◌-◌, ◌%◌, ◌^◌, ◌++◌, List, Option, true, false, length, take};
ghost use Rattle.lay_layout.specs.declared.layout.Tok.{Tok};
ghost use Rattle.lay_layout.specs.Machine.{shown};
ghost use Rattle.lay_printer.specs.Printing.{Printing};
ghost use Rattle.lay_printer.specs.Printers.{Runs, at};
ghost use Rattle.lay_printer.specs.Promises.{AreFull, AreMeasured, InStep, ends_in_blank, last_blank};

/// A printer that took the tokens `s` and hasn't failed, over a sink that had the content
/// `content`.
///
/// It has printed all tokens of `s` but those in its ring; say `j` of them. Whatever tokens `r`
/// follow, the sink has grown by what is shown at token `j`, and the ring holds the tokens from
/// there on, in order. Known sizes are measured widths. The number of the ring's first entry is `j`
/// modulo 2^64.
pub fn fed_law()
    ensures lockstep { (c : Printing) (written : Option (List ℕ)) (content : List ℕ) (s r : List Tok) → Runs c written content s → InStep c.entries c.line written content s r }
    ensures sizes { (c : Printing) (written : Option (List ℕ)) (content : List ℕ) (s : List Tok) → Runs c written content s → AreMeasured c.entries }
    ensures work { (c : Printing) (written : Option (List ℕ)) (content : List ℕ) (s : List Tok) → Runs c written content s → c.first ≡ at s c.entries % 2 ^ 64 }
{}

/// If no text is empty, what is printed ends in a blank only if the last text does. So a newline
/// directly follows a blank only if the blank is a text's own.
pub fn blanks_law()
    ensures { (s r : List Tok) (j : ℕ) → AreFull s → j ≤ length s → ends_in_blank (shown (s ++ r) j) ≡ true → last_blank (take j s) false ≡ true }
{}
