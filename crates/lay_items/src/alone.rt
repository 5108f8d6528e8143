//! Theorems about layouts line by line: what ends in a hard break outside all groups is laid out by
//! itself. (No code runs.)

ghost use Rattle.std.specs.Prelude.{◌≡◌, ◌++◌, List, flat_map};
ghost use Rattle.lay_form.specs.Form.{Form};
ghost use Rattle.lay_form.specs.Layout.{document};
ghost use Rattle.lay_form.specs.Notation.{lines};
ghost use Rattle.lay_layout.specs.Document.{Document, text_of};
ghost use Rattle.lay_code.specs.Out.{out};
ghost use Rattle.lay_code.specs.declared.file.File.{File};
ghost use Rattle.lay_code.specs.declared.item.Item.{Item};
ghost use Rattle.lay_items.specs.alone.Outputs.{alone, head_text, item_text, item_texts};
ghost use Rattle.lay_items.specs.alone.Lines.{before, ended, line_text};

/// The text of a line before any document is the text of the line and then that of the document. So
/// the text of forms that each end a line is that of each, in order.
pub fn lines_law()
    ensures one { (d e : Document) → text_of (before (ended d) e) ≡ text_of (ended d) ++ text_of e }
    ensures all { (es : List Form) → text_of (document (lines es)) ≡ flat_map line_text es }
    ensures two { (es fs : List Form) → text_of (document (lines (es ++ fs)))
        ≡ text_of (document (lines es)) ++ text_of (document (lines fs)) }
{}

/// The text of a file is that of its beginning, and then those of its items, in order. The text of
/// an item is that of a file with only this item.
pub fn outputs_law()
    ensures whole { (file : File) → out file ≡ head_text file ++ item_texts file }
    ensures one { (item : Item) → out (alone item) ≡ item_text item }
{}
