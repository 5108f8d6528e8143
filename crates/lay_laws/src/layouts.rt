//! The theorem about the layout of every file that can be written. (No code runs.)
ghost use Rattle.lay_layout.specs.Document.{stream};
ghost use Rattle.lay_code.specs.Out.{layout_of_file};
ghost use Rattle.lay_code.specs.Written.{Written};
ghost use Rattle.lay_code.specs.declared.file.File.{File};
ghost use Rattle.lay_printer.specs.Promises.{AreFull};

/// No text in the layout of a file is empty. So `blanks_law` of `lay_printer` applies: what is
/// printed of a file ends in a blank only if the last printed text does.
pub fn full_law()
    ensures { (file : File) → Written file → AreFull (stream (layout_of_file file)) }
{}
