//! Which trees can be written as files.
ghost use Rattle.std.specs.Prelude.{◌↔◌, ◌≤◌, IfOk, IsTrue};
ghost use Rattle.lay_form.specs.Depth.{least_depth};
ghost use Rattle.lay_code.specs.nodes.File.{form_of_file};
ghost use Rattle.lay_code.specs.Reading.{top};
ghost use Rattle.lay_code.specs.Written.{Written};

use lay_depth::file_depth;
use lay_files::{DEPTH, FileError, read_within, text_of};
use lay_token::NoMemory;
use lay_tree::{File, same};
use std::alloc::Global;

/// Whether the file can be written: it is normal, each of its nodes meets the conditions of its
/// form, each name, word and literal is a piece of its kind, and it is no deeper than files may be.
/// So some text parses to it, and its layout gives such a text.
///
/// If the file is too deep, the answer is `false`. Otherwise it is laid out, whatever it holds. Its
/// text is parsed within its own depth, and the result is compared with it: a file that can be
/// written parses back, and what was parsed can be written. This takes time and memory in
/// proportion to the text, and stack for the depth of the file: its names may spell something
/// deeper, which is refused at that depth.
pub fn is_written(alloc: Global, file: &File) -> Result<bool, NoMemory>
    ensures { IfOk result (λ answer. IsTrue answer
        ↔ (Written file.now × (least_depth (form_of_file file.now) ≤ top))) }
{
    let depth = file_depth(file);
    if depth > DEPTH {
        return Ok(false);
    }
    let text = text_of(alloc, file)?;
    match read_within(alloc, text.as_bytes(), depth) {
        Ok(read) => Ok(same(&read, file)),
        Err(FileError::Refused { .. }) => Ok(false),
        Err(FileError::NoMemory) => Err(NoMemory),
    }
}
