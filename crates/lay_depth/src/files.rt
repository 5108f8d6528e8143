//! The depth of files.
ghost use Rattle.std.specs.Prelude.{◌≡◌};
ghost use Rattle.lay_form.specs.Depth.{least_depth};
ghost use Rattle.lay_code.specs.nodes.File.{form_of_file};
ghost use Rattle.lay_depth.specs.nodes.Depths.{counted};

use crate::items::items_depth;
use lay_code::File;

/// The depth of a file: that of its deepest item, or 0 if it has none; at most `u32::MAX`.
pub fn file_depth(file: &File) -> u32
    ensures { result ≡ counted (least_depth (form_of_file file.now)) }
{
    items_depth(file.items.as_slice())
}
