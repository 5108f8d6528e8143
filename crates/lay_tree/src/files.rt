//! Equality of files.
ghost use Rattle.std.specs.Prelude.{◌≡◌, ◌↔◌, IsTrue};

use crate::equal::same_items;
use lay_code::File;
use lay_same_nodes::Same;

/// Whether two files are equal: their shebang, their inner attributes, and their items in order.
pub fn same(file: &File, other: &File) -> bool
    ensures { IsTrue result ↔ file.now ≡ other.now }
{
    file.shebang.same(&other.shebang)
        && file.attrs.same(&other.attrs)
        && same_items(file.items.as_slice(), other.items.as_slice())
}
