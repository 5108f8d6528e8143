//! The node of a source file.
use crate::item::Item;
use lay_node::Attr;
use lay_token::{List, Text};

/// A source file (Rust Reference, "Crates and source files").
#[derive(Drop)]
pub struct File {
    /// The shebang line, without its line end.
    pub shebang: Option<Text>,
    /// The inner attributes of the file.
    pub attrs: List<Attr>,
    pub items: List<Item>,
}
