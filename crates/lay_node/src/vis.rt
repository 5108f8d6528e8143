//! Visibilities.
use crate::simple_path::SimplePath;

/// The visibility of an item or a field (Rust Reference, "Visibility and privacy").
#[derive(Debug, Drop)]
pub enum Vis {
    /// None written: private, or as visible as the trait or the enumeration around it.
    Inherited,
    /// `pub`
    Public,
    /// `pub(crate)`
    Crate,
    /// `pub(self)`
    Own,
    /// `pub(super)`
    Super,
    /// `pub(in a::b)`
    In(SimplePath),
}
