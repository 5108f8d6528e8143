//! Fields, and the variants of enumerations.
use crate::attr::Attr;
use crate::token::Name;
use crate::tokens::Tokens;
use crate::types::Ty;
use crate::vis::Vis;
use lay_token::List;

/// The fields of a struct or of a variant (Rust Reference, "Structs", "Enumerations").
#[derive(Drop)]
pub enum Fields {
    /// Nothing.
    Unit,
    /// `(pub A, B)`
    Tuple { fields: List<TupleField> },
    /// `{ pub a: A, b: B }`
    Named { fields: List<Field> },
}

/// A field without a name. After `pub` its type is not `(crate)`, `(self)` or `(super)`, which
/// would be read as part of the visibility.
#[derive(Drop)]
pub struct TupleField {
    pub attrs: List<Attr>,
    pub vis: Vis,
    pub ty: Ty,
}

/// A field with a name.
#[derive(Drop)]
pub struct Field {
    pub attrs: List<Attr>,
    pub vis: Vis,
    pub name: Name,
    pub ty: Ty,
}

/// A variant of an enumeration.
#[derive(Drop)]
pub struct Variant {
    pub attrs: List<Attr>,
    pub vis: Vis,
    pub name: Name,
    pub fields: Fields,
    /// ` = 1`, with at least one token, and without a `,` outside its groups
    pub discriminant: Option<Tokens>,
}
