//! Names with the type after their `:`.
ghost use Rattle.lay_build.specs.Kinds as kinds;

use lay_build_types::{Built, Node};
use lay_code::{Name, Ty};

/// A name and the type after its `:`, as in a struct or before the body of a function.
#[derive(Drop)]
pub struct NamedType {
    pub name: Name,
    pub ty: Ty,
}

/// A built parameter of a function, or a built field of a struct.
pub type BuiltParam = Built<NamedType>;

impl Node for NamedType {
    ghost form = { kinds.form_of_param };

    ghost Holds = { kinds.IsParam };
}
