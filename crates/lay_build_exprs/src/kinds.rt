//! Names with the expression after their `:`.
ghost use Rattle.lay_build_exprs.specs.Kinds as kinds;

use lay_build_types::{Built, Node};
use lay_code::{Expr, Name};

/// A name and the expression after its `:`, as in a struct literal.
#[derive(Drop)]
pub struct NamedExpr {
    pub name: Name,
    pub value: Expr,
}

/// A built field of a struct literal.
pub type BuiltField = Built<NamedExpr>;

impl Node for NamedExpr {
    ghost form = { kinds.form_of_field };

    ghost Holds = { kinds.IsField };
}
