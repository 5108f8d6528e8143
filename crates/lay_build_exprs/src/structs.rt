//! Builders of struct literals and their fields.
ghost use Rattle.std.specs.Prelude.{◌≡◌, max};
ghost use Rattle.lay_build_types.specs.Answers.{Gives, Makes};
ghost use Rattle.lay_build_types.specs.Kinds.{form_of_expr};
ghost use Rattle.lay_build_exprs.specs.Kinds.{form_of_field};
ghost use Rattle.lay_build_exprs.specs.Nodes as node;

use crate::kinds::{BuiltField, NamedExpr};
use lay_build_types::{
    BuildError, BuiltExpr, BuiltName, Turns, boxed, kept, nodes, path, turn_all,
};
use lay_code::{Args, Expr, FieldExpr, Name};
use lay_text::List;
use std::alloc::Global;

/// A field of a struct literal: `a: b`.
pub fn field(name: BuiltName, value: BuiltExpr) -> Result<BuiltField, BuildError>
    ensures { Makes form_of_field (record { name = name; value = value }) result }
{
    let (name, _) = name.into_parts();
    let (value, need) = value.into_parts();
    kept(Ok((NamedExpr { name, value }, need + 1)))
}

/// A struct literal, whose path is these names: `a::B { c: d, e: f }`.
pub fn expr_struct(
    alloc: Global,
    first: BuiltName,
    rest: List<BuiltName>,
    fields: List<BuiltField>,
) -> Result<BuiltExpr, BuildError>
    ensures { Makes form_of_expr (node.expr_struct first rest fields) result }
{
    let (first, _) = first.into_parts();
    let (rest, _) = nodes(alloc, rest)?;
    let (fields, need) = nodes(alloc, fields)?;
    kept(struct_of(alloc, first, rest, fields, need))
}

/// A struct literal, whose deepest field needs this depth.
fn struct_of(
    alloc: Global,
    first: Name,
    rest: List<Name>,
    fields: List<NamedExpr>,
    need: u32,
) -> Result<(Expr, u32), BuildError>
    ensures { Gives result (λ part. part ≡ (node.expr_struct first rest fields, max need 1)) }
{
    let fields = turn_all(alloc, fields)?;
    let path = path(alloc, first, rest, Args::None)?;
    let expr = Expr::Struct {
        path,
        fields,
        base: None,
    };
    Ok((expr, need.max(1)))
}

impl Turns<FieldExpr> for NamedExpr {
    ghost turned = { node.field_expr };

    fn turn(self, alloc: Global) -> Result<FieldExpr, BuildError> {
        let NamedExpr { name, value } = self;
        let value = boxed(alloc, value)?;
        Ok(FieldExpr::Named {
            attrs: List::new(alloc),
            name,
            value,
        })
    }
}
