//! The depth of generic parameters and where clauses.
ghost use Rattle.std.specs.Prelude.{◌≡◌, map};
ghost use Rattle.lay_form.specs.Depth.{least_depth};
ghost use Rattle.lay_node.specs.nodes.Generics.{generics_form, param_form};
ghost use Rattle.lay_node.specs.nodes.Where.{predicate_form};
ghost use Rattle.lay_depth.specs.nodes.Depths.{counted, greatest, type_if};

use crate::nodes::levels::{Deep, deepest};
use crate::nodes::types::{bounds_depth, type_depth};
use lay_node::{GenericParam, Generics, Predicate, Ty, Wheres};

/// The depth of an optional type; 0 if there is none.
pub fn type_or_none_depth(ty: &Option<Ty>) -> u32
    ensures { result ≡ counted (type_if ty.now) }
{
    match ty {
        Some(ty) => type_depth(ty),
        None => 0,
    }
}

impl Deep for GenericParam {
    ghost form = { param_form };

    fn depth(&self) -> u32 {
        match self {
            GenericParam::Region { .. } => 0,
            GenericParam::Named {
                bounds,
                default,
                ..
            } => bounds_depth(bounds.as_slice()).max(type_or_none_depth(default)),
            GenericParam::Const { ty, .. } => type_depth(ty),
        }
    }
}

/// The depth of generic parameters.
pub fn generics_depth(generics: &Generics) -> u32
    ensures { result ≡ counted (least_depth (generics_form generics.now)) }
{
    deepest(generics.params.as_slice())
}

impl Deep for Predicate {
    ghost form = { predicate_form };

    fn depth(&self) -> u32 {
        match self {
            Predicate::Region { .. } => 0,
            Predicate::Bounded { ty, bounds, .. } => {
                type_depth(ty).max(bounds_depth(bounds.as_slice()))
            },
        }
    }
}

/// The depth of a where clause.
pub fn wheres_depth(wheres: &Wheres) -> u32
    ensures { result ≡ counted (greatest (map predicate_form wheres.now.predicates)) }
{
    deepest(wheres.predicates.as_slice())
}
