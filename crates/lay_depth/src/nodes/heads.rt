//! The depth of fields and of the heads of items.
ghost use Rattle.std.specs.Prelude.{◌≡◌, true};
ghost use Rattle.lay_form.specs.Depth.{least_depth};
ghost use Rattle.lay_node.specs.nodes.Fields.{field_form, fields_form, tuple_field_form, variant_form};
ghost use Rattle.lay_node.specs.nodes.Heads.{about_alias, about_enum, about_struct, about_union};
ghost use Rattle.lay_node.specs.nodes.Heads.{impl_head_form, trait_head_form, value_head_form};
ghost use Rattle.lay_node.specs.declared.heads.Site.TheVariants.{Module};
ghost use Rattle.lay_depth.specs.nodes.Depths.{counted, head_depth};

use crate::nodes::generics::{generics_depth, type_or_none_depth, wheres_depth};
use crate::nodes::levels::{Deep, deepest};
use crate::nodes::types::{bounds_depth, path_depth, type_depth};
use lay_node::{
    Alias, Enum, Field, Fields, ImplHead, Struct, TraitHead, TupleField, Union, ValueHead, Variant,
};

impl Deep for TupleField {
    ghost form = { tuple_field_form };

    fn depth(&self) -> u32 {
        type_depth(&self.ty)
    }
}

impl Deep for Field {
    ghost form = { field_form };

    fn depth(&self) -> u32 {
        type_depth(&self.ty)
    }
}

/// The depth of fields.
fn fields_depth(fields: &Fields) -> u32
    ensures { result ≡ counted (least_depth (fields_form true fields.now)) }
{
    match fields {
        Fields::Unit => 0,
        Fields::Tuple { fields } => deepest(fields.as_slice()),
        Fields::Named { fields } => deepest(fields.as_slice()),
    }
}

impl Deep for Variant {
    ghost form = { variant_form };

    fn depth(&self) -> u32 {
        fields_depth(&self.fields)
    }
}

/// The depth of a type alias.
pub fn alias_depth(alias: &Alias) -> u32
    ensures { result ≡ counted (head_depth (about_alias Module alias.now)) }
{
    generics_depth(&alias.generics)
        .max(bounds_depth(alias.bounds.as_slice()))
        .max(type_or_none_depth(&alias.ty))
        .max(wheres_depth(&alias.wheres))
}

/// The depth of a struct.
pub fn struct_depth(item: &Struct) -> u32
    ensures { result ≡ counted (head_depth (about_struct item.now)) }
{
    generics_depth(&item.generics)
        .max(fields_depth(&item.fields))
        .max(wheres_depth(&item.wheres))
}

/// The depth of a union.
pub fn union_depth(item: &Union) -> u32
    ensures { result ≡ counted (head_depth (about_union item.now)) }
{
    generics_depth(&item.generics)
        .max(wheres_depth(&item.wheres))
        .max(deepest(item.fields.as_slice()))
}

/// The depth of an enumeration.
pub fn enum_depth(item: &Enum) -> u32
    ensures { result ≡ counted (head_depth (about_enum item.now)) }
{
    generics_depth(&item.generics)
        .max(wheres_depth(&item.wheres))
        .max(deepest(item.variants.as_slice()))
}

/// The depth of a constant or a static without its value.
pub fn value_head_depth(head: &ValueHead) -> u32
    ensures { result ≡ counted (least_depth (value_head_form head.now)) }
{
    match head {
        ValueHead::Const { ty, .. } | ValueHead::Static { ty, .. } => type_depth(ty),
    }
}

/// The depth of the head of a trait.
pub fn trait_head_depth(head: &TraitHead) -> u32
    ensures { result ≡ counted (least_depth (trait_head_form head.now)) }
{
    generics_depth(&head.generics).max(bounds_depth(head.bounds.as_slice()))
}

/// The depth of the head of an implementation.
pub fn impl_head_depth(head: &ImplHead) -> u32
    ensures { result ≡ counted (least_depth (impl_head_form head.now)) }
{
    let of = match &head.of {
        Some(of) => path_depth(&of.path),
        None => 0,
    };
    generics_depth(&head.generics)
        .max(of)
        .max(type_depth(&head.ty))
}
