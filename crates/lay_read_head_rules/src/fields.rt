//! Parsing of fields, and of the variants of enumerations.
ghost use Rattle.std.specs.Prelude.{◌≤◌, drop, codes, IfOk};
ghost use Rattle.lay_token.specs.Operators.{is_op};
ghost use Rattle.lay_piece.specs.declared.kind.Delim.TheVariants.{Brace, Paren};
ghost use Rattle.lay_node.specs.Ahead.{closes};
ghost use Rattle.lay_node.specs.reader.Fields as reader;
ghost use Rattle.lay_node.specs.reader.Loops.{elements};
ghost use Rattle.lay_node.specs.reader.Types.{if_there, within};
ghost use Rattle.lay_read_tokens.specs.Answers.{IsFound, IsGot};
ghost use Rattle.lay_read_parts.specs.Answers.{gathered};

use crate::level::Level;
use crate::vis::vis_ahead;
use lay_node::{Field, Fields, Tokens, TupleField, TypePlace, Variant};
use lay_read_parts::joins::both;
use lay_read_parts::loops::{Closer, Part, read_elements};
use lay_read_tokens::attributes::attrs_ahead;
use lay_read_tokens::front::{is_at_opened, takes_op, takes_opener};
use lay_read_tokens::names::read_name;
use lay_read_tokens::tokens::read_tokens_before_comma;
use lay_read_tokens::{Ahead, Found, ReadNone};
use lay_read_types::type_ahead;
use lay_token::{Delim, List};
use std::alloc::Global;

/// Fields without names as the elements of a list.
struct TupleFields;

impl Part<TupleField, ()> for TupleFields {
    ghost reads = { λ depth place ts. reader.tuple_field (within depth) ts };
}

/// Parses a field without a name.
#[tactic(auto, unfolding(lay_node::specs::reader::Fields::tuple_field))]
fn tuple_field(level: &Level, at: &mut Ahead<'_>, _place: ()) -> Result<Found<TupleField>, ReadNone>
    ensures read { IsFound (reader.tuple_field (within level.now.depth) at.old) result at.new }
    ensures within { IfOk result (λ found. found.need ≤ level.now.depth) }
{
    let attrs = attrs_ahead(level.alloc, at, false)?;
    let vis = vis_ahead(level.alloc, at)?;
    let ty = type_ahead(level.alloc, at, TypePlace::Bounds, level.depth)?;
    Ok(Found {
        need: ty.need,
        node: TupleField {
            attrs,
            vis,
            ty: ty.node,
        },
    })
}

/// Parses fields without names, after a `(`, and the `)` after them.
#[tactic(auto, using(lay_read_shared::proofs::HeadPartsLeft::tuple_field_leaves))]
fn tuple_field_list(
    alloc: Global,
    at: &mut Ahead<'_>,
    depth: u32,
) -> Result<Found<List<TupleField>>, ReadNone>
    ensures read { IsFound (gathered (elements (closes Paren) (reader.tuple_field (within depth))
        at.old)) result at.new }
    ensures within { IfOk result (λ found. found.need ≤ depth) }
{
    let level = Level { alloc, depth };
    read_elements::<TupleFields, Level, TupleField, (), _>(
        alloc,
        at,
        depth,
        Closer::Group(Delim::Paren),
        &level,
        tuple_field,
        (),
    )
}

/// Parses fields without names in parentheses.
#[tactic(auto, unfolding(lay_node::specs::reader::Fields::tuple_fields))]
pub(crate) fn tuple_fields_ahead(
    alloc: Global,
    at: &mut Ahead<'_>,
    depth: u32,
) -> Result<Found<List<TupleField>>, ReadNone>
    ensures read { IsFound (reader.tuple_fields (within depth) at.old) result at.new }
    ensures within { IfOk result (λ found. found.need ≤ depth) }
{
    if takes_opener(at, Delim::Paren) {
        tuple_field_list(alloc, at, depth)
    } else {
        Err(ReadNone::NoReading)
    }
}

/// Fields with names as the elements of a list.
struct NamedFields;

impl Part<Field, ()> for NamedFields {
    ghost reads = { λ depth place ts. reader.field (within depth) ts };
}

/// Parses a field with a name.
#[tactic(auto, unfolding(lay_node::specs::reader::Fields::field))]
fn field(level: &Level, at: &mut Ahead<'_>, _place: ()) -> Result<Found<Field>, ReadNone>
    ensures read { IsFound (reader.field (within level.now.depth) at.old) result at.new }
    ensures within { IfOk result (λ found. found.need ≤ level.now.depth) }
{
    let attrs = attrs_ahead(level.alloc, at, false)?;
    let vis = vis_ahead(level.alloc, at)?;
    let name = read_name(level.alloc, at)?;
    if !takes_op(at, b":") {
        return Err(ReadNone::NoReading);
    }
    let ty = type_ahead(level.alloc, at, TypePlace::Bounds, level.depth)?;
    Ok(Found {
        need: ty.need,
        node: Field {
            attrs,
            vis,
            name,
            ty: ty.node,
        },
    })
}

/// Parses fields with names, after a `{`, and the `}` after them.
#[tactic(auto, using(lay_read_shared::proofs::HeadPartsLeft::field_leaves))]
fn named_field_list(
    alloc: Global,
    at: &mut Ahead<'_>,
    depth: u32,
) -> Result<Found<List<Field>>, ReadNone>
    ensures read { IsFound (gathered (elements (closes Brace) (reader.field (within depth)) at.old))
        result at.new }
    ensures within { IfOk result (λ found. found.need ≤ depth) }
{
    let level = Level { alloc, depth };
    read_elements::<NamedFields, Level, Field, (), _>(
        alloc,
        at,
        depth,
        Closer::Group(Delim::Brace),
        &level,
        field,
        (),
    )
}

/// Parses fields with names in braces.
#[tactic(auto, unfolding(lay_node::specs::reader::Fields::named_fields))]
pub(crate) fn named_fields_ahead(
    alloc: Global,
    at: &mut Ahead<'_>,
    depth: u32,
) -> Result<Found<List<Field>>, ReadNone>
    ensures read { IsFound (reader.named_fields (within depth) at.old) result at.new }
    ensures within { IfOk result (λ found. found.need ≤ depth) }
{
    if takes_opener(at, Delim::Brace) {
        named_field_list(alloc, at, depth)
    } else {
        Err(ReadNone::NoReading)
    }
}

/// Parses the fields of a variant, if it has any.
#[tactic(auto, unfolding(lay_node::specs::reader::Fields::variant_fields))]
fn variant_fields(alloc: Global, at: &mut Ahead<'_>, depth: u32) -> Result<Found<Fields>, ReadNone>
    ensures read { IsFound (reader.variant_fields (within depth) at.old) result at.new }
    ensures within { IfOk result (λ found. found.need ≤ depth) }
{
    if is_at_opened(at, Delim::Paren) {
        let fields = tuple_fields_ahead(alloc, at, depth)?;
        Ok(Found {
            need: fields.need,
            node: Fields::Tuple {
                fields: fields.node,
            },
        })
    } else if is_at_opened(at, Delim::Brace) {
        let fields = named_fields_ahead(alloc, at, depth)?;
        Ok(Found {
            need: fields.need,
            node: Fields::Named {
                fields: fields.node,
            },
        })
    } else {
        Ok(Found {
            node: Fields::Unit,
            need: 0,
        })
    }
}

/// Parses the discriminant of a variant, if it has one.
#[tactic(auto, unfolding(lay_node::specs::reader::Fields::discriminant))]
fn read_discriminant_if(alloc: Global, at: &mut Ahead<'_>) -> Result<Option<Tokens>, ReadNone>
    ensures { IsGot (if_there (is_op (codes "=") at.old) (λ ts. reader.discriminant (drop 1 ts))
        at.old) result at.new }
{
    if !takes_op(at, b"=") {
        return Ok(None);
    }
    let tokens = read_tokens_before_comma(alloc, at)?;
    if tokens.as_slice().is_empty() {
        return Err(ReadNone::NoReading);
    }
    Ok(Some(tokens))
}

/// Variants as the elements of a list.
struct Variants;

impl Part<Variant, ()> for Variants {
    ghost reads = { λ depth place ts. reader.variant (within depth) ts };
}

/// Parses a variant.
#[tactic(auto, unfolding(lay_node::specs::reader::Fields::variant))]
fn variant(level: &Level, at: &mut Ahead<'_>, _place: ()) -> Result<Found<Variant>, ReadNone>
    ensures read { IsFound (reader.variant (within level.now.depth) at.old) result at.new }
    ensures within { IfOk result (λ found. found.need ≤ level.now.depth) }
{
    let attrs = attrs_ahead(level.alloc, at, false)?;
    let vis = vis_ahead(level.alloc, at)?;
    let name = read_name(level.alloc, at)?;
    let fields = variant_fields(level.alloc, at, level.depth)?;
    let (fields, discriminant) = both(fields, read_discriminant_if(level.alloc, at))?;
    Ok(Found {
        need: fields.need,
        node: Variant {
            attrs,
            vis,
            name,
            fields: fields.node,
            discriminant,
        },
    })
}

/// Parses variants after the `{`, and the `}`.
#[tactic(auto, using(lay_read_shared::proofs::HeadPartsLeft::variant_leaves))]
fn variant_list(
    alloc: Global,
    at: &mut Ahead<'_>,
    depth: u32,
) -> Result<Found<List<Variant>>, ReadNone>
    ensures read { IsFound (gathered (elements (closes Brace) (reader.variant (within depth))
        at.old)) result at.new }
    ensures within { IfOk result (λ found. found.need ≤ depth) }
{
    let level = Level { alloc, depth };
    read_elements::<Variants, Level, Variant, (), _>(
        alloc,
        at,
        depth,
        Closer::Group(Delim::Brace),
        &level,
        variant,
        (),
    )
}

/// Parses variants in braces.
#[tactic(auto, unfolding(lay_node::specs::reader::Fields::variants))]
pub(crate) fn variants_ahead(
    alloc: Global,
    at: &mut Ahead<'_>,
    depth: u32,
) -> Result<Found<List<Variant>>, ReadNone>
    ensures read { IsFound (reader.variants (within depth) at.old) result at.new }
    ensures within { IfOk result (λ found. found.need ≤ depth) }
{
    if takes_opener(at, Delim::Brace) {
        variant_list(alloc, at, depth)
    } else {
        Err(ReadNone::NoReading)
    }
}
