//! The layout of fields, and of the variants of enumerations.
ghost use Rattle.lay_stream.specs.Fed.{Did};
ghost use Rattle.lay_form.specs.Stream.{stream_of};
ghost use Rattle.lay_node.specs.nodes.Fields.{discriminant_form, field_form, fields_form, tuple_field_form, variant_form};
ghost use Rattle.lay_out_types.specs.Calls.{Adds};

use crate::loops::{Part, add_braces, add_parens};
use crate::vis::add_vis;
use lay_node::{Field, Fields, Tokens, TupleField, Variant};
use lay_out_pats::add_attrs;
use lay_out_types::add_type;
use lay_out_types::calls::{add_text, add_tokens, add_word};
use lay_stream::Emit;

/// Emits the layout of fields: in parentheses, or in braces with a leading blank or without it.
/// Nothing if there are no fields.
pub fn put_fields<E: Emit>(out: &mut E, fields: &Fields, lead: bool) -> Result<(), E::Fault>
    ensures { Did E.meanings out.old (stream_of (fields_form lead fields.now)) result out.new }
{
    add_fields(out, Ok(()), fields, lead)
}

/// Emits fields.
fn add_fields<E: Emit>(
    out: &mut E,
    before: Result<(), E::Fault>,
    fields: &Fields,
    lead: bool,
) -> Result<(), E::Fault>
    ensures { Adds E.meanings before out.old (stream_of (fields_form lead fields.now)) result
        out.new }
{
    match fields {
        Fields::Unit => before,
        Fields::Tuple { fields } => add_parens(out, before, fields.as_slice(), true),
        Fields::Named { fields } => add_braces(out, before, fields.as_slice(), lead),
    }
}

impl Part for TupleField {
    ghost form = { tuple_field_form };

    fn add<E: Emit>(&self, out: &mut E, before: Result<(), E::Fault>) -> Result<(), E::Fault> {
        let attrs = add_attrs(out, before, self.attrs.as_slice());
        let vis = add_vis(out, attrs, &self.vis);
        add_type(out, vis, &self.ty)
    }
}

impl Part for Field {
    ghost form = { field_form };

    fn add<E: Emit>(&self, out: &mut E, before: Result<(), E::Fault>) -> Result<(), E::Fault> {
        let attrs = add_attrs(out, before, self.attrs.as_slice());
        let vis = add_vis(out, attrs, &self.vis);
        let name = add_word(out, vis, self.name.raw, &self.name.text);
        let colon = add_text(out, name, b": ");
        add_type(out, colon, &self.ty)
    }
}

/// Emits the layout of a variant.
pub fn put_variant<E: Emit>(out: &mut E, variant: &Variant) -> Result<(), E::Fault>
    ensures { Did E.meanings out.old (stream_of (variant_form variant.now)) result out.new }
{
    variant.add(out, Ok(()))
}

impl Part for Variant {
    ghost form = { variant_form };

    fn add<E: Emit>(&self, out: &mut E, before: Result<(), E::Fault>) -> Result<(), E::Fault> {
        let attrs = add_attrs(out, before, self.attrs.as_slice());
        let vis = add_vis(out, attrs, &self.vis);
        let name = add_word(out, vis, self.name.raw, &self.name.text);
        let fields = add_fields(out, name, &self.fields, true);
        add_discriminant(out, fields, &self.discriminant)
    }
}

/// Emits a `=` and the discriminant of a variant, if it has one.
fn add_discriminant<E: Emit>(
    out: &mut E,
    before: Result<(), E::Fault>,
    discriminant: &Option<Tokens>,
) -> Result<(), E::Fault>
    ensures { Adds E.meanings before out.old (stream_of (discriminant_form discriminant.now)) result
        out.new }
{
    match discriminant {
        None => before,
        Some(tokens) => {
            let equals = add_text(out, before, b" = ");
            add_tokens(out, equals, tokens)
        },
    }
}
