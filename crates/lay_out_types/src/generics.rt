//! The layout of generic parameters.
ghost use Rattle.std.specs.Prelude.{map, true};
ghost use Rattle.lay_stream.specs.Fed.{Did};
ghost use Rattle.lay_form.specs.Notation.{comma_list};
ghost use Rattle.lay_form.specs.Stream.{stream_of};
ghost use Rattle.lay_node.specs.nodes.Generics.{bounded_form, const_default_form, default_form, generics_form};
ghost use Rattle.lay_node.specs.nodes.Generics.{param_form};
ghost use Rattle.lay_node.specs.nodes.Types.{greater, less};
ghost use Rattle.lay_out_types.specs.Calls.{Adds};

use crate::calls::{add_text, add_word};
use crate::lists::{add_close, add_lead};
use crate::parts::{add_const, add_lifetime_param, add_param_attrs};
use crate::types::{add_bounds, add_type};
use lay_node::{Bound, ConstDefault, GenericParam, Generics, Ty};
use lay_stream::Emit;

/// Emits the layout of generic parameters: nothing if there are none.
pub fn put_generics<E: Emit>(out: &mut E, generics: &Generics) -> Result<(), E::Fault>
    ensures { Did E.meanings out.old (stream_of (generics_form generics.now)) result out.new }
{
    let params = generics.params.as_slice();
    if params.is_empty() {
        return Ok(());
    }
    add_params(out, Ok(()), params)
}

/// Emits generic parameters in `<` and `>`.
fn add_params<E: Emit>(
    out: &mut E,
    before: Result<(), E::Fault>,
    params: &[GenericParam],
) -> Result<(), E::Fault>
    ensures { Adds E.meanings before out.old
        (stream_of (comma_list true less greater (map param_form params.now))) result out.new }
{
    let mut done = before;
    for (index, param) in params.iter().enumerate() {
        done = add_lead(out, done, index == 0, b"<");
        done = add_param(out, done, param);
    }
    add_close(out, done, true, params.is_empty(), b"<>", b">")
}

/// Emits a generic parameter.
fn add_param<E: Emit>(
    out: &mut E,
    before: Result<(), E::Fault>,
    param: &GenericParam,
) -> Result<(), E::Fault>
    ensures { Adds E.meanings before out.old (stream_of (param_form param.now)) result out.new }
{
    match param {
        GenericParam::Region { param } => add_lifetime_param(out, before, param),
        GenericParam::Named {
            attrs,
            name,
            bounds,
            default,
        } => {
            let attrs = add_param_attrs(out, before, attrs.as_slice());
            let name = add_word(out, attrs, name.raw, &name.text);
            let bounds = add_asked(out, name, bounds.as_slice());
            add_default(out, bounds, default)
        },
        GenericParam::Const {
            attrs,
            name,
            ty,
            default,
        } => {
            let attrs = add_param_attrs(out, before, attrs.as_slice());
            let word = add_text(out, attrs, b"const ");
            let name = add_word(out, word, name.raw, &name.text);
            let colon = add_text(out, name, b": ");
            let ty = add_type(out, colon, ty);
            add_const_default(out, ty, default)
        },
    }
}

/// Emits a `:` and the bounds of a type; nothing if there are none.
pub fn add_asked<E: Emit>(
    out: &mut E,
    before: Result<(), E::Fault>,
    bounds: &[Bound],
) -> Result<(), E::Fault>
    ensures { Adds E.meanings before out.old (stream_of (bounded_form bounds.now)) result out.new }
{
    if bounds.is_empty() {
        return before;
    }
    let colon = add_text(out, before, b": ");
    add_bounds(out, colon, bounds)
}

/// Emits the default of a type parameter, if it has one.
pub fn add_default<E: Emit>(
    out: &mut E,
    before: Result<(), E::Fault>,
    default: &Option<Ty>,
) -> Result<(), E::Fault>
    ensures { Adds E.meanings before out.old (stream_of (default_form default.now)) result out.new }
{
    match default {
        None => before,
        Some(ty) => {
            let equals = add_text(out, before, b" = ");
            add_type(out, equals, ty)
        },
    }
}

/// Emits the default of a const parameter, if it has one.
fn add_const_default<E: Emit>(
    out: &mut E,
    before: Result<(), E::Fault>,
    default: &Option<ConstDefault>,
) -> Result<(), E::Fault>
    ensures { Adds E.meanings before out.old (stream_of (const_default_form default.now)) result
        out.new }
{
    match default {
        None => before,
        Some(default) => {
            let equals = add_text(out, before, b" = ");
            match default {
                ConstDefault::Arg(value) => add_const(out, equals, value),
                ConstDefault::Name(name) => add_word(out, equals, name.raw, &name.text),
            }
        },
    }
}
