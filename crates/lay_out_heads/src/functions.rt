//! The layout of the heads of functions.
ghost use Rattle.std.specs.Prelude.{◌≡◌};
ghost use Rattle.lay_form.specs.Form.{Done};
ghost use Rattle.lay_stream.specs.Fed.{Did};
ghost use Rattle.lay_form.specs.Stream.{stream_of};
ghost use Rattle.lay_node.specs.nodes.Functions.{ends_variadic, fn_head_form, fn_param_form, fn_params_form, head_output};
ghost use Rattle.lay_node.specs.nodes.Functions.{is_variadic, param_kind_form, safety_form, self_type, signature_form};
ghost use Rattle.lay_out_types.specs.Calls.{Adds};

use crate::calls::add_generics;
use crate::loops::{Part, add_parens};
use lay_node::{FnHead, Param, ParamKind, Safety, Ty};
use lay_out_pats::add_pat;
use lay_out_types::add_type;
use lay_out_types::calls::{add_if, add_text, add_word};
use lay_out_types::parts::{add_abi, add_param_attrs, add_reference};
use lay_stream::Emit;

/// Emits the layout of the head of a function.
pub fn put_fn_head<E: Emit>(out: &mut E, head: &FnHead) -> Result<(), E::Fault>
    ensures { Did E.meanings out.old (stream_of (fn_head_form head.now)) result out.new }
{
    let word = add_if(out, Ok(()), head.is_const, b"const ");
    let word = add_if(out, word, head.is_async, b"async ");
    let safety = add_safety(out, word, head.safety);
    let abi = add_abi(out, safety, &head.abi);
    let word = add_text(out, abi, b"fn ");
    add_signature(out, word, head)
}

/// Emits `unsafe` or `safe` and a blank, if the function has the word.
fn add_safety<E: Emit>(
    out: &mut E,
    before: Result<(), E::Fault>,
    safety: Option<Safety>,
) -> Result<(), E::Fault>
    ensures { Adds E.meanings before out.old (stream_of (safety_form safety Done)) result out.new }
{
    match safety {
        None => before,
        Some(Safety::Unsafe) => add_text(out, before, b"unsafe "),
        Some(Safety::Safe) => add_text(out, before, b"safe "),
    }
}

/// Emits the head of a function after its `fn`.
fn add_signature<E: Emit>(
    out: &mut E,
    before: Result<(), E::Fault>,
    head: &FnHead,
) -> Result<(), E::Fault>
    ensures { Adds E.meanings before out.old (stream_of (signature_form head.now)) result out.new }
{
    let name = add_word(out, before, head.name.raw, &head.name.text);
    let generics = add_generics(out, name, &head.generics);
    let params = add_params(out, generics, head.params.as_slice());
    add_output(out, params, &head.output)
}

/// Emits the parameters of a function in parentheses.
fn add_params<E: Emit>(
    out: &mut E,
    before: Result<(), E::Fault>,
    params: &[Param],
) -> Result<(), E::Fault>
    ensures { Adds E.meanings before out.old (stream_of (fn_params_form params.now)) result
        out.new }
{
    add_parens(out, before, params, !ends_variadic(params))
}

/// Whether the last parameter is a `...`.
fn ends_variadic(params: &[Param]) -> bool
    ensures { result ≡ ends_variadic params.now }
{
    let mut ends = false;
    for param in params {
        ends = is_variadic(&param.kind);
    }
    ends
}

/// Whether a parameter is a `...`.
fn is_variadic(kind: &ParamKind) -> bool
    ensures { result ≡ is_variadic kind.now }
{
    matches!(kind, ParamKind::Variadic | ParamKind::NamedVariadic { .. })
}

impl Part for Param {
    ghost form = { fn_param_form };

    fn add<E: Emit>(&self, out: &mut E, before: Result<(), E::Fault>) -> Result<(), E::Fault> {
        let attrs = add_param_attrs(out, before, self.attrs.as_slice());
        add_param_kind(out, attrs, &self.kind)
    }
}

/// Emits a parameter without its attributes.
fn add_param_kind<E: Emit>(
    out: &mut E,
    before: Result<(), E::Fault>,
    kind: &ParamKind,
) -> Result<(), E::Fault>
    ensures { Adds E.meanings before out.old (stream_of (param_kind_form kind.now)) result out.new }
{
    match kind {
        ParamKind::RefSelf { lifetime, mutable } => {
            let reference = add_reference(out, before, lifetime);
            let word = add_if(out, reference, *mutable, b"mut ");
            add_text(out, word, b"self")
        },
        ParamKind::OwnSelf { mutable, ty } => {
            let word = add_if(out, before, *mutable, b"mut ");
            let word = add_text(out, word, b"self");
            add_self_type(out, word, ty)
        },
        ParamKind::Typed { pat, ty } => {
            let pat = add_pat(out, before, pat);
            let colon = add_text(out, pat, b": ");
            add_type(out, colon, ty)
        },
        ParamKind::Variadic => add_text(out, before, b"..."),
        ParamKind::NamedVariadic { pat } => {
            let pat = add_pat(out, before, pat);
            add_text(out, pat, b": ...")
        },
    }
}

/// Emits a `:` and a type, if there is one: that of a receiver, of a binding, or of a parameter
/// of a closure.
pub fn add_self_type<E: Emit>(
    out: &mut E,
    before: Result<(), E::Fault>,
    ty: &Option<Ty>,
) -> Result<(), E::Fault>
    ensures { Adds E.meanings before out.old (stream_of (self_type ty.now)) result out.new }
{
    match ty {
        None => before,
        Some(ty) => {
            let colon = add_text(out, before, b": ");
            add_type(out, colon, ty)
        },
    }
}

/// Emits a return type, if there is one.
fn add_output<E: Emit>(
    out: &mut E,
    before: Result<(), E::Fault>,
    output: &Option<Ty>,
) -> Result<(), E::Fault>
    ensures { Adds E.meanings before out.old (stream_of (head_output output.now)) result out.new }
{
    match output {
        None => before,
        Some(ty) => {
            let arrow = add_text(out, before, b" -> ");
            add_type(out, arrow, ty)
        },
    }
}
