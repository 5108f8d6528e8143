//! The depth of types, paths, generic arguments and bounds.
ghost use Rattle.std.specs.Prelude.{◌≡◌, map, option_map};
ghost use Rattle.lay_form.specs.Depth.{least_depth};
ghost use Rattle.lay_node.specs.nodes.Facts.{forms};
ghost use Rattle.lay_node.specs.nodes.Types.{about_arg, about_args, about_bound, about_constraint, about_func_param};
ghost use Rattle.lay_node.specs.nodes.Types.{about_path, about_start, about_type, output_form, type_forms};
ghost use Rattle.lay_node.specs.declared.types.PathStyle.TheVariants.{Kind};
ghost use Rattle.lay_depth.specs.nodes.Depths.{counted, greatest, segment_args};

use crate::nodes::levels::deeper;
use lay_node::{Arg, Args, Bound, Boxed, Constraint, FuncParam, Path, PathStart, Ty, Word};

/// The depth of a type.
#[cycle(types)]
pub fn type_depth(ty: &Ty) -> u32
    ensures { result ≡ counted (least_depth (about_type ty.now).told.form) }
{
    match ty {
        Ty::Call { .. } | Ty::Never | Ty::Infer => 1,
        Ty::Path { path } => deeper(path_depth(path)),
        Ty::Tuple { elements } => deeper(types_depth(elements.as_slice())),
        Ty::Paren { inner }
        | Ty::Ptr { inner, .. }
        | Ty::Ref { inner, .. }
        | Ty::Slice { inner }
        | Ty::Array { inner, .. } => deeper(type_depth(inner.get())),
        Ty::Func { params, output, .. } => {
            deeper(params_depth(params.as_slice()).max(output_depth(output)))
        },
        Ty::Bounds { bounds, .. } => deeper(bounds_depth(bounds.as_slice())),
    }
}

/// The greatest depth of the types.
#[cycle(types)]
pub fn types_depth(types: &[Ty]) -> u32
    ensures { result ≡ counted (greatest (type_forms (map about_type types.now))) }
{
    let mut most = 0u32;
    for ty in types {
        most = most.max(type_depth(ty));
    }
    most
}

/// The greatest depth of the parameters of a function type.
#[cycle(types)]
fn params_depth(params: &[FuncParam]) -> u32
    ensures { result ≡ counted (greatest (forms (map about_func_param params.now))) }
{
    let mut most = 0u32;
    for param in params {
        most = most.max(type_depth(&param.ty));
    }
    most
}

/// The depth of a return type; 0 if there is none.
#[cycle(types)]
fn output_depth(output: &Option<Boxed<Ty>>) -> u32
    ensures { result ≡ counted (least_depth (output_form (option_map about_type output.now))) }
{
    match output {
        Some(ty) => type_depth(ty.get()),
        None => 0,
    }
}

/// The depth of a path, which doesn't depend on how its generic arguments are spelled.
#[cycle(types)]
pub fn path_depth(path: &Path) -> u32
    ensures { result ≡ counted (least_depth (about_path path.now Kind).form) }
{
    start_depth(&path.start).max(segments_depth(path.segments.as_slice()))
}

/// The depth of the beginning of a path. In `<A as B>::` the trait counts one level more.
#[cycle(types)]
fn start_depth(start: &PathStart) -> u32
    ensures { result ≡ counted (least_depth (about_start start.now).form) }
{
    match start {
        PathStart::Local | PathStart::Global => 0,
        PathStart::Qualified { ty, of } => {
            let within = type_depth(ty.get());
            match of {
                None => within,
                Some(path) => within.max(deeper(path_depth(path.get()))),
            }
        },
    }
}

/// The greatest depth of the generic arguments of the segments.
#[cycle(types)]
fn segments_depth(segments: &[(Word, Args)]) -> u32
    ensures { result ≡ counted (greatest (map segment_args segments.now)) }
{
    let mut most = 0u32;
    for (_, args) in segments {
        most = most.max(args_depth(args));
    }
    most
}

/// The depth of the generic arguments of a segment.
#[cycle(types)]
fn args_depth(args: &Args) -> u32
    ensures { result ≡ counted (least_depth (about_args args.now).kind.form) }
{
    match args {
        Args::None => 0,
        Args::Angle { args } => arguments_depth(args.as_slice()),
        Args::Round { inputs, output } => types_depth(inputs.as_slice()).max(output_depth(output)),
    }
}

/// The greatest depth of the generic arguments.
#[cycle(types)]
pub fn arguments_depth(args: &[Arg]) -> u32
    ensures { result ≡ counted (greatest (forms (map about_arg args.now))) }
{
    let mut most = 0u32;
    for arg in args {
        most = most.max(arg_depth(arg));
    }
    most
}

/// The depth of a generic argument. A name with its constraint counts one level more than what is
/// in them.
#[cycle(types)]
fn arg_depth(arg: &Arg) -> u32
    ensures { result ≡ counted (least_depth (about_arg arg.now).form) }
{
    match arg {
        Arg::Region { .. } | Arg::Const { .. } => 0,
        Arg::Plain { ty } => type_depth(ty),
        Arg::Named {
            args,
            constraint,
            ..
        } => deeper(args_depth(args).max(constraint_depth(constraint))),
    }
}

/// The depth of what a generic argument says of an associated item.
#[cycle(types)]
fn constraint_depth(constraint: &Constraint) -> u32
    ensures { result ≡ counted (least_depth (about_constraint constraint.now).form) }
{
    match constraint {
        Constraint::EqualConst { .. } => 0,
        Constraint::Equal { ty } => type_depth(ty),
        Constraint::Limit { bounds } => bounds_depth(bounds.as_slice()),
    }
}

/// The greatest depth of the bounds.
#[cycle(types)]
pub fn bounds_depth(bounds: &[Bound]) -> u32
    ensures { result ≡ counted (greatest (forms (map about_bound bounds.now))) }
{
    let mut most = 0u32;
    for bound in bounds {
        most = most.max(bound_depth(bound));
    }
    most
}

/// The depth of a bound.
#[cycle(types)]
fn bound_depth(bound: &Bound) -> u32
    ensures { result ≡ counted (least_depth (about_bound bound.now).form) }
{
    match bound {
        Bound::Outlives { .. } | Bound::Captures { .. } => 0,
        Bound::Meets { path, .. } => path_depth(path),
    }
}
