//! Whether `<` after a type would open generic arguments, found along the type's right edge.
ghost use Rattle.std.specs.Prelude.{◌≡◌, ◌<◌};
ghost use Rattle.lay_node.specs.nodes.Types.{about_args, about_bound, about_path, about_type};
ghost use Rattle.lay_node.specs.declared.types.Args.{size-Args};
ghost use Rattle.lay_node.specs.declared.types.Bound.{size-Bound};
ghost use Rattle.lay_node.specs.declared.types.Path.{size-Path};
ghost use Rattle.lay_node.specs.declared.types.PathStyle.TheVariants.{Code, Kind};
ghost use Rattle.lay_node.specs.declared.types.Ty.{size-Ty};
ghost use Rattle.lay_code.specs.nodes.Exprs.{lacks_args};
ghost use Rattle.lay_ops.specs.Ends.{IfIn, lacks};

use lay_code::{Args, Bound, Path, Ty};

/// What a type ends in.
#[derive(Clone, Copy)]
enum TypeEnd<'a> {
    /// What takes no generic arguments.
    Shut,
    /// A word that could take generic arguments and has none.
    Bare,
    /// A type.
    In(&'a Ty),
}

/// What a type ends in.
#[tactic(auto, using(crate::proofs::TypeEnds::type_lacks))]
fn type_end(ty: &Ty) -> TypeEnd<'_>
    ensures told { lacks result ≡ lacks_args (about_type ty.now).told.refuses }
    ensures smaller { IfIn result (λ other. size-Ty other < size-Ty ty.now) }
{
    match ty {
        Ty::Path { path } => path_end(path),
        Ty::Ptr { inner, .. } | Ty::Ref { inner, .. } => TypeEnd::In(inner.get()),
        Ty::Func {
            output: Some(output),
            ..
        } => TypeEnd::In(output.get()),
        Ty::Bounds { bounds, .. } => match bounds.as_slice().last() {
            Some(bound) => bound_end(bound),
            None => TypeEnd::Shut,
        },
        _ => TypeEnd::Shut,
    }
}

/// What a bound ends in.
#[tactic(auto, using(crate::proofs::TypeEnds::bound_lacks))]
fn bound_end(bound: &Bound) -> TypeEnd<'_>
    ensures told { lacks result ≡ lacks_args (about_bound bound.now).refuses }
    ensures smaller { IfIn result (λ ty. size-Ty ty < size-Bound bound.now) }
{
    match bound {
        Bound::Outlives { .. } | Bound::Captures { .. } => TypeEnd::Shut,
        Bound::Meets { parens, path, .. } => {
            if *parens {
                TypeEnd::Shut
            } else {
                path_end(path)
            }
        },
    }
}

/// What a path of a type ends in.
fn path_end(path: &Path) -> TypeEnd<'_>
    ensures told { lacks result ≡ lacks_args (about_path path.now Kind).refuses }
    ensures smaller { IfIn result (λ ty. size-Ty ty < size-Path path.now) }
{
    match path.segments.as_slice().last() {
        Some((_, args)) => args_end(args),
        None => TypeEnd::Shut,
    }
}

/// What the generic arguments of the last segment of a path of a type end in.
#[tactic(auto, using(crate::proofs::TypeEnds::args_lack))]
fn args_end(args: &Args) -> TypeEnd<'_>
    ensures told { lacks result ≡ lacks_args (about_args args.now).kind.refuses }
    ensures smaller { IfIn result (λ ty. size-Ty ty < size-Args args.now) }
{
    match args {
        Args::None => TypeEnd::Bare,
        Args::Round {
            output: Some(output),
            ..
        } => TypeEnd::In(output.get()),
        _ => TypeEnd::Shut,
    }
}

/// Whether `<` after the type would open generic arguments.
pub fn type_lacks_args(ty: &Ty) -> bool
    ensures { result ≡ lacks_args (about_type ty.now).told.refuses }
{
    let mut last = ty;
    loop {
        match type_end(last) {
            TypeEnd::Shut => return false,
            TypeEnd::Bare => return true,
            TypeEnd::In(inner) => last = inner,
        }
    }
}

/// Whether `<` after the path, as it is in an expression, would open generic arguments of a type
/// that it ends in.
pub fn path_lacks_args(path: &Path) -> bool
    ensures { result ≡ lacks_args (about_path path.now Code).refuses }
{
    match path.segments.as_slice().last() {
        Some((_, args)) => code_args_lack(args),
        None => false,
    }
}

/// Whether `<` after these generic arguments, those of the last segment of a path in an expression,
/// would open generic arguments of a type that they end in.
#[tactic(auto, using(crate::proofs::TypeEnds::code_args))]
fn code_args_lack(args: &Args) -> bool
    ensures { result ≡ lacks_args (about_args args.now).code.refuses }
{
    match args {
        Args::Round {
            output: Some(output),
            ..
        } => type_lacks_args(output.get()),
        _ => false,
    }
}
