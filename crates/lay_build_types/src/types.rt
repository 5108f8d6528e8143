//! Builders of types.
ghost use Rattle.std.specs.Prelude.{◌≡◌, ◌+◌, ◌≤◌};
ghost use Rattle.lay_node.specs.declared.types.Arg.TheVariants as arg;
ghost use Rattle.lay_code.specs.Reading.{top};
ghost use Rattle.lay_build_types.specs.Answers.{Gives, Makes};
ghost use Rattle.lay_build_types.specs.Kinds.{form_of_type};
ghost use Rattle.lay_build_types.specs.Nodes as node;

use crate::built::{BuildError, kept};
use crate::joins::boxed;
use crate::kinds::{BuiltName, BuiltType};
use crate::lists::{Turns, nodes, turn_all};
use crate::names::path;
use lay_code::{Arg, Args, Name, Ty};
use lay_text::List;
use std::alloc::Global;

/// A path as a type; the last name has these generic arguments, if there are any: `a::B<C, D>`.
pub fn type_path(
    alloc: Global,
    first: BuiltName,
    rest: List<BuiltName>,
    args: List<BuiltType>,
) -> Result<BuiltType, BuildError>
    ensures { Makes form_of_type (node.type_path first rest args) result }
{
    let (first, _) = first.into_parts();
    let (rest, _) = nodes(alloc, rest)?;
    let (args, need) = nodes(alloc, args)?;
    kept(path_type(alloc, first, rest, args, need))
}

/// A path as a type, whose generic arguments need this depth.
fn path_type(
    alloc: Global,
    first: Name,
    rest: List<Name>,
    args: List<Ty>,
    need: u32,
) -> Result<(Ty, u32), BuildError>
    requires { need ≤ top }
    ensures { Gives result (λ part. part ≡ (node.type_path first rest args, need + 1)) }
{
    let arguments = type_args(alloc, args)?;
    let path = path(alloc, first, rest, arguments)?;
    Ok((Ty::Path { path }, need + 1))
}

/// The generic arguments of these types, or none.
fn type_args(alloc: Global, args: List<Ty>) -> Result<Args, BuildError>
    ensures { Gives result (λ arguments. arguments ≡ node.type_args args) }
{
    if args.as_slice().is_empty() {
        return Ok(Args::None);
    }
    let args = turn_all(alloc, args)?;
    Ok(Args::Angle { args })
}

impl Turns<Arg> for Ty {
    ghost turned = { arg.Plain };

    fn turn(self, _alloc: Global) -> Result<Arg, BuildError> {
        Ok(Arg::Plain { ty: self })
    }
}

/// A reference type: `&A`, or `&mut A` if `writable`.
pub fn type_ref(alloc: Global, writable: bool, of: BuiltType) -> Result<BuiltType, BuildError>
    ensures { Makes form_of_type (node.type_ref writable of) result }
{
    let (inner, need) = of.into_parts();
    kept(reference(alloc, writable, inner, need))
}

/// A reference type of a type that needs this depth.
fn reference(alloc: Global, mutable: bool, inner: Ty, need: u32) -> Result<(Ty, u32), BuildError>
    requires { need ≤ top }
    ensures { Gives result (λ part. part ≡ (node.type_ref mutable inner, need + 1)) }
{
    let inner = boxed(alloc, inner)?;
    let ty = Ty::Ref {
        lifetime: None,
        mutable,
        inner,
    };
    Ok((ty, need + 1))
}

/// A tuple type: `(A, B)`.
pub fn type_tuple(alloc: Global, parts: List<BuiltType>) -> Result<BuiltType, BuildError>
    ensures { Makes form_of_type (node.type_tuple parts) result }
{
    let (elements, need) = nodes(alloc, parts)?;
    kept(Ok((Ty::Tuple { elements }, need + 1)))
}
