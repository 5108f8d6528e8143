//! The `add` functions of breaks, simple paths, generic parameters and where clauses.
ghost use Rattle.std.specs.Prelude.{[], ◌∷◌, cond, pos, true};
ghost use Rattle.lay_layout.specs.declared.layout.Tok.TheVariants as tok;
ghost use Rattle.lay_form.specs.Stream.{stream_of};
ghost use Rattle.lay_node.specs.nodes.Generics.{generics_form};
ghost use Rattle.lay_node.specs.nodes.SimplePath.{simple_path_form};
ghost use Rattle.lay_node.specs.nodes.Where.{wheres_before_body, wheres_before_semicolon};
ghost use Rattle.lay_out_types.specs.Calls.{Adds};

use lay_layout::Break;
use lay_node::{Generics, SimplePath, Wheres};
use lay_out_tokens::put_simple_path;
use lay_out_types::{put_generics, put_wheres};
use lay_stream::Emit;

/// Emits a break.
pub fn add_break<E: Emit>(
    out: &mut E,
    before: Result<(), E::Fault>,
    token: Break,
) -> Result<(), E::Fault>
    ensures { Adds E.meanings before out.old (tok.Break token ∷ []) result out.new }
{
    before?;
    out.brk(token)
}

/// Emits what begins the inside of braces, one step further in.
pub fn add_inside<E: Emit>(out: &mut E, before: Result<(), E::Fault>) -> Result<(), E::Fault>
    ensures { Adds E.meanings before out.old (tok.Begin true (pos 4) ∷ []) result out.new }
{
    before?;
    out.begin(true, 4)
}

/// Emits a simple path.
pub(crate) fn add_simple_path<E: Emit>(
    out: &mut E,
    before: Result<(), E::Fault>,
    path: &SimplePath,
) -> Result<(), E::Fault>
    ensures { Adds E.meanings before out.old (stream_of (simple_path_form path.now)) result
        out.new }
{
    before?;
    put_simple_path(out, path)
}

/// Emits generic parameters.
pub fn add_generics<E: Emit>(
    out: &mut E,
    before: Result<(), E::Fault>,
    generics: &Generics,
) -> Result<(), E::Fault>
    ensures { Adds E.meanings before out.old (stream_of (generics_form generics.now)) result
        out.new }
{
    before?;
    put_generics(out, generics)
}

/// Emits a where clause: before a body, or else before a `;`.
pub fn add_wheres<E: Emit>(
    out: &mut E,
    before: Result<(), E::Fault>,
    wheres: &Wheres,
    body: bool,
) -> Result<(), E::Fault>
    ensures { let form = cond body (wheres_before_body wheres.now)
        (wheres_before_semicolon wheres.now) in
        Adds E.meanings before out.old (stream_of form) result out.new }
{
    before?;
    put_wheres(out, wheres, body)
}
