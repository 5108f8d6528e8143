//! The layout of items that consist of a head alone, with their visibilities.
ghost use Rattle.std.specs.Prelude.{◌≡◌, ◌∷◌, false, map, pos};
ghost use Rattle.lay_layout.specs.declared.layout.Tok.TheVariants as tok;
ghost use Rattle.lay_stream.specs.Fed.{Did};
ghost use Rattle.lay_form.specs.Form.{Part as PartOf, semicolon};
ghost use Rattle.lay_form.specs.Notation.{fields, piece};
ghost use Rattle.lay_form.specs.Stream.{stream_of};
ghost use Rattle.lay_node.specs.nodes.Fields.{blank_if};
ghost use Rattle.lay_node.specs.nodes.Heads.{about_alias, about_enum, about_extern_crate, about_struct, about_union};
ghost use Rattle.lay_node.specs.nodes.Heads.{head_fields, leads, seen, struct_tail};
ghost use Rattle.lay_node.specs.nodes.Vis.{vis_form};
ghost use Rattle.lay_node.specs.nodes.Where.{wheres_before_body, wheres_before_semicolon};
ghost use Rattle.lay_node.specs.declared.heads.Site.{Site};
ghost use Rattle.lay_out_types.specs.Calls.{Adds};

use crate::calls::add_wheres;
use crate::heads::add_called;
use crate::loops::{Part, add_braces, add_parens};
use crate::uses::add_rename;
use crate::vis::add_vis;
use lay_node::{Alias, Enum, ExternCrate, Fields, Struct, Union, Vis, Wheres};
use lay_out_pats::add_group;
use lay_out_types::calls::{add_text, add_word};
use lay_out_types::lists::add_end;
use lay_out_types::{add_asked, add_default};
use lay_stream::Emit;

/// Emits the layout of a struct.
pub fn put_struct<E: Emit>(out: &mut E, vis: &Vis, node: &Struct) -> Result<(), E::Fault>
    ensures { Did E.meanings out.old (stream_of (seen vis.now (about_struct node.now))) result
        out.new }
{
    let opened = open_head(out, Ok(()), vis);
    let head = add_struct_head(out, opened, node);
    let end = add_end(out, head);
    add_struct_tail(out, end, node)
}

/// Opens the group of a head, and emits the visibility before the head.
pub fn open_head<E: Emit>(
    out: &mut E,
    before: Result<(), E::Fault>,
    vis: &Vis,
) -> Result<(), E::Fault>
    ensures { let opened = tok.Begin false (pos 0) ∷ stream_of (vis_form vis.now) in
        Adds E.meanings before out.old opened result out.new }
{
    let group = add_group(out, before);
    add_vis(out, group, vis)
}

/// Emits the head of a struct.
fn add_struct_head<E: Emit>(
    out: &mut E,
    before: Result<(), E::Fault>,
    node: &Struct,
) -> Result<(), E::Fault>
    ensures { Adds E.meanings before out.old (stream_of (about_struct node.now).head) result
        out.new }
{
    let name = add_called(out, before, b"struct ", &node.name, &node.generics);
    add_head_fields(out, name, &node.fields)
}

/// Emits fields without names.
fn add_head_fields<E: Emit>(
    out: &mut E,
    before: Result<(), E::Fault>,
    fields: &Fields,
) -> Result<(), E::Fault>
    ensures { Adds E.meanings before out.old (stream_of (head_fields fields.now)) result out.new }
{
    match fields {
        Fields::Tuple { fields } => add_parens(out, before, fields.as_slice(), true),
        _ => before,
    }
}

/// Emits the rest of a struct.
fn add_struct_tail<E: Emit>(
    out: &mut E,
    before: Result<(), E::Fault>,
    node: &Struct,
) -> Result<(), E::Fault>
    ensures { Adds E.meanings before out.old (stream_of
        (struct_tail node.now.wheres node.now.fields)) result out.new }
{
    match &node.fields {
        Fields::Named { fields } => add_body(out, before, &node.wheres, fields.as_slice()),
        _ => add_semicolon(out, before, &node.wheres),
    }
}

/// Emits a where clause, and parts in braces. After a where clause the braces have no leading
/// blank.
fn add_body<E: Emit, P: Part>(
    out: &mut E,
    before: Result<(), E::Fault>,
    wheres: &Wheres,
    parts: &[P],
) -> Result<(), E::Fault>
    ensures { let braces = fields (blank_if (leads wheres.now)) (map P.form parts.now) in
        Adds E.meanings before out.old (stream_of (PartOf (wheres_before_body wheres.now) braces))
        result out.new }
{
    let clause = add_wheres(out, before, wheres, true);
    add_braces(out, clause, parts, leads(wheres))
}

/// Whether the braces after this where clause have a leading blank: if it has no predicates.
pub fn leads(wheres: &Wheres) -> bool
    ensures { result ≡ leads wheres.now }
{
    wheres.predicates.as_slice().is_empty()
}

/// Emits a where clause, and a `;`.
pub fn add_semicolon<E: Emit>(
    out: &mut E,
    before: Result<(), E::Fault>,
    wheres: &Wheres,
) -> Result<(), E::Fault>
    ensures { let form = PartOf (wheres_before_semicolon wheres.now) (piece semicolon) in
        Adds E.meanings before out.old (stream_of form) result out.new }
{
    let clause = add_wheres(out, before, wheres, false);
    add_text(out, clause, b";")
}

/// Emits the layout of a union.
pub fn put_union<E: Emit>(out: &mut E, vis: &Vis, node: &Union) -> Result<(), E::Fault>
    ensures { Did E.meanings out.old (stream_of (seen vis.now (about_union node.now))) result
        out.new }
{
    let opened = open_head(out, Ok(()), vis);
    let head = add_called(out, opened, b"union ", &node.name, &node.generics);
    let end = add_end(out, head);
    add_body(out, end, &node.wheres, node.fields.as_slice())
}

/// Emits the layout of an enumeration.
pub fn put_enum<E: Emit>(out: &mut E, vis: &Vis, node: &Enum) -> Result<(), E::Fault>
    ensures { Did E.meanings out.old (stream_of (seen vis.now (about_enum node.now))) result
        out.new }
{
    let opened = open_head(out, Ok(()), vis);
    let head = add_called(out, opened, b"enum ", &node.name, &node.generics);
    let end = add_end(out, head);
    add_body(out, end, &node.wheres, node.variants.as_slice())
}

/// Emits the layout of a type alias, which is the same wherever it stands.
pub fn put_alias<E: Emit>(out: &mut E, vis: &Vis, node: &Alias) -> Result<(), E::Fault>
    ensures { (site : Site) → Did E.meanings out.old
        (stream_of (seen vis.now (about_alias site node.now))) result out.new }
{
    let opened = open_head(out, Ok(()), vis);
    let name = add_called(out, opened, b"type ", &node.name, &node.generics);
    let bounds = add_asked(out, name, node.bounds.as_slice());
    let head = add_default(out, bounds, &node.ty);
    let end = add_end(out, head);
    add_semicolon(out, end, &node.wheres)
}

/// Emits the layout of an `extern crate`.
pub fn put_extern_crate<E: Emit>(out: &mut E, vis: &Vis, node: &ExternCrate) -> Result<(), E::Fault>
    ensures { Did E.meanings out.old (stream_of (seen vis.now (about_extern_crate node.now))) result
        out.new }
{
    let opened = open_head(out, Ok(()), vis);
    let words = add_text(out, opened, b"extern crate ");
    let word = add_word(out, words, node.word.raw, &node.word.text);
    let head = add_rename(out, word, &node.renamed);
    let end = add_end(out, head);
    add_text(out, end, b";")
}
