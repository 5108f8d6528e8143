//! The `add` functions of attributes, groups, use trees and the items that consist of a head alone.
ghost use Rattle.lay_form.specs.Form.{Done};
ghost use Rattle.lay_form.specs.Stream.{stream_of};
ghost use Rattle.lay_node.specs.nodes.Attr.{attr_form};
ghost use Rattle.lay_node.specs.nodes.Heads.{about_alias, about_enum, about_extern_crate, about_struct, about_union, seen};
ghost use Rattle.lay_node.specs.nodes.Use.{about_use};
ghost use Rattle.lay_node.specs.tokens.Lists.{group_form};
ghost use Rattle.lay_node.specs.declared.heads.Site.TheVariants.{Module};
ghost use Rattle.lay_out_types.specs.Calls.{Adds};

use lay_code::{Alias, Attr, Enum, ExternCrate, Group, Struct, Union, UseTree, Vis};
use lay_out_heads::{put_alias, put_enum, put_extern_crate, put_struct, put_union, put_use};
use lay_out_tokens::{put_bare_attr, put_group};
use lay_stream::Emit;

/// Emits an attribute, and nothing after it.
pub fn add_bare_attr<E: Emit>(
    out: &mut E,
    before: Result<(), E::Fault>,
    attr: &Attr,
) -> Result<(), E::Fault>
    ensures { Adds E.meanings before out.old (stream_of (attr_form attr.now)) result out.new }
{
    before?;
    put_bare_attr(out, attr)
}

/// Emits a group in its delimiters.
pub fn add_group<E: Emit>(
    out: &mut E,
    before: Result<(), E::Fault>,
    group: &Group,
) -> Result<(), E::Fault>
    ensures { Adds E.meanings before out.old (stream_of (group_form group.now Done)) result
        out.new }
{
    before?;
    put_group(out, group)
}

/// Emits a use tree.
pub fn add_use<E: Emit>(
    out: &mut E,
    before: Result<(), E::Fault>,
    tree: &UseTree,
) -> Result<(), E::Fault>
    ensures { Adds E.meanings before out.old (stream_of (about_use tree.now).form) result out.new }
{
    before?;
    put_use(out, tree)
}

/// Emits an `extern crate`.
pub fn add_extern_crate<E: Emit>(
    out: &mut E,
    before: Result<(), E::Fault>,
    vis: &Vis,
    node: &ExternCrate,
) -> Result<(), E::Fault>
    ensures { Adds E.meanings before out.old (stream_of
        (seen vis.now (about_extern_crate node.now))) result out.new }
{
    before?;
    put_extern_crate(out, vis, node)
}

/// Emits a type alias, which is the same wherever it stands.
pub fn add_alias<E: Emit>(
    out: &mut E,
    before: Result<(), E::Fault>,
    vis: &Vis,
    node: &Alias,
) -> Result<(), E::Fault>
    ensures { Adds E.meanings before out.old (stream_of
        (seen vis.now (about_alias Module node.now))) result out.new }
{
    before?;
    put_alias(out, vis, node)
}

/// Emits a struct.
pub fn add_struct<E: Emit>(
    out: &mut E,
    before: Result<(), E::Fault>,
    vis: &Vis,
    node: &Struct,
) -> Result<(), E::Fault>
    ensures { Adds E.meanings before out.old (stream_of (seen vis.now (about_struct node.now)))
        result out.new }
{
    before?;
    put_struct(out, vis, node)
}

/// Emits a union.
pub fn add_union<E: Emit>(
    out: &mut E,
    before: Result<(), E::Fault>,
    vis: &Vis,
    node: &Union,
) -> Result<(), E::Fault>
    ensures { Adds E.meanings before out.old (stream_of (seen vis.now (about_union node.now)))
        result out.new }
{
    before?;
    put_union(out, vis, node)
}

/// Emits an enumeration.
pub fn add_enum<E: Emit>(
    out: &mut E,
    before: Result<(), E::Fault>,
    vis: &Vis,
    node: &Enum,
) -> Result<(), E::Fault>
    ensures { Adds E.meanings before out.old (stream_of (seen vis.now (about_enum node.now))) result
        out.new }
{
    before?;
    put_enum(out, vis, node)
}
