//! The layout of the heads of items, each with its visibility in a group of its own.
ghost use Rattle.std.specs.Prelude.{◌++◌};
ghost use Rattle.lay_form.specs.Form.{Form, Part, semicolon};
ghost use Rattle.lay_form.specs.Notation.{piece};
ghost use Rattle.lay_form.specs.Stream.{stream_of};
ghost use Rattle.lay_node.specs.nodes.Functions.{fn_head_form};
ghost use Rattle.lay_node.specs.nodes.Heads.{impl_head_form, trait_head_form, value_head_form};
ghost use Rattle.lay_node.specs.nodes.Where.{wheres_before_body, wheres_before_semicolon};
ghost use Rattle.lay_code.specs.nodes.Item.{foreign_abi, module_head};
ghost use Rattle.lay_out_types.specs.Calls.{Adds};
ghost use Rattle.lay_out_code.specs.Parts.{foreign_head, head_row, import_head};

use crate::calls::add_use;
use lay_code::{FnHead, ImplHead, Literal, Name, TraitHead, UseTree, ValueHead, Vis, Wheres};
use lay_out_heads::calls::add_wheres;
use lay_out_heads::items::{add_semicolon, open_head};
use lay_out_heads::{put_fn_head, put_impl_head, put_trait_head, put_value_head};
use lay_out_types::calls::{add_if, add_literal, add_text, add_word};
use lay_out_types::lists::add_end;
use lay_stream::Emit;

/// The head of an item, after its visibility.
pub trait Head {
    /// The form of the head.
    ghost form: { Self → Form };

    /// Emits the layout of the head.
    fn add<E: Emit>(&self, out: &mut E, before: Result<(), E::Fault>) -> Result<(), E::Fault>
        ensures { Adds E.meanings before out.old (stream_of (form self.now)) result out.new };
}

/// Emits a visibility and a head, in a group of their own.
pub fn add_head<E: Emit, H: Head>(
    out: &mut E,
    before: Result<(), E::Fault>,
    vis: &Vis,
    head: &H,
) -> Result<(), E::Fault>
    ensures { Adds E.meanings before out.old (head_row vis.now (H.form head.now)) result out.new }
{
    let opened = open_head(out, before, vis);
    let head = head.add(out, opened);
    add_end(out, head)
}

/// Emits a visibility, a head, and a `;`.
pub fn add_ended<E: Emit, H: Head>(
    out: &mut E,
    before: Result<(), E::Fault>,
    vis: &Vis,
    head: &H,
) -> Result<(), E::Fault>
    ensures { Adds E.meanings before out.old
        (head_row vis.now (H.form head.now) ++ stream_of (piece semicolon)) result out.new }
{
    let head = add_head(out, before, vis, head);
    add_text(out, head, b";")
}

/// Emits a visibility, a head, a where clause, and a `;`.
pub fn add_ended_clause<E: Emit, H: Head>(
    out: &mut E,
    before: Result<(), E::Fault>,
    vis: &Vis,
    head: &H,
    wheres: &Wheres,
) -> Result<(), E::Fault>
    ensures { let clause = Part (wheres_before_semicolon wheres.now) (piece semicolon) in
        Adds E.meanings before out.old (head_row vis.now (H.form head.now) ++ stream_of clause)
        result out.new }
{
    let head = add_head(out, before, vis, head);
    add_semicolon(out, head, wheres)
}

/// Emits a visibility, a head, and a where clause before a body.
pub fn add_clause<E: Emit, H: Head>(
    out: &mut E,
    before: Result<(), E::Fault>,
    vis: &Vis,
    head: &H,
    wheres: &Wheres,
) -> Result<(), E::Fault>
    ensures { let clause = wheres_before_body wheres.now in
        Adds E.meanings before out.old (head_row vis.now (H.form head.now) ++ stream_of clause)
        result out.new }
{
    let head = add_head(out, before, vis, head);
    add_wheres(out, head, wheres, true)
}

impl Head for UseTree {
    ghost form = { import_head };

    fn add<E: Emit>(&self, out: &mut E, before: Result<(), E::Fault>) -> Result<(), E::Fault> {
        let word = add_text(out, before, b"use ");
        add_use(out, word, self)
    }
}

impl Head for Name {
    ghost form = { module_head };

    fn add<E: Emit>(&self, out: &mut E, before: Result<(), E::Fault>) -> Result<(), E::Fault> {
        let word = add_text(out, before, b"mod ");
        add_word(out, word, self.raw, &self.text)
    }
}

impl Head for FnHead {
    ghost form = { fn_head_form };

    fn add<E: Emit>(&self, out: &mut E, before: Result<(), E::Fault>) -> Result<(), E::Fault> {
        before?;
        put_fn_head(out, self)
    }
}

impl Head for ValueHead {
    ghost form = { value_head_form };

    fn add<E: Emit>(&self, out: &mut E, before: Result<(), E::Fault>) -> Result<(), E::Fault> {
        before?;
        put_value_head(out, self)
    }
}

impl Head for TraitHead {
    ghost form = { trait_head_form };

    fn add<E: Emit>(&self, out: &mut E, before: Result<(), E::Fault>) -> Result<(), E::Fault> {
        before?;
        put_trait_head(out, self)
    }
}

impl Head for ImplHead {
    ghost form = { impl_head_form };

    fn add<E: Emit>(&self, out: &mut E, before: Result<(), E::Fault>) -> Result<(), E::Fault> {
        before?;
        put_impl_head(out, self)
    }
}

/// Emits the head of a foreign block.
pub fn add_foreign_head<E: Emit>(
    out: &mut E,
    before: Result<(), E::Fault>,
    vis: &Vis,
    is_unsafe: bool,
    abi: &Option<Literal>,
) -> Result<(), E::Fault>
    ensures { Adds E.meanings before out.old (head_row vis.now (foreign_head is_unsafe abi.now))
        result out.new }
{
    let opened = open_head(out, before, vis);
    let word = add_if(out, opened, is_unsafe, b"unsafe ");
    let word = add_text(out, word, b"extern");
    let head = add_foreign_abi(out, word, abi);
    add_end(out, head)
}

/// Emits a blank and the string of an ABI, if it has one.
fn add_foreign_abi<E: Emit>(
    out: &mut E,
    before: Result<(), E::Fault>,
    abi: &Option<Literal>,
) -> Result<(), E::Fault>
    ensures { Adds E.meanings before out.old (stream_of (foreign_abi abi.now)) result out.new }
{
    match abi {
        None => before,
        Some(name) => {
            let blank = add_text(out, before, b" ");
            add_literal(out, blank, name)
        },
    }
}
