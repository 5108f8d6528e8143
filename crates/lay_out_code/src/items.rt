//! The layout of items.
ghost use Rattle.std.specs.Prelude.{[], ◌++◌, map, option_map};
ghost use Rattle.lay_stream.specs.Fed.{Did};
ghost use Rattle.lay_form.specs.Form.{Part, semicolon};
ghost use Rattle.lay_form.specs.Notation.{H, body, each, piece};
ghost use Rattle.lay_form.specs.Stream.{stream_of};
ghost use Rattle.lay_node.specs.nodes.Attr.{attr_form};
ghost use Rattle.lay_node.specs.nodes.Fields.{blank_if};
ghost use Rattle.lay_node.specs.nodes.Functions.{fn_head_form};
ghost use Rattle.lay_node.specs.nodes.Heads.{value_head_form};
ghost use Rattle.lay_code.specs.nodes.Code.{about_block, about_expr, form_of_item, told_of_kind};
ghost use Rattle.lay_code.specs.nodes.Exprs.{value_form};
ghost use Rattle.lay_code.specs.nodes.Item.{function_tail};
ghost use Rattle.lay_paren_defs.specs.Enclosed.{enclose_block, enclose_item, enclose_kind, part};
ghost use Rattle.lay_out_types.specs.Calls.{Adds};
ghost use Rattle.lay_out_code.specs.Parts.{head_row, kind_row};

use crate::blocks::{add_block, add_value};
use crate::calls::{add_alias, add_bare_attr, add_enum, add_extern_crate, add_struct, add_union};
use crate::heads::{Head, add_clause, add_ended, add_ended_clause, add_foreign_head, add_head};
use crate::macros::{add_call_item, add_macro_rules};
use lay_code::{Attr, Block, Boxed, Expr, FnHead, Item, ItemKind, ValueHead, Vis, Wheres};
use lay_out_exprs::flags::both;
use lay_out_heads::calls::add_break;
use lay_out_heads::items::{leads, open_head};
use lay_out_heads::loops::{close_body, open_body};
use lay_out_pats::add_attrs;
use lay_out_tokens::HARD_BREAK;
use lay_out_types::calls::{add_either, add_text};
use lay_out_types::lists::add_end;
use lay_paren_defs::{AsIs, Enclose};
use lay_stream::Emit;

/// Emits the layout of an item, with its attributes, each on a line of its own.
pub fn put_item<E: Emit>(out: &mut E, item: &Item) -> Result<(), E::Fault>
    ensures { Did E.meanings out.old (stream_of (form_of_item item.now)) result out.new }
{
    add_item::<E, AsIs>(out, Ok(()), item)
}

/// Emits an item.
#[cycle(code)]
pub fn add_item<E: Emit, X: Enclose>(
    out: &mut E,
    before: Result<(), E::Fault>,
    item: &Item,
) -> Result<(), E::Fault>
    ensures { Adds E.meanings before out.old (stream_of (form_of_item (enclose_item X.on item.now)))
        result out.new }
{
    let attrs = add_attrs(out, before, item.attrs.as_slice());
    add_kind::<E, X>(out, attrs, &item.vis, item.kind.get())
}

/// Emits an item without its attributes.
#[cycle(code)]
fn add_kind<E: Emit, X: Enclose>(
    out: &mut E,
    before: Result<(), E::Fault>,
    vis: &Vis,
    kind: &ItemKind,
) -> Result<(), E::Fault>
    ensures { let told = told_of_kind (enclose_kind X.on kind.now) in
        Adds E.meanings before out.old (kind_row vis.now told) result out.new }
{
    match kind {
        ItemKind::ExternCrate { item } => add_extern_crate(out, before, vis, item),
        ItemKind::Import { tree } => add_ended(out, before, vis, tree.get()),
        ItemKind::FileModule { name } => add_ended(out, before, vis, name),
        ItemKind::Module { name, attrs, items } => {
            let head = add_head(out, before, vis, name);
            add_body::<E, X>(out, head, true, attrs.as_slice(), items.as_slice())
        },
        ItemKind::Function { head, wheres, body } => {
            add_function::<E, X>(out, before, vis, head, wheres, body)
        },
        ItemKind::Alias { item } => add_alias(out, before, vis, item),
        ItemKind::Struct { item } => add_struct(out, before, vis, item),
        ItemKind::Union { item } => add_union(out, before, vis, item),
        ItemKind::Enum { item } => add_enum(out, before, vis, item),
        ItemKind::Value { head, value } => add_valued::<E, X>(out, before, vis, head, value),
        ItemKind::Trait {
            head,
            wheres,
            attrs,
            items,
        } => {
            let clause = add_clause(out, before, vis, head, wheres);
            add_body::<E, X>(
                out,
                clause,
                leads(wheres),
                attrs.as_slice(),
                items.as_slice(),
            )
        },
        ItemKind::Impl {
            head,
            wheres,
            attrs,
            items,
        } => {
            let clause = add_clause(out, before, vis, head, wheres);
            add_body::<E, X>(
                out,
                clause,
                leads(wheres),
                attrs.as_slice(),
                items.as_slice(),
            )
        },
        ItemKind::Foreign {
            is_unsafe,
            abi,
            attrs,
            items,
        } => {
            let head = add_foreign_head(out, before, vis, *is_unsafe, abi);
            add_body::<E, X>(out, head, true, attrs.as_slice(), items.as_slice())
        },
        ItemKind::MacroRules { name, rules } => add_macro_rules(out, before, name, rules),
        ItemKind::Call { call } => add_call_item(out, before, call),
    }
}

/// Emits a function, with its body or without one.
#[cycle(code)]
fn add_function<E: Emit, X: Enclose>(
    out: &mut E,
    before: Result<(), E::Fault>,
    vis: &Vis,
    head: &FnHead,
    wheres: &Wheres,
    body: &Option<Block>,
) -> Result<(), E::Fault>
    ensures { let told = option_map about_block (option_map (enclose_block X.on) body.now) in
        let tail = function_tail wheres.now told in
        Adds E.meanings before out.old (head_row vis.now (fn_head_form head.now) ++ stream_of tail)
        result out.new }
{
    match body {
        None => add_ended_clause(out, before, vis, head, wheres),
        Some(block) => {
            let clause = add_clause(out, before, vis, head, wheres);
            add_block::<E, X>(out, clause, leads(wheres), block)
        },
    }
}

/// Emits a constant or a static, and a `;`.
#[cycle(code)]
fn add_valued<E: Emit, X: Enclose>(
    out: &mut E,
    before: Result<(), E::Fault>,
    vis: &Vis,
    head: &ValueHead,
    value: &Option<Boxed<Expr>>,
) -> Result<(), E::Fault>
    ensures { let told = option_map about_expr (option_map (part X.on) value.now) in
        let whole = Part (value_head_form head.now) (value_form told) in
        Adds E.meanings before out.old (head_row vis.now whole ++ stream_of (piece semicolon))
        result out.new }
{
    let opened = open_head(out, before, vis);
    let head = head.add(out, opened);
    let value = add_value::<E, X>(out, head, value);
    let whole = add_end(out, value);
    add_text(out, whole, b";")
}

/// Emits inner attributes and items in braces, each on a line of its own. `lead` says that the
/// braces have a leading blank.
#[cycle(code)]
fn add_body<E: Emit, X: Enclose>(
    out: &mut E,
    before: Result<(), E::Fault>,
    lead: bool,
    attrs: &[Attr],
    items: &[Item],
) -> Result<(), E::Fault>
    ensures { let items = map (enclose_item X.on) items.now in
        let parts = map attr_form attrs.now ++ map form_of_item items in
        Adds E.meanings before out.old (stream_of (body (blank_if lead) [] parts)) result out.new }
{
    if both(attrs.is_empty(), items.is_empty()) {
        return add_either(out, before, lead, b" {}", b"{}");
    }
    let opened = open_body(out, before, lead);
    let attrs = add_inner_attrs(out, opened, attrs);
    let items = add_lines::<E, X>(out, attrs, items);
    close_body(out, items)
}

/// Emits items, each after a newline.
#[cycle(code)]
fn add_lines<E: Emit, X: Enclose>(
    out: &mut E,
    before: Result<(), E::Fault>,
    items: &[Item],
) -> Result<(), E::Fault>
    ensures { let items = map (enclose_item X.on) items.now in
        Adds E.meanings before out.old (stream_of (each H (map form_of_item items))) result
        out.new }
{
    let mut done = before;
    for item in items {
        done = add_break(out, done, HARD_BREAK);
        done = add_item::<E, X>(out, done, item);
    }
    done
}

/// Emits attributes, each after a newline.
pub fn add_inner_attrs<E: Emit>(
    out: &mut E,
    before: Result<(), E::Fault>,
    attrs: &[Attr],
) -> Result<(), E::Fault>
    ensures { Adds E.meanings before out.old (stream_of (each H (map attr_form attrs.now))) result
        out.new }
{
    let mut done = before;
    for attr in attrs {
        done = add_break(out, done, HARD_BREAK);
        done = add_bare_attr(out, done, attr);
    }
    done
}
