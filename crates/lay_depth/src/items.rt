//! The depth of items.
ghost use Rattle.std.specs.Prelude.{◌≡◌, map};
ghost use Rattle.lay_form.specs.Depth.{least_depth};
ghost use Rattle.lay_code.specs.nodes.Code.{form_of_item};
ghost use Rattle.lay_depth.specs.nodes.Depths.{counted, greatest};
ghost use Rattle.lay_depth.specs.Parts.{kind_need};

use crate::blocks::block_or_none_depth;
use crate::exprs::operand_depth;
use crate::nodes::{
    alias_depth, deeper, enum_depth, fn_head_depth, impl_head_depth, struct_depth,
    trait_head_depth, union_depth, use_depth, value_head_depth, wheres_depth,
};
use lay_code::{Item, ItemKind};

/// The depth of an item.
#[cycle(code)]
pub(crate) fn item_depth(item: &Item) -> u32
    ensures { result ≡ counted (least_depth (form_of_item item.now)) }
{
    deeper(kind_depth(item.kind.get()))
}

/// The greatest depth of the items.
#[cycle(code)]
pub(crate) fn items_depth(items: &[Item]) -> u32
    ensures { result ≡ counted (greatest (map form_of_item items.now)) }
{
    let mut most = 0u32;
    for item in items {
        most = most.max(item_depth(item));
    }
    most
}

/// The depth of an item without its attributes and its visibility.
#[cycle(code)]
fn kind_depth(kind: &ItemKind) -> u32
    ensures { result ≡ counted (kind_need kind.now) }
{
    match kind {
        ItemKind::ExternCrate { .. }
        | ItemKind::FileModule { .. }
        | ItemKind::MacroRules { .. }
        | ItemKind::Call { .. } => 0,
        ItemKind::Import { tree } => use_depth(tree.get()),
        ItemKind::Module { items, .. } | ItemKind::Foreign { items, .. } => {
            items_depth(items.as_slice())
        },
        ItemKind::Function { head, wheres, body } => fn_head_depth(head)
            .max(wheres_depth(wheres))
            .max(block_or_none_depth(body)),
        ItemKind::Alias { item } => alias_depth(item),
        ItemKind::Struct { item } => struct_depth(item),
        ItemKind::Union { item } => union_depth(item),
        ItemKind::Enum { item } => enum_depth(item),
        ItemKind::Value { head, value } => value_head_depth(head).max(operand_depth(value)),
        ItemKind::Trait {
            head,
            wheres,
            items,
            ..
        } => trait_head_depth(head)
            .max(wheres_depth(wheres))
            .max(items_depth(items.as_slice())),
        ItemKind::Impl {
            head,
            wheres,
            items,
            ..
        } => impl_head_depth(head)
            .max(wheres_depth(wheres))
            .max(items_depth(items.as_slice())),
    }
}
