//! Parentheses in items.
ghost use Rattle.std.specs.Prelude.{◌≡◌, OnOk, map};
ghost use Rattle.lay_paren.specs.InPlace.{item_least, kind_least};

use crate::blocks::place_block_or_none;
use crate::exprs::place_operand;
use crate::slots::Slot;
use lay_code::{Item, ItemKind};
use lay_ops::places::FREE;
use lay_token::{List, NoMemory};
use std::alloc::Global;

/// Puts the parentheses that the expressions in an item lack.
#[cycle(code)]
#[tactic(auto, using(crate::proofs::Becoming::item_becomes))]
pub(crate) fn place_item(alloc: Global, item: &mut Item) -> Result<(), NoMemory>
    ensures { OnOk result (item.new ≡ item_least item.old) }
{
    place_kind(alloc, item.kind.get_mut())
}

/// Puts the missing parentheses in items.
#[cycle(code)]
#[tactic(auto, using(crate::proofs::Turning::refill))]
fn place_items(alloc: Global, items: &mut List<Item>) -> Result<(), NoMemory>
    ensures { OnOk result (items.new ≡ map item_least items.old) }
{
    place_each_item(alloc, items.as_mut_slice())
}

/// Puts the missing parentheses in each of the items.
#[cycle(code)]
fn place_each_item(alloc: Global, items: &mut [Item]) -> Result<(), NoMemory>
    ensures { OnOk result (items.new ≡ map item_least items.old) }
{
    for item in items.iter_mut() {
        place_item(alloc, item)?;
    }
    Ok(())
}

/// Puts the missing parentheses in what an item is.
#[cycle(code)]
#[tactic(auto, using(crate::proofs::Becoming::kind_becomes))]
fn place_kind(alloc: Global, kind: &mut ItemKind) -> Result<(), NoMemory>
    ensures { OnOk result (kind.new ≡ kind_least kind.old) }
{
    match kind {
        ItemKind::Module { items, .. } => place_items(alloc, items),
        ItemKind::Trait { items, .. } => place_items(alloc, items),
        ItemKind::Impl { items, .. } => place_items(alloc, items),
        ItemKind::Foreign { items, .. } => place_items(alloc, items),
        ItemKind::Function { body, .. } => place_block_or_none(alloc, body),
        ItemKind::Value { value, .. } => place_operand(alloc, value, FREE, Slot::Any),
        _ => Ok(()),
    }
}
