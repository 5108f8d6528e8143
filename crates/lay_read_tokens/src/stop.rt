//! Why a reader reads nothing.
ghost use Rattle.std.specs.Prelude.{◌≡◌, ◌++◌, ◌∷◌, [], IfOk, OnOk, IfErr};
ghost use Rattle.lay_read_tokens.specs.Answers.{IsCopy};

use lay_node::Boxed;
use lay_token::{List, NoMemory, Text};
use std::alloc::Global;

/// Why nothing was read.
#[derive(Clone, Copy, Debug)]
pub enum ReadNone {
    /// The tokens ahead spell no such node.
    NoReading,
    /// Memory could not be allocated. It says nothing about the tokens.
    NoMemory,
}

/// An empty list with a capacity of `count` items.
pub fn room_for<T>(alloc: Global, count: usize) -> Result<List<T>, ReadNone>
    ensures ok { IfOk result (λ list. list ≡ []) }
    ensures err { IfErr result (λ none. none ≡ ReadNone.NoMemory) }
{
    match Vec::with_capacity(alloc, count) {
        Ok(items) => Ok(List::from_vec(items)),
        Err(_) => Err(ReadNone::NoMemory),
    }
}

/// Appends an item.
pub fn keep<T: Drop>(list: &mut List<T>, item: T) -> Result<(), ReadNone>
    ensures ok { OnOk result (list.new ≡ list.old ++ item ∷ []) }
    ensures err { IfErr result (λ none. none ≡ ReadNone.NoMemory) }
{
    match list.push(item) {
        Ok(()) => Ok(()),
        Err(_) => Err(ReadNone::NoMemory),
    }
}

/// Boxes the value.
pub fn boxed<T: Drop>(alloc: Global, value: T) -> Result<Boxed<T>, ReadNone>
    ensures ok { IfOk result (λ boxed. boxed ≡ value) }
    ensures err { IfErr result (λ none. none ≡ ReadNone.NoMemory) }
{
    match Boxed::new(alloc, value) {
        Ok(boxed) => Ok(boxed),
        Err(NoMemory) => Err(ReadNone::NoMemory),
    }
}

/// A copy of the text.
#[inline(always)]
pub fn copy_of(alloc: Global, text: &Text) -> Result<Text, ReadNone>
    ensures { IsCopy text.now result }
{
    match Text::from_bytes(alloc, text.as_bytes()) {
        Ok(copy) => Ok(copy),
        Err(NoMemory) => Err(ReadNone::NoMemory),
    }
}
