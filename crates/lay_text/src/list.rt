//! [`List`], a growable list of items.
ghost use Rattle.std.specs.Prelude.{◌≡◌, ◌++◌, ◌∷◌, [], OnOk, OnErr, IfErr};
ghost use Rattle.std.specs.Borrow.{sem};

use std::alloc::Global;
use std::marker::Model;

/// A list of items, kept in a `Vec`. Contracts see the items alone: neither the capacity nor the
/// address, so two lists with the same items are equal.
#[derive(Debug, Drop)]
pub struct List<T> {
    items: Vec<T>,
}

impl<T> Model for List<T> {
    ghost use Rattle.std.specs.Prelude.{List as Items};
    ghost use Rattle.std.specs.Coded.{coded_list};

    ghost Value = { Items T };

    ghost coded = { coded_list T.code };

    ghost view = { λ list. list.items.items };
}

impl<T> List<T> {
    ghost use Rattle.lay_text.specs.Lending.{LendsItems};

    /// The empty list. It doesn't allocate.
    pub fn new(alloc: Global) -> List<T>
        ensures { result ≡ [] }
    {
        List {
            items: Vec::new(alloc),
        }
    }

    /// Appends an item. `Err` gives the item back if memory is out. The first push allocates room
    /// for one item only, since a tree has many lists of one item.
    pub fn push(&mut self, item: T) -> Result<(), T>
        ensures ok { OnOk result (self.new ≡ self.old ++ item ∷ []) }
        ensures err { OnErr result (self.new ≡ self.old) }
        ensures back { IfErr result (λ given. given ≡ item) }
    {
        if self.items.is_empty() && self.items.reserve_exact(1).is_err() {
            return Err(item);
        }
        match self.items.push(item) {
            Ok(()) => Ok(()),
            Err(refused) => Err(refused.value),
        }
    }

    /// All items, as a slice.
    pub fn as_slice(&self) -> &[T]
        ensures { result.now ≡ self.now }
    {
        self.items.as_slice()
    }

    /// All items, as a slice that can be changed.
    pub fn as_mut_slice(&mut self) -> &mut [T]
        ensures* lent { sem 𝓛 (LendsItems T.row self.entry result) }
        ensures value { result.now ≡ self.old }
    {
        self.items.as_mut_slice()
    }

    /// Makes a list of a vector, with the same items.
    pub fn from_vec(items: Vec<T>) -> List<T>
        ensures { result ≡ items.items }
    {
        List { items }
    }

    /// Gives the vector that holds the items.
    pub fn into_vec(self) -> Vec<T>
        ensures { result.items ≡ self }
    {
        let List { items } = self;
        items
    }
}
