//! A list of items that is open at both ends.
ghost use Rattle.std.specs.Prelude.{◌≡◌, ◌+◌, ◌-◌, ◌^◌, ◌<◌, ◌≤◌, [], ◌∷◌, ◌++◌, length, slice_get, slice_set, take, drop, IfOk, IsOk, OnOk, OnErr};

use lay_text::NoMemory;
use std::alloc::Global;
use std::marker::Model;

/// For how many items room is made at once, so that the waiting ones are seldom moved.
const FEW: usize = 256;

/// A list of items, the oldest first, and how many more there is room for. After `NoMemory` it is
/// as it was.
#[derive(Drop)]
pub struct Marks<T> {
    /// The items are those from the index `first` on; those before were taken.
    kept: Vec<T>,
    first: usize,
}

impl<T> Model for Marks<T> {
    ghost use Rattle.std.specs.Prelude.{◌-◌, ◌≤◌, drop, length, vec_capacity, vec_len};
    ghost use Rattle.lay_ring.specs.Held.{Marked};

    ghost Value = { Marked T };

    ghost view = { λ marks. record { items = drop marks.first marks.kept.items; spare = vec_capacity marks.kept - vec_len marks.kept } };

    ghost invariant = { λ marks. marks.first ≤ vec_len marks.kept };
}

impl<T: Copy> Marks<T> {
    /// An empty list with room for `room` items.
    pub fn new(alloc: Global, room: usize) -> Result<Marks<T>, NoMemory>
        ensures empty { IfOk result (λ marks. marks.items ≡ []) }
        ensures spare { IfOk result (λ marks. room ≤ marks.spare) }
    {
        match Vec::with_capacity(alloc, room) {
            Ok(kept) => Ok(Marks { kept, first: 0 }),
            Err(_) => Err(NoMemory),
        }
    }

    /// Adds an item as the newest.
    #[inline(always)]
    pub fn push(&mut self, item: T) -> Result<(), NoMemory>
        ensures ok { OnOk result (self.new.items ≡ self.old.items ++ item ∷ []) }
        ensures err { OnErr result (self.new ≡ self.old) }

        // If there is room it succeeds, and uses up the room of one item.
        ensures sure { 0 < self.old.spare → IsOk result }
        ensures spare { 0 < self.old.spare → self.new.spare + 1 ≡ self.old.spare }
    {
        self.reserve(1)?;
        self.add(item);
        Ok(())
    }

    /// Adds an item as the newest. There must be room.
    #[inline(always)]
    pub fn add(&mut self, item: T)
        requires { 0 < self.old.spare }
        ensures items { self.new.items ≡ self.old.items ++ item ∷ [] }
        ensures spare { self.new.spare + 1 ≡ self.old.spare }
    {
        self.kept.push_reserved(item);
    }

    /// Takes the newest item.
    #[inline(always)]
    pub fn pop(&mut self) -> Option<T>
        ensures value { result ≡ slice_get self.old.items (length self.old.items - 1) }
        ensures items { self.new.items ≡ take (length self.old.items - 1) self.old.items }
        ensures spare { self.old.spare ≤ self.new.spare }
    {
        if self.kept.len() == self.first {
            return None;
        }
        Some(self.kept.take_last())
    }

    /// Takes the oldest item.
    #[inline(always)]
    pub fn pop_oldest(&mut self) -> Option<T>
        ensures value { result ≡ slice_get self.old.items 0 }
        ensures items { self.new.items ≡ drop 1 self.old.items }
        ensures spare { self.old.spare ≤ self.new.spare }
    {
        let oldest = self.get(0)?;
        self.drop_oldest(1);
        Some(oldest)
    }

    /// Drops the `count` oldest items.
    #[inline(always)]
    pub fn drop_oldest(&mut self, count: usize)
        requires { count ≤ length self.old.items }
        ensures items { self.new.items ≡ drop count self.old.items }
        ensures spare { self.old.spare ≤ self.new.spare }
    {
        self.first += count;
        if self.first == self.kept.len() {
            self.kept.clear();
            self.first = 0;
        }
    }

    /// The newest item.
    #[inline(always)]
    pub fn last(&self) -> Option<T>
        ensures { result ≡ slice_get self.now.items (length self.now.items - 1) }
    {
        if self.kept.len() == self.first {
            return None;
        }
        Some(self.kept[self.kept.len() - 1])
    }

    /// The item with this index, counted from the oldest.
    #[inline(always)]
    pub fn get(&self, place: usize) -> Option<T>
        ensures { result ≡ slice_get self.now.items place }
    {
        if place >= self.kept.len() - self.first {
            return None;
        }
        Some(self.kept[self.first + place])
    }

    /// Replaces the item with this index.
    #[inline(always)]
    pub fn set(&mut self, place: usize, item: T)
        requires { place < length self.old.items }
        ensures items { self.new.items ≡ slice_set self.old.items place item }
        ensures spare { self.new.spare ≡ self.old.spare }
    {
        self.kept[self.first + place] = item;
    }

    /// How many items there are.
    #[inline(always)]
    pub fn len(&self) -> usize
        ensures value { result ≡ length self.now.items }
        ensures small { result < 2 ^ 63 }
    {
        self.kept.len() - self.first
    }

    /// Makes room for `n` more items.
    #[inline(always)]
    pub fn reserve(&mut self, n: usize) -> Result<(), NoMemory>
        ensures items { self.new.items ≡ self.old.items }
        ensures spare { self.old.spare ≤ self.new.spare }
        ensures ok { OnOk result (n ≤ self.new.spare) }
        ensures err { OnErr result (self.new ≡ self.old) }

        // If there is room already, it succeeds and changes nothing.
        ensures sure { n ≤ self.old.spare → IsOk result }
        ensures as_it_was { n ≤ self.old.spare → self.new ≡ self.old }
    {
        if n <= self.kept.capacity() - self.kept.len() {
            return Ok(());
        }
        self.grow(n)
    }

    /// Makes room for `n` more items: it reuses the room of the items that were taken, if they are
    /// half of all and that is enough; otherwise it allocates for at least [`FEW`] items.
    #[inline(never)]
    fn grow(&mut self, n: usize) -> Result<(), NoMemory>
        requires { self.old.spare < n }
        ensures items { self.new.items ≡ self.old.items }
        ensures spare { self.old.spare ≤ self.new.spare }
        ensures ok { OnOk result (n ≤ self.new.spare) }
        ensures err { OnErr result (self.new ≡ self.old) }
    {
        let held = self.kept.len() - self.first;
        if held <= self.first && n <= self.kept.capacity() - held {
            self.kept.rotate_left(self.first);
            self.kept.truncate(held);
            self.first = 0;
            return Ok(());
        }
        match self.kept.reserve(n.max(FEW)) {
            Ok(()) => Ok(()),
            Err(_) => Err(NoMemory),
        }
    }

    /// How many more items there is room for.
    #[inline(always)]
    pub fn spare(&self) -> usize
        ensures { result ≡ self.now.spare }
    {
        self.kept.capacity() - self.kept.len()
    }
}
