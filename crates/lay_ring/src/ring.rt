//! A queue of numbered entries.
ghost use Rattle.std.specs.Prelude.{◌≡◌, ◌≢◌, ℕ, ◌+◌, ◌^◌, ◌<◌, ◌≤◌, [], ◌∷◌, ◌++◌, length, slice_get, option_copied, drop, IfOk, IfErr, IsOk, OnOk, OnErr};
ghost use Rattle.lay_ring.specs.Held.{number_of, place_of, number_after_pop, sized_at, IsUnknownAt};

use crate::entry::{Entry, Size};
use crate::room;
use circular_buffer::HeapCircularBuffer;
use lay_text::NoMemory;
use std::alloc::Global;
use std::marker::Model;

/// A queue of entries, the number of the first one, and how many more there is room for. The number
/// of each entry is one more than that of the entry before it, modulo 2^64. After `NoMemory` the
/// ring is as it was.
#[derive(Drop)]
pub struct Ring {
    buffer: HeapCircularBuffer<Entry>,
    first: u64,
}

impl Model for Ring {
    ghost use Rattle.std.specs.Prelude.{◌-◌, length};
    ghost use Rattle.lay_ring.specs.Held.{Held};

    ghost Value = { Held };

    ghost view = { λ ring. record { entries = ring.buffer.items; first = ring.first; spare = ring.buffer.capacity - length ring.buffer.items } };
}

impl Ring {
    /// An empty ring with room for `room` entries. The first one will have the number 0.
    pub fn new(alloc: Global, room: usize) -> Result<Ring, NoMemory>
        ensures empty { IfOk result (λ ring. ring.entries ≡ []) }
        ensures first { IfOk result (λ ring. ring.first ≡ 0) }
        ensures spare { IfOk result (λ ring. room ≤ ring.spare) }
    {
        match HeapCircularBuffer::with_capacity(alloc, room) {
            Ok(buffer) => Ok(Ring { buffer, first: 0 }),
            Err(_) => Err(NoMemory),
        }
    }

    /// Adds an entry at the back and gives its number. `Err` gives the entry back if memory is out.
    pub fn push(&mut self, entry: Entry) -> Result<u64, Entry>
        ensures ok { OnOk result (self.new.entries ≡ self.old.entries ++ entry ∷ []) }
        ensures number { IfOk result (λ number. number
            ≡ number_of self.old.first (length self.old.entries)) }
        ensures first { self.new.first ≡ self.old.first }
        ensures err { OnErr result (self.new ≡ self.old) }
        ensures back { IfErr result (λ given. given ≡ entry) }

        // If there is room it succeeds, and uses up the room of one entry.
        ensures sure { 0 < self.old.spare → IsOk result }
        ensures spare { 0 < self.old.spare → self.new.spare + 1 ≡ self.old.spare }
    {
        if room::reserve(&mut self.buffer, 1).is_err() {
            return Err(entry);
        }
        let number = self.first.wrapping_add(self.buffer.len() as u64);
        match self.buffer.try_push_back(entry) {
            Ok(()) => Ok(number),
            Err(entry) => Err(entry),
        }
    }

    /// Sets the size of the entry with this number, which must be in the ring with an unknown size.
    /// The new size is known.
    pub fn size_at(&mut self, number: u64, size: Size)
        requires unknown { IsUnknownAt self.old.entries (place_of self.old.first number) }
        requires known { size ≢ Size.Unknown }
        ensures entries { self.new.entries ≡ sized_at self.old.entries
            (place_of self.old.first number) size }
        ensures first { self.new.first ≡ self.old.first }
        ensures spare { self.new.spare ≡ self.old.spare }
    {
        let place = number.wrapping_sub(self.first) as usize;
        if let Some(entry) = self.buffer.get_mut(place) {
            entry.size = size;
        }
    }

    /// The first entry.
    pub fn front(&self) -> Option<&Entry>
        ensures { option_copied result ≡ slice_get self.now.entries 0 }
    {
        self.buffer.front()
    }

    /// Takes the first entry. The number of the first one is then one more.
    pub fn pop_front(&mut self) -> Option<Entry>
        ensures value { result ≡ slice_get self.old.entries 0 }
        ensures entries { self.new.entries ≡ drop 1 self.old.entries }
        ensures first { self.new.first ≡ number_after_pop self.old.entries self.old.first }
        ensures spare { self.old.spare ≤ self.new.spare }
    {
        let entry = self.buffer.pop_front()?;
        self.first = self.first.wrapping_add(1);
        Some(entry)
    }

    /// Skips a number, for an entry that isn't kept. The ring must be empty.
    #[inline(always)]
    pub fn pass(&mut self)
        requires { self.old.entries ≡ [] }
        ensures entries { self.new.entries ≡ [] }
        ensures first { self.new.first ≡ number_of self.old.first 1 }
        ensures spare { self.new.spare ≡ self.old.spare }
    {
        self.first = self.first.wrapping_add(1);
    }

    /// The number of the first entry, or of the next one that is pushed if there is none.
    pub fn first(&self) -> u64
        ensures { result ≡ self.now.first }
    {
        self.first
    }

    /// How many entries there are.
    pub fn len(&self) -> usize
        ensures value { result ≡ length self.now.entries }
        ensures small { result < 2 ^ 63 }
    {
        self.buffer.len()
    }

    /// Makes room for `n` more entries.
    pub fn reserve(&mut self, n: usize) -> Result<(), NoMemory>
        ensures entries { self.new.entries ≡ self.old.entries }
        ensures first { self.new.first ≡ self.old.first }
        ensures spare { self.old.spare ≤ self.new.spare }
        ensures ok { OnOk result (n ≤ self.new.spare) }
        ensures err { OnErr result (self.new ≡ self.old) }

        // If there is room already, it succeeds and changes nothing.
        ensures sure { n ≤ self.old.spare → IsOk result }
        ensures as_it_was { n ≤ self.old.spare → self.new ≡ self.old }
    {
        room::reserve(&mut self.buffer, n)
    }

    /// How many more entries there is room for.
    pub fn spare(&self) -> usize
        ensures { result ≡ self.now.spare }
    {
        room::spare(&self.buffer)
    }
}

/// If there are fewer than 2^64 entries, the number of an entry determines its index. (No code
/// runs.)
pub fn number_law()
    ensures { (first place : ℕ) → first < 2 ^ 64 → place < 2 ^ 64
        → place_of first (number_of first place) ≡ place }
{}
