//! A queue of bytes, in a buffer of one of two fixed lengths.
ghost use Rattle.std.specs.Prelude.{◌≡◌, ◌+◌, ◌-◌, ◌≤◌, [], ◌++◌, length, take, drop, true, IfOk, OnOk, OnErr};
ghost use Rattle.lay_ring.specs.Rows.{bytes_kept, room_in, texts_in};

use lay_layout::MARGIN;
use lay_text::NoMemory;
use std::alloc::Global;
use std::marker::Model;

/// The length of the first buffer, in bytes.
const FIRST: usize = 128;

/// The length of the full buffer, in bytes.
const FULL: usize = 1024;

/// The greatest length of a text, in bytes: as many as a line has columns.
const LONGEST: usize = MARGIN as usize;

/// A queue of bytes: they are added at the back and taken from the front. Contracts see them as a
/// list, and whether the buffer is the full one.
#[derive(Drop)]
pub struct Bytes {
    room: Vec<u8>,
    is_full: bool,
    /// The bytes are those with the indices from `first` up to `end`.
    first: usize,
    end: usize,
}

impl Model for Bytes {
    ghost use Rattle.std.specs.Prelude.{◌≡◌, ◌≤◌, take, drop, vec_len};
    ghost use Rattle.lay_ring.specs.Rows.{Kept, room_in};

    ghost Value = { Kept };

    ghost view = { λ b. record { items = drop b.first (take b.end b.room.items); full = b.is_full } };

    ghost invariant = { λ b. (b.first ≤ b.end) × (b.end ≤ vec_len b.room) × (vec_len b.room ≡ room_in b.is_full) };
}

impl Bytes {
    /// An empty queue with the first buffer.
    pub fn new(alloc: Global) -> Result<Bytes, NoMemory>
        ensures { IfOk result (λ bytes. bytes.items ≡ []) }
    {
        match vec![in alloc; 0u8; FIRST] {
            Ok(room) => Ok(Bytes {
                room,
                is_full: false,
                first: 0,
                end: 0,
            }),
            Err(_) => Err(NoMemory),
        }
    }

    /// Allocates the full buffer.
    #[inline(never)]
    pub fn grow(&mut self) -> Result<(), NoMemory>
        ensures items { self.new.items ≡ self.old.items }
        ensures ok { OnOk result (self.new.full ≡ true) }
        ensures err { OnErr result (self.new ≡ self.old) }
    {
        match self.room.resize(FULL, 0) {
            Ok(()) => {
                self.is_full = true;
                Ok(())
            }
            Err(_) => Err(NoMemory),
        }
    }

    /// How many of `count` texts surely fit: all in the full buffer, and at most one in the first.
    #[inline(always)]
    pub fn room_for(&self, count: usize) -> usize
        ensures { result ≡ texts_in self.now count }
    {
        if self.is_full {
            return count;
        }
        if self.len() <= FIRST - LONGEST {
            return count.min(1);
        }
        0
    }

    /// Adds bytes at the back. There must be room for them.
    #[inline(always)]
    pub fn add(&mut self, more: &[u8])
        requires { length self.old.items + length more.now ≤ room_in self.old.full }
        ensures items { self.new.items ≡ self.old.items ++ more.now }
        ensures full { self.new.full ≡ self.old.full }
    {
        make_room(
            self.room.as_mut_slice(),
            &mut self.first,
            &mut self.end,
            more.len(),
        );
        put_at(self.room.as_mut_slice(), self.end, more);
        self.end += more.len();
    }

    /// How many bytes there are.
    #[inline(always)]
    pub fn len(&self) -> usize
        ensures value { result ≡ length self.now.items }
        ensures small { result ≤ bytes_kept }
    {
        self.end - self.first
    }

    /// The first `count` bytes.
    #[inline(always)]
    pub fn front(&self, count: usize) -> &[u8]
        requires { count ≤ length self.now.items }
        ensures { result.now ≡ take count self.now.items }
    {
        &self.room.as_slice()[self.first..self.first + count]
    }

    /// Drops the first `count` bytes.
    #[inline(always)]
    pub fn drop_front(&mut self, count: usize)
        requires { count ≤ length self.old.items }
        ensures items { self.new.items ≡ drop count self.old.items }
        ensures full { self.new.full ≡ self.old.full }
    {
        self.first += count;
        if self.first == self.end {
            self.first = 0;
            self.end = 0;
        }
    }
}

/// Moves the bytes to the beginning of the buffer, if the room after them is too small for `more`.
#[inline(always)]
fn make_room(room: &mut [u8], first: &mut usize, end: &mut usize, more: usize)
    requires order { first.old ≤ end.old }
    requires end { end.old ≤ length room.old }
    requires fits { end.old + more ≤ first.old + length room.old }
    ensures same { drop first.new (take end.new room.new) ≡ drop first.old (take end.old room.old) }
    ensures order { first.new ≤ end.new }
    ensures room { end.new + more ≤ length room.new }
    ensures length { length room.new ≡ length room.old }
{
    if more <= room.len() - *end {
        return;
    }
    turn(room, *first);
    *end -= *first;
    *first = 0;
}

/// Copies bytes into the buffer, from the index `place` on.
#[inline(always)]
fn put_at(room: &mut [u8], place: usize, more: &[u8])
    requires { place + length more.now ≤ length room.old }
    ensures front { take (place + length more.now) room.new ≡ take place room.old ++ more.now }
    ensures length { length room.new ≡ length room.old }
{
    room[place..place + more.len()].copy_from_slice(more);
}

/// Moves the bytes from the index `place` on to the beginning of the buffer.
#[inline(never)]
fn turn(room: &mut [u8], place: usize)
    requires { place ≤ length room.old }
    ensures { room.new ≡ drop place room.old ++ take place room.old }
{
    room.rotate_left(place);
}
