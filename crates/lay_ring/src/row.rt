//! A queue of numbered entries, in little memory.
ghost use Rattle.std.specs.Prelude.{◌≡◌, ◌+◌, ◌^◌, ◌<◌, ◌≤◌, [], ◌∷◌, ◌++◌, length, drop, pos, IfOk, IsOk, OnOk, OnErr};
ghost use Rattle.lay_ring.specs.declared.entry.Size.TheVariants.{Known};
ghost use Rattle.lay_ring.specs.Held.{number_of, place_of, number_after_pop, sized_at, IsUnknownAt};
ghost use Rattle.lay_ring.specs.Rows.{AreTexts, IsFirst, IsRun, IsTextAt, bytes_in, bytes_kept, entry_of, taken, text_bytes, text_in, text_most, tok_at, tok_of};

use crate::bytes::Bytes;
use crate::marks::Marks;
use lay_layout::Break;
use lay_text::NoMemory;
use std::alloc::Global;
use std::marker::Model;

/// A token that borrows its text.
#[derive(Clone, Copy, Debug)]
pub enum LentTok<'a> {
    /// A text, written as it is.
    Text(&'a [u8]),
    /// A place where a line may be broken.
    Break(Break),
    /// A group begins.
    Begin { consistent: bool, offset: i8 },
    /// The innermost open group ends.
    End,
}

/// A waiting token and its size, borrowed. The size is negative while it is unknown.
#[derive(Clone, Copy, Debug)]
pub struct LentEntry<'a> {
    pub tok: LentTok<'a>,
    pub size: i64,
}

/// Consecutive waiting texts, as one, and their number.
#[derive(Clone, Copy, Debug)]
pub struct Texts<'a> {
    pub bytes: &'a [u8],
    pub count: usize,
}

/// The value of a size that isn't known yet.
pub const UNKNOWN: i64 = -1;

/// Once this many entries were taken, the full buffer is allocated for texts even if the first one
/// would do: with the first one, room has to be looked for before each token.
const MANY: u64 = 4096;

/// An entry's token without its text.
#[derive(Clone, Copy)]
enum Kind {
    /// A text of this many bytes.
    Text(u8),
    Break(Break),
    Begin { consistent: bool, offset: i8 },
    End,
}

/// A token without its text, and its size, which is negative while it is unknown.
#[derive(Clone, Copy)]
struct SmallEntry {
    kind: Kind,
    size: i64,
}

/// A queue of entries as a [`Ring`](crate::Ring), in little memory: each takes 24 bytes, and their
/// texts are in one buffer of 128 bytes, or of 1,024 once that is too small or many entries came.
/// Texts are copied, and only `new` and `reserve` allocate. A text has at most 89 bytes.
#[derive(Drop)]
pub struct Row {
    entries: Marks<SmallEntry>,
    /// The number of the first entry.
    number: u64,
    /// The texts of the entries, one after the other.
    bytes: Bytes,
}

impl Model for Row {
    ghost use Rattle.std.specs.Prelude.{◌≡◌, length};
    ghost use Rattle.lay_ring.specs.Held.{Held};
    ghost use Rattle.lay_ring.specs.Rows.{all_taken, entries_at, texts_in};

    ghost Value = { Held };

    ghost view = { λ row. record { entries = entries_at row.entries.items row.bytes.items; first = row.number; spare = texts_in row.bytes row.entries.spare } };

    ghost invariant = { λ row. all_taken row.entries.items ≡ length row.bytes.items };
}

impl Row {
    /// An empty row. The first entry will have the number 0.
    pub fn new(alloc: Global) -> Result<Row, NoMemory>
        ensures empty { IfOk result (λ row. row.entries ≡ []) }
        ensures first { IfOk result (λ row. row.first ≡ 0) }
    {
        let entries = Marks::new(alloc, 0)?;
        let bytes = Bytes::new(alloc)?;
        Ok(Row {
            entries,
            number: 0,
            bytes,
        })
    }

    /// Adds an entry at the back and gives its number. There must be room for it. Its text is
    /// copied.
    #[inline(always)]
    pub fn push(&mut self, tok: LentTok<'_>, size: i64) -> u64
        requires room { 0 < self.old.spare }
        requires short { text_bytes (tok_of tok) ≤ text_most }
        requires bytes { bytes_in self.old.entries + text_bytes (tok_of tok) ≤ bytes_kept }
        ensures entries { self.new.entries ≡ self.old.entries ++ entry_of tok.entry size ∷ [] }
        ensures number { result ≡ number_of self.old.first (length self.old.entries) }
        ensures first { self.new.first ≡ self.old.first }
        ensures spare { self.old.spare ≤ self.new.spare + 1 }
    {
        let number = self.number.wrapping_add(self.entries.len() as u64);
        let kind = kind_of(tok);
        self.bytes.add(text_of(tok));
        self.entries.add(SmallEntry { kind, size });
        number
    }

    /// Sets the size of the entry with this number, which must be in the row with an unknown size.
    #[inline(always)]
    pub fn size_at(&mut self, number: u64, size: u64)
        requires unknown { IsUnknownAt self.old.entries (place_of self.old.first number) }
        requires small { size < 2 ^ 63 }
        ensures entries { self.new.entries ≡ sized_at self.old.entries
            (place_of self.old.first number) (Known (pos size)) }
        ensures first { self.new.first ≡ self.old.first }
        ensures spare { self.new.spare ≡ self.old.spare }
    {
        let place = number.wrapping_sub(self.number) as usize;
        if let Some(small) = self.entries.get(place) {
            let kind = small.kind;
            let size = size as i64;
            self.entries.set(place, SmallEntry { kind, size });
        }
    }

    /// The first entry.
    #[inline(always)]
    pub fn front(&self) -> Option<LentEntry<'_>>
        ensures { IsFirst self.now.entries result }
    {
        let small = self.entries.get(0)?;
        let tok = lend(small.kind, &self.bytes);
        Some(LentEntry {
            tok,
            size: small.size,
        })
    }

    /// The texts at the front, up to the first entry that is none, as one.
    #[inline(always)]
    pub fn texts(&self) -> Texts<'_>
        ensures { IsRun result.count self.now.entries result.bytes.now }
    {
        let (held, all) = (self.entries.len(), self.bytes.len());
        let (mut count, mut len) = (0, 0);
        while count < held {
            let Some(more) = text_at(&self.entries, count) else {
                break;
            };
            prove!(len <= all);
            count += 1;
            len += more;
        }
        Texts {
            bytes: self.bytes.front(len),
            count,
        }
    }

    /// Drops `count` texts at the front, which have `len` bytes together.
    #[inline(always)]
    pub fn pop_texts(&mut self, count: usize, len: usize)
        requires { AreTexts count len self.old.entries }
        ensures entries { self.new.entries ≡ drop count self.old.entries }
        ensures first { self.new.first ≡ number_of self.old.first count }
        ensures spare { self.old.spare ≤ self.new.spare }
    {
        self.entries.drop_oldest(count);
        self.bytes.drop_front(len);
        self.number = self.number.wrapping_add(count as u64);
    }

    /// Drops the first entry. The number of the first one is then one more.
    #[inline(always)]
    pub fn pop_front(&mut self)
        ensures entries { self.new.entries ≡ drop 1 self.old.entries }
        ensures first { self.new.first ≡ number_after_pop self.old.entries self.old.first }
        ensures spare { self.old.spare ≤ self.new.spare }
    {
        if let Some(small) = self.entries.pop_oldest() {
            if let Kind::Text(len) = small.kind {
                self.bytes.drop_front(len as usize);
            }
            self.number = self.number.wrapping_add(1);
        }
    }

    /// Skips a number, for an entry that isn't kept. The row must be empty.
    #[inline(always)]
    pub fn pass(&mut self)
        requires { self.old.entries ≡ [] }
        ensures entries { self.new.entries ≡ [] }
        ensures first { self.new.first ≡ number_of self.old.first 1 }
        ensures spare { self.new.spare ≡ self.old.spare }
    {
        self.number = self.number.wrapping_add(1);
    }

    /// How many entries there are.
    #[inline(always)]
    pub fn len(&self) -> usize
        ensures value { result ≡ length self.now.entries }
        ensures small { result < 2 ^ 63 }
    {
        self.entries.len()
    }

    /// Makes room for `n` more entries.
    #[inline(always)]
    pub fn reserve(&mut self, n: usize) -> Result<(), NoMemory>
        ensures entries { self.new.entries ≡ self.old.entries }
        ensures first { self.new.first ≡ self.old.first }
        ensures spare { self.old.spare ≤ self.new.spare }
        ensures ok { OnOk result (n ≤ self.new.spare) }
        ensures err { OnErr result (self.new.spare < n) }

        // If there is room already, it succeeds.
        ensures sure { n ≤ self.old.spare → IsOk result }
    {
        self.entries.reserve(n)?;
        if n > self.spare() {
            return self.bytes.grow();
        }
        if self.number >= MANY {
            // If memory is out, the buffer that there is will do.
            let _ = self.bytes.grow();
        }
        Ok(())
    }

    /// How many more entries there is room for.
    #[inline(always)]
    pub fn spare(&self) -> usize
        ensures { result ≡ self.now.spare }
    {
        self.bytes.room_for(self.entries.spare())
    }
}

/// The text of a token, which is empty where it has none.
#[inline(always)]
fn text_of<'a>(tok: LentTok<'a>) -> &'a [u8]
    ensures { result.now ≡ text_in (tok_of tok.entry) }
{
    match tok {
        LentTok::Text(text) => text,
        _ => &[],
    }
}

/// The token without its text.
#[inline(always)]
fn kind_of(tok: LentTok<'_>) -> Kind
    requires { text_bytes (tok_of tok) ≤ text_most }
    ensures taken { taken result ≡ text_bytes (tok_of tok.entry) }
    ensures token { tok_at result (text_in (tok_of tok.entry)) ≡ tok_of tok.entry }
{
    match tok {
        LentTok::Text(text) => Kind::Text(text.len() as u8),
        LentTok::Break(brk) => Kind::Break(brk),
        LentTok::Begin { consistent, offset } => Kind::Begin { consistent, offset },
        LentTok::End => Kind::End,
    }
}

/// The token of this kind; its text is the first of the bytes.
#[inline(always)]
fn lend<'a>(kind: Kind, bytes: &'a Bytes) -> LentTok<'a>
    requires { taken kind ≤ length bytes.now.items }
    ensures { tok_of result ≡ tok_at kind bytes.now.items }
{
    match kind {
        Kind::Text(len) => LentTok::Text(bytes.front(len as usize)),
        Kind::Break(brk) => LentTok::Break(brk),
        Kind::Begin { consistent, offset } => LentTok::Begin { consistent, offset },
        Kind::End => LentTok::End,
    }
}

/// The length in bytes of the text with this index, if the entry is a text.
#[inline(always)]
fn text_at(entries: &Marks<SmallEntry>, place: usize) -> Option<usize>
    ensures { IsTextAt entries.now.items place result }
{
    let small = entries.get(place)?;
    match small.kind {
        Kind::Text(len) => Some(len as usize),
        _ => None,
    }
}
