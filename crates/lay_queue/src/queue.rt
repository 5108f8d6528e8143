//! The scanning half: waiting tokens, with the sizes that are known of them.
ghost use Rattle.std.specs.Prelude.{◌≡◌, ◌+◌, ◌-◌, ◌%◌, ◌^◌, ◌<◌, ◌≤◌, [], ◌∷◌, length, drop, OnOk, IfOk, IsOk, map, true, false};
ghost use Rattle.lay_layout.specs.declared.layout.Tok.TheVariants as tok;
ghost use Rattle.lay_ring.specs.Rows.{AreTexts, IsFirst, IsRun, size_of, tok_of};
ghost use Rattle.lay_queue.specs.Closed.{toks_of, sizes_of};
ghost use Rattle.lay_queue.specs.Scan.{at_end, text_length, size_of_scan, waiting as sum_waiting, cap};
ghost use Rattle.lay_queue.specs.Notes.{Fits, scans};
ghost use Rattle.lay_queue.specs.Entries.{least_width, notes_after, next_of};
ghost use Rattle.lay_layout.specs.Machine.{IsNested};
ghost use Rattle.lay_layout.specs.Margins.{margin};

use crate::close::{CAP, Note, close};
use lay_layout::{Break, width_of};
use lay_ring::{LentEntry, LentTok, Marks, Row, Texts, UNKNOWN};
use lay_text::NoMemory;
use std::alloc::Global;

/// Waiting tokens, the oldest first, and notes of those whose size is unknown.
#[derive(Drop)]
pub struct Queue {
    ring: Row,
    notes: Marks<Note>,
    /// The width from the newest note on, at most [`CAP`].
    acc: u64,
    /// How many groups are open after all tokens.
    groups: u64,
    /// How many bytes of text wait.
    waiting: u64,
    /// No more tokens come.
    ended: bool,
    ghost sizes: { sizes_of ring.entries ≡ map size_of_scan (map (at_end ended) (scans (toks_of ring.entries))) },
    ghost fits: { Fits ring.first acc groups groups (map (at_end ended) (scans (toks_of ring.entries))) notes.items },
    ghost acc_small: { acc ≤ cap },
    ghost wait_is: { waiting ≡ sum_waiting ring.entries },
    ghost number: { ring.first < 2 ^ 64 },
    ghost held: { length ring.entries ≤ 2 ^ 63 },
}

/// The least width of a token without its text: the width of a break, else 0.
#[inline(always)]
pub fn least_width(tok: LentTok<'_>) -> u64
    ensures { result ≡ least_width (tok_of tok.entry) }
{
    match tok {
        LentTok::Break(brk) => width_of(brk),
        _ => 0,
    }
}

/// How many bytes of text a token has.
fn text_len(tok: LentTok<'_>) -> u64
    ensures { result ≡ text_length (tok_of tok.entry) }
{
    match tok {
        LentTok::Text(text) => text.len() as u64,
        _ => 0,
    }
}

/// Drops the oldest note, if the oldest entry, which has this size, has one: that is, if the size
/// is unknown.
fn drop_note(notes: &mut Marks<Note>, size: i64)
    ensures items { notes.new.items ≡ notes_after (size_of size) notes.old.items }
    ensures spare { notes.old.spare ≤ notes.new.spare }
{
    if size < 0 {
        let _ = notes.pop_oldest();
    }
}

impl Queue {
    ghost use Rattle.lay_queue.specs.Queues.{Comes, Ready, Roomier, room_in};

    /// An empty queue.
    pub fn new(alloc: Global) -> Result<Queue, NoMemory>
        ensures entries { IfOk result (λ q. q.ring.entries ≡ []) }
        ensures first { IfOk result (λ q. q.ring.first ≡ 0) }
        ensures groups { IfOk result (λ q. q.groups ≡ 0) }
        ensures ended { IfOk result (λ q. q.ended ≡ false) }
    {
        let ring = Row::new(alloc)?;
        let notes = Marks::new(alloc, 0)?;
        Ok(Queue {
            ring,
            notes,
            acc: 0,
            groups: 0,
            waiting: 0,
            ended: false,
        })
    }

    /// The oldest token, and its size.
    #[inline(always)]
    pub fn front(&self) -> Option<LentEntry<'_>>
        ensures { IsFirst self.now.ring.entries result }
    {
        self.ring.front()
    }

    /// The texts at the front, as one, up to the first token that is none.
    #[inline(always)]
    pub fn texts(&self) -> Texts<'_>
        ensures { IsRun result.count self.now.ring.entries result.bytes.now }
    {
        self.ring.texts()
    }

    /// How many tokens wait.
    #[inline(always)]
    pub fn len(&self) -> usize
        ensures value { result ≡ length self.now.ring.entries }
        ensures small { result < 2 ^ 63 }
    {
        self.ring.len()
    }

    /// How many bytes of text wait.
    #[inline(always)]
    pub fn waiting(&self) -> u64
        ensures { result ≡ self.now.waiting }
    {
        self.waiting
    }

    /// How many groups are open after all tokens.
    #[inline(always)]
    pub fn groups(&self) -> u64
        ensures { result ≡ self.now.groups }
    {
        self.groups
    }

    /// How many more tokens fit without allocating.
    #[inline(always)]
    pub fn room(&self) -> usize
        ensures { result ≡ room_in self.now }
    {
        self.ring.spare().min(self.notes.spare())
    }

    /// Makes room for `n` more tokens, each of which may have a note.
    #[inline(always)]
    pub fn reserve(&mut self, n: usize) -> Result<(), NoMemory>
        ensures same { Roomier self.old self.new }
        ensures ring { OnOk result (n ≤ self.new.ring.spare) }
        ensures notes { OnOk result (n ≤ self.new.notes.spare) }
        ensures sure { n ≤ room_in self.old → IsOk result }
    {
        self.ring.reserve(n)?;
        self.notes.reserve(n)
    }

    /// Takes a token, for which there must be room.
    #[inline(always)]
    pub fn scan(&mut self, tok: LentTok<'_>)
        requires ready { Ready self.old }
        requires short { text_length (tok_of tok) ≤ margin }
        requires nested { IsNested self.old.groups (tok_of tok ∷ []) }
        ensures { Comes self.old self.new (tok_of tok.entry) }
    {
        match tok {
            LentTok::Text(text) => self.scan_text(text),
            LentTok::Break(brk) => self.scan_break(brk),
            LentTok::Begin { consistent, offset } => self.scan_begin(consistent, offset),
            LentTok::End => self.scan_end(),
        }
    }

    /// Takes a text. Its size is known at once.
    #[inline(always)]
    fn scan_text(&mut self, text: &[u8])
        requires ready { Ready self.old }
        requires short { length text.now ≤ margin }
        ensures { Comes self.old self.new (tok.Text text.now) }
    {
        let len = text.len() as u64;
        let _ = self.ring.push(LentTok::Text(text), len as i64);
        self.acc = (self.acc + len).min(CAP);
        self.waiting += len;
    }

    /// Takes a break. It ends the measured width of all that was noted with at least as many groups
    /// open.
    #[inline(always)]
    fn scan_break(&mut self, brk: Break)
        requires { Ready self.old }
        ensures { Comes self.old self.new (tok.Break brk) }
    {
        let width = width_of(brk);
        let delta = close(&mut self.ring, &mut self.notes, self.acc, self.groups);
        let number = self.ring.push(LentTok::Break(brk), UNKNOWN);
        let note = Note {
            number,
            level: self.groups,
            delta,
        };
        self.notes.add(note);
        self.acc = width;
    }

    /// Takes the begin of a group.
    #[inline(always)]
    fn scan_begin(&mut self, consistent: bool, offset: i8)
        requires { Ready self.old }
        ensures { Comes self.old self.new (tok.Begin consistent offset) }
    {
        let number = self
            .ring
            .push(LentTok::Begin { consistent, offset }, UNKNOWN);
        let note = Note {
            number,
            level: self.groups,
            delta: self.acc,
        };
        self.notes.add(note);
        self.acc = 0;
        self.groups += 1;
    }

    /// Takes the end of the innermost group. Measured widths go on past it.
    #[inline(always)]
    fn scan_end(&mut self)
        requires ready { Ready self.old }
        requires groups { 0 < self.old.groups }
        ensures { Comes self.old self.new tok.End }
    {
        let _ = self.ring.push(LentTok::End, 0);
        self.groups -= 1;
    }

    /// Ends all measured widths: no more tokens come.
    pub fn end_all(&mut self)
        requires ended { self.old.ended ≡ false }
        requires groups { self.old.groups ≡ 0 }
        ensures toks { toks_of self.new.ring.entries ≡ toks_of self.old.ring.entries }
        ensures length { length self.new.ring.entries ≤ length self.old.ring.entries }
        ensures groups { self.new.groups ≡ self.old.groups }
        ensures ring_spare { self.old.ring.spare ≤ self.new.ring.spare }
        ensures notes_spare { self.old.notes.spare ≤ self.new.notes.spare }
        ensures ended { self.new.ended ≡ true }
    {
        self.acc = close(&mut self.ring, &mut self.notes, self.acc, 0);
        self.ended = true;
    }

    /// Skips a number, for a token that is printed at once. Nothing may wait.
    #[inline(always)]
    pub fn pass(&mut self)
        requires { self.old.ring.entries ≡ [] }
        ensures entries { self.new.ring.entries ≡ [] }
        ensures groups { self.new.groups ≡ self.old.groups }
        ensures ring_spare { self.new.ring.spare ≡ self.old.ring.spare }
        ensures notes_spare { self.new.notes.spare ≡ self.old.notes.spare }
        ensures number { next_of self.new.ring.first self.new.ring.entries
            ≡ (next_of self.old.ring.first self.old.ring.entries + 1) % 2 ^ 64 }
        ensures ended { self.new.ended ≡ self.old.ended }
    {
        self.ring.pass();
    }

    /// Drops the oldest entry.
    #[inline(always)]
    pub fn drop_front(&mut self)
        ensures entries { self.new.ring.entries ≡ drop 1 self.old.ring.entries }
        ensures groups { self.new.groups ≡ self.old.groups }
        ensures ring_spare { self.old.ring.spare ≤ self.new.ring.spare }
        ensures notes_spare { self.old.notes.spare ≤ self.new.notes.spare }
        ensures number { next_of self.new.ring.first self.new.ring.entries
            ≡ next_of self.old.ring.first self.old.ring.entries }
        ensures ended { self.new.ended ≡ self.old.ended }
    {
        if let Some(entry) = self.ring.front() {
            let len = text_len(entry.tok);
            drop_note(&mut self.notes, entry.size);
            self.waiting -= len;
            self.ring.pop_front();
        }
    }

    /// Drops `count` texts at the front, which have `len` bytes together.
    #[inline(always)]
    pub fn drop_texts(&mut self, count: usize, len: usize)
        requires { AreTexts count len self.old.ring.entries }
        ensures entries { self.new.ring.entries ≡ drop count self.old.ring.entries }
        ensures groups { self.new.groups ≡ self.old.groups }
        ensures ring_spare { self.old.ring.spare ≤ self.new.ring.spare }
        ensures notes_spare { self.old.notes.spare ≤ self.new.notes.spare }
        ensures number { next_of self.new.ring.first self.new.ring.entries
            ≡ next_of self.old.ring.first self.old.ring.entries }
        ensures ended { self.new.ended ≡ self.old.ended }
    {
        self.ring.pop_texts(count, len);
        self.waiting -= len as u64;
    }

    /// Begins anew after the end: tokens may come again. Nothing may wait.
    pub fn restart(&mut self)
        ensures ring { self.new.ring ≡ self.old.ring }
        ensures notes { self.new.notes.spare ≡ self.old.notes.spare }
        ensures groups { self.new.groups ≡ self.old.groups }
        ensures ended { self.old.ring.entries ≡ [] → self.new.ended ≡ false }
    {
        if self.ring.len() == 0 {
            self.ended = false;
        }
    }
}
