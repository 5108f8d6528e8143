//! Where scanning and printing meet: the first entry of the row is printed once it is decided
//! whether it fits.
ghost use Rattle.std.specs.Prelude.{◌≡◌, ◌+◌, ◌%◌, ◌^◌, ◌<◌, ◌≤◌, List, [], ◌∷◌, ◌++◌, length, nat_lt, OnOk, OnErr, IfOk, IfErr, IsOk, IsTrue, Some, None, false};
ghost use Rattle.lay_layout.specs.declared.layout.Tok.TheVariants as tok;
ghost use Rattle.lay_layout.specs.Machine.{opened, IsNested};
ghost use Rattle.lay_layout.specs.Margins.{margin};
ghost use Rattle.lay_io.specs.Faults.{HasCause, SameLoan};
ghost use Rattle.lay_ring.specs.Rows.{tok_of};
ghost use Rattle.lay_ring.specs.declared.entry.Entry.{Entry};
ghost use Rattle.lay_queue.specs.Closed.{toks_of};
ghost use Rattle.lay_queue.specs.Scan.{text_length, waiting as sum_waiting};
ghost use Rattle.lay_queue.specs.Queues.{IsAdded};
ghost use Rattle.lay_printer.specs.Queued.{Advances, Decided, Ends, IsClear, IsLimit, IsOpenAtFront, IsUndecided, MayStay};
ghost use Rattle.lay_queue.specs.Entries.{next_of};

use crate::page::Page;
use lay_io::{Failed, Sink};
use lay_layout::Break;
use lay_queue::{Queue, least_width};
use lay_ring::LentTok;
use lay_stream::exceeds;
use lay_text::NoMemory;

/// Why a call of a printer failed.
#[derive(Clone, Copy, Debug, PartialEq, Eq)]
pub enum PrintError {
    /// A write of the sink failed.
    WriteFailed,
    /// Memory could not be allocated.
    NoMemory,
}

/// The waiting tokens, and the state of the layout before them. There is room for a frame for each
/// token.
#[derive(Drop)]
pub struct Engine {
    pub queue: Queue,
    pub page: Page,
    /// How many bytes of text may wait before the oldest entry is forced; computed when it is found
    /// undecided.
    pub limit: u64,
    ghost room: { length queue.ring.entries ≤ page.frames.spare },
    ghost level: { queue.groups ≡ opened (toks_of queue.ring.entries) (length page.frames.frames) },
}

impl Engine {
    ghost use Rattle.lay_queue.specs.Queues.{Comes};
    ghost use Rattle.lay_printer.specs.Engines.{Passes, Stays, room_of};
    ghost use Rattle.lay_printer.specs.Printers.{Blames};
    ghost use Rattle.lay_printer.specs.declared.engine.PrintError.TheVariants.{WriteFailed};

    /// Takes a token, and prints what is then decided. `roomy` says that there is room for it, so
    /// that room need not be looked for. The oldest entry wasn't decided before, so few tokens can
    /// decide it.
    #[inline(always)]
    pub fn feed<K: Sink>(
        &mut self,
        sink: &mut K,
        tok: LentTok<'_>,
        roomy: bool,
    ) -> Result<(), PrintError>
        requires roomy { IsTrue roomy → 0 < room_of self.old }
        requires ended { self.old.queue.ended ≡ false }
        requires few { self.old.queue.waiting ≤ margin }
        requires short { text_length (tok_of tok) ≤ margin }
        requires nested { IsNested self.old.queue.groups (tok_of tok ∷ []) }
        requires undecided { Decided self.old.queue.ring.entries self.old.queue.waiting self.old.page.line None }
        requires limit { IsLimit self.old.queue.ring.entries self.old.page.line self.old.limit }
        ensures feeds { Advances false self.old.queue.ring.entries self.old.page.line self.old.page.frames.frames (K.written sink.old) result self.new.queue.ring.entries self.new.page.line self.new.page.frames.frames (K.written sink.new) (λ s. s ++ tok_of tok.entry ∷ []) }
        ensures sure { IsTrue roomy → IfErr result (λ e. e ≡ WriteFailed) }
        ensures stops { OnOk result (Decided self.new.queue.ring.entries self.new.queue.waiting self.new.page.line None) }
        ensures limit { OnOk result (IsLimit self.new.queue.ring.entries self.new.page.line self.new.limit) }
        ensures groups { OnOk result (self.new.queue.groups ≡ opened (tok_of tok.entry ∷ []) self.old.queue.groups) }
        ensures ended { OnOk result (self.new.queue.ended ≡ false) }
        ensures room { room_of self.old ≤ room_of self.new + 1 }
        ensures number { OnOk result (next_of self.new.queue.ring.first self.new.queue.ring.entries ≡ (next_of self.old.queue.ring.first self.old.queue.ring.entries + 1) % 2 ^ 64) }
        ensures cause { Blames (K.faults sink.old) (K.faults sink.new) result }
        ensures loan { SameLoan (K.loan sink.old) (K.loan sink.new) }
    {
        let waits = self.waits();
        match self.take(tok, roomy) {
            Ok(()) => {}
            Err(NoMemory) => return Err(PrintError::NoMemory),
        }
        if waits && self.stays(tok) {
            return Ok(());
        }
        match self.print_decided(sink, 0) {
            Ok(()) => Ok(()),
            Err(Failed) => Err(PrintError::WriteFailed),
        }
    }

    /// Whether a token waits.
    #[inline(always)]
    fn waits(&self) -> bool
        ensures { IsTrue result → 0 < length self.now.queue.ring.entries }
    {
        self.queue.len() > 0
    }

    /// Whether the oldest entry is still undecided after this token: a text decides it if more text
    /// waits than may, and a break if it ends its measured width.
    #[inline(always)]
    fn stays(&self, tok: LentTok<'_>) -> bool
        ensures { IsTrue result → MayStay (tok_of tok.entry) self.now.queue.ring.entries self.now.queue.waiting self.now.limit }
    {
        match tok {
            LentTok::Text(_) => self.queue.waiting() <= self.limit,
            LentTok::Break(_) => self.is_open_at_front(),
            _ => true,
        }
    }

    /// Whether the oldest entry has no size yet.
    #[inline(always)]
    fn is_open_at_front(&self) -> bool
        ensures { IsTrue result → IsOpenAtFront self.now.queue.ring.entries }
    {
        match self.queue.front() {
            Some(entry) => entry.size < 0,
            None => false,
        }
    }

    /// Whether nothing waits.
    #[inline(always)]
    pub fn is_idle(&self) -> bool
        ensures { IsTrue result → self.now.queue.ring.entries ≡ [] }
    {
        self.queue.len() == 0
    }

    /// Prints a text at once. Nothing may wait.
    #[inline(always)]
    pub fn print_text<K: Sink>(&mut self, sink: &mut K, text: &[u8]) -> Result<(), Failed>
        requires idle { self.old.queue.ring.entries ≡ [] }
        ensures feeds { Advances false self.old.queue.ring.entries self.old.page.line self.old.page.frames.frames (K.written sink.old) result self.new.queue.ring.entries self.new.page.line self.new.page.frames.frames (K.written sink.new) (λ s. s ++ tok.Text text.now ∷ []) }
        ensures passes { Passes self.old self.new }
        ensures cause { HasCause (K.faults sink.old) (K.faults sink.new) result }
        ensures loan { SameLoan (K.loan sink.old) (K.loan sink.new) }
    {
        self.queue.pass();
        self.page.print_text(sink, text)
    }

    /// Takes a text that is longer than any line. It decides everything that waits: so that is
    /// printed, and then the text.
    #[inline(never)]
    pub fn print_long<K: Sink>(&mut self, sink: &mut K, text: &[u8]) -> Result<(), Failed>
        requires ended { self.old.queue.ended ≡ false }
        requires long { margin < length text.now }
        ensures feeds { Advances false self.old.queue.ring.entries self.old.page.line self.old.page.frames.frames (K.written sink.old) result self.new.queue.ring.entries self.new.page.line self.new.page.frames.frames (K.written sink.new) (λ s. s ++ tok.Text text.now ∷ []) }
        ensures passes { OnOk result (Passes self.old self.new) }
        ensures room { room_of self.old ≤ room_of self.new }
        ensures cause { HasCause (K.faults sink.old) (K.faults sink.new) result }
        ensures loan { SameLoan (K.loan sink.old) (K.loan sink.new) }
    {
        match self.print_decided(sink, text.len() as u64) {
            Ok(()) => {}
            Err(Failed) => return Err(Failed),
        }
        self.queue.pass();
        self.page.print_text(sink, text)
    }

    /// Whether a break can be printed at once: nothing waits, and what follows it doesn't matter.
    #[inline(always)]
    pub fn is_clear(&self, brk: Break) -> bool
        ensures idle { IsTrue result → self.now.queue.ring.entries ≡ [] }
        ensures clear { IsTrue result → IsClear self.now.page.line self.now.page.frames.frames (tok.Break brk) }
    {
        if self.is_idle() {
            return self.page.is_clear(brk);
        }
        false
    }

    /// Prints a break at once.
    #[inline(always)]
    pub fn print_break<K: Sink>(&mut self, sink: &mut K, brk: Break) -> Result<(), Failed>
        requires idle { self.old.queue.ring.entries ≡ [] }
        requires clear { IsClear self.old.page.line self.old.page.frames.frames (tok.Break brk) }
        ensures feeds { Advances false self.old.queue.ring.entries self.old.page.line self.old.page.frames.frames (K.written sink.old) result self.new.queue.ring.entries self.new.page.line self.new.page.frames.frames (K.written sink.new) (λ s. s ++ tok.Break brk ∷ []) }
        ensures passes { Passes self.old self.new }
        ensures cause { HasCause (K.faults sink.old) (K.faults sink.new) result }
        ensures loan { SameLoan (K.loan sink.old) (K.loan sink.new) }
    {
        self.queue.pass();
        self.page.print_break(sink, brk)
    }

    /// Prints the rest: no more tokens come. Then tokens may come again.
    pub fn finish<K: Sink>(&mut self, sink: &mut K) -> Result<(), Failed>
        requires ended { self.old.queue.ended ≡ false }
        requires groups { self.old.queue.groups ≡ 0 }
        ensures ends { Ends self.old.queue.ring.entries self.old.page.line self.old.page.frames.frames (K.written sink.old) result (K.written sink.new) }
        ensures empty { OnOk result (self.new.queue.ring.entries ≡ []) }
        ensures again { OnOk result (self.new.queue.ended ≡ false) }
        ensures groups { self.new.queue.groups ≡ 0 }
        ensures room { room_of self.old ≤ room_of self.new }
        ensures cause { HasCause (K.faults sink.old) (K.faults sink.new) result }
        ensures loan { SameLoan (K.loan sink.old) (K.loan sink.new) }
    {
        self.queue.end_all();
        match self.print_decided(sink, 0) {
            Ok(()) => {
                self.queue.restart();
                Ok(())
            }
            Err(Failed) => Err(Failed),
        }
    }

    /// Takes a token, and makes room for it unless `roomy`.
    #[inline(always)]
    fn take(&mut self, tok: LentTok<'_>, roomy: bool) -> Result<(), NoMemory>
        requires roomy { IsTrue roomy → 0 < room_of self.old }
        requires ended { self.old.queue.ended ≡ false }
        requires few { self.old.queue.waiting ≤ margin }
        requires short { text_length (tok_of tok) ≤ margin }
        requires nested { IsNested self.old.queue.groups (tok_of tok ∷ []) }
        ensures toks { OnOk result (toks_of self.new.queue.ring.entries ≡ toks_of self.old.queue.ring.entries ++ tok_of tok.entry ∷ []) }
        ensures added { OnOk result (IsAdded (tok_of tok.entry) self.old.queue.ring.entries self.new.queue.ring.entries) }
        ensures waiting { OnOk result (self.new.queue.waiting ≡ self.old.queue.waiting + text_length (tok_of tok.entry)) }
        ensures limit { self.new.limit ≡ self.old.limit }
        ensures groups { OnOk result (self.new.queue.groups ≡ opened (tok_of tok.entry ∷ []) self.old.queue.groups) }
        ensures first { OnOk result (self.new.queue.ring.first ≡ self.old.queue.ring.first) }
        ensures ended { OnOk result (self.new.queue.ended ≡ false) }
        ensures line { self.new.page.line ≡ self.old.page.line }
        ensures frames { self.new.page.frames.frames ≡ self.old.page.frames.frames }
        ensures sure { IsTrue roomy → IsOk result }
        ensures room { room_of self.old ≤ room_of self.new + 1 }
    {
        if !roomy {
            self.reserve(1)?;
        }
        self.put(tok);
        Ok(())
    }

    /// Takes a token, for which there must be room. It waits, with room for a frame.
    #[inline(always)]
    fn put(&mut self, tok: LentTok<'_>)
        requires room { 0 < room_of self.old }
        requires ended { self.old.queue.ended ≡ false }
        requires few { self.old.queue.waiting ≤ margin }
        requires short { text_length (tok_of tok) ≤ margin }
        requires nested { IsNested self.old.queue.groups (tok_of tok ∷ []) }
        ensures comes { Comes self.old.queue self.new.queue (tok_of tok.entry) }
        ensures limit { self.new.limit ≡ self.old.limit }
        ensures line { self.new.page.line ≡ self.old.page.line }
        ensures frames { self.new.page.frames.frames ≡ self.old.page.frames.frames }
        ensures room { room_of self.old ≤ room_of self.new + 1 }
    {
        let held = self.queue.len();
        prove!(held < 0x8000_0000_0000_0000);
        let room = self.page.frames.spare();
        prove!(held < room);
        self.queue.scan(tok);
    }

    /// Prints entries as long as they are decided; `behind` bytes of text follow those that wait.
    #[inline(never)]
    fn print_decided<K: Sink>(&mut self, sink: &mut K, behind: u64) -> Result<(), Failed>
        ensures prints { (tail : List Entry) → sum_waiting tail ≡ behind → Advances self.old.queue.ended (self.old.queue.ring.entries ++ tail) self.old.page.line self.old.page.frames.frames (K.written sink.old) result (self.new.queue.ring.entries ++ tail) self.new.page.line self.new.page.frames.frames (K.written sink.new) (λ s. s) }
        ensures stays { Stays self.old self.new }
        ensures stops { OnOk result (Decided self.new.queue.ring.entries (self.new.queue.waiting + behind) self.new.page.line None) }
        ensures limit { OnOk result (IsLimit self.new.queue.ring.entries self.new.page.line self.new.limit) }
        ensures cause { HasCause (K.faults sink.old) (K.faults sink.new) result }
        ensures loan { SameLoan (K.loan sink.old) (K.loan sink.new) }
    {
        while let Some(big) = self.decide(behind) {
            self.print_front(sink, big)?;
        }
        self.limit = self.slack();
        Ok(())
    }

    /// Whether the oldest entry doesn't fit, or `None` if that isn't decided; `behind` bytes of
    /// text follow those that wait.
    #[inline(always)]
    fn decide(&self, behind: u64) -> Option<bool>
        ensures { Decided self.now.queue.ring.entries (self.now.queue.waiting + behind) self.now.page.line result }
    {
        match self.queue.front() {
            None => None,
            Some(entry) => {
                if entry.size >= 0 {
                    return Some(exceeds(&self.page.line, 0, entry.size as u64));
                }
                let waiting = self.queue.waiting().saturating_add(behind);
                if exceeds(&self.page.line, least_width(entry.tok), waiting) {
                    Some(true)
                } else {
                    None
                }
            }
        }
    }

    /// How many bytes of text may wait before the oldest entry, which is undecided, is forced.
    #[inline(always)]
    fn slack(&self) -> u64
        requires { IsUndecided self.now.queue.ring.entries self.now.page.line }
        ensures { IsLimit self.now.queue.ring.entries self.now.page.line result }
    {
        match self.queue.front() {
            None => 0,
            Some(entry) => self.page.line.room - self.page.line.used - least_width(entry.tok),
        }
    }

    /// Prints and drops the oldest entry; if it is a text, the texts that follow it too. `big` says
    /// that it doesn't fit.
    #[inline(always)]
    fn print_front<K: Sink>(&mut self, sink: &mut K, big: bool) -> Result<(), Failed>
        requires { 0 < length self.old.queue.ring.entries }
        ensures prints { (tail : List Entry) → Decided self.old.queue.ring.entries (self.old.queue.waiting + sum_waiting tail) self.old.page.line (Some big) → Advances self.old.queue.ended (self.old.queue.ring.entries ++ tail) self.old.page.line self.old.page.frames.frames (K.written sink.old) result (self.new.queue.ring.entries ++ tail) self.new.page.line self.new.page.frames.frames (K.written sink.new) (λ s. s) }
        ensures stays { Stays self.old self.new }
        ensures fewer { length self.new.queue.ring.entries < length self.old.queue.ring.entries }
        ensures cause { HasCause (K.faults sink.old) (K.faults sink.new) result }
        ensures loan { SameLoan (K.loan sink.old) (K.loan sink.new) }
    {
        let queue = &self.queue;
        let texts = queue.texts();
        if texts.count > 0 {
            let (count, len) = (texts.count, texts.bytes.len());
            let printed = self.page.print_text(sink, texts.bytes);
            self.queue.drop_texts(count, len);
            return printed;
        }
        let printed = match queue.front() {
            Some(entry) => self.page.print(sink, entry.tok, big),
            None => unreachable!(),
        };
        self.queue.drop_front();
        printed
    }

    /// How many more tokens fit without allocating.
    #[inline(always)]
    pub fn room(&self) -> usize
        ensures { result ≡ room_of self.now }
    {
        let rooms = self.page.frames.spare() - self.queue.len();
        self.queue.room().min(rooms)
    }

    /// How many more tokens surely fit without allocating, after one token: one fewer than
    /// `before`, without a look at the room. It is only looked at if `before` is 0.
    #[inline(always)]
    pub fn room_after(&self, before: usize) -> usize
        requires { before ≤ room_of self.now + 1 }
        ensures within { result ≤ room_of self.now }
        ensures lowers { before ≤ result + 1 }
    {
        match before.checked_sub(1) {
            Some(less) => less,
            None => self.room(),
        }
    }

    /// Makes room for `n` more tokens.
    pub fn reserve(&mut self, n: usize) -> Result<(), NoMemory>
        ensures stays { Stays self.old self.new }
        ensures entries { self.new.queue.ring.entries ≡ self.old.queue.ring.entries }
        ensures first { self.new.queue.ring.first ≡ self.old.queue.ring.first }
        ensures waiting { self.new.queue.waiting ≡ self.old.queue.waiting }
        ensures limit { self.new.limit ≡ self.old.limit }
        ensures line { self.new.page.line ≡ self.old.page.line }
        ensures frames { self.new.page.frames.frames ≡ self.old.page.frames.frames }
        ensures ok { OnOk result (n ≤ room_of self.new) }
    {
        let Some(frames) = self.queue.len().checked_add(n) else {
            return Err(NoMemory);
        };
        self.page.frames.reserve(frames)?;
        self.queue.reserve(n)
    }
}
