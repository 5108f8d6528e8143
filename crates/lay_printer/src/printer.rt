//! The state of a printer beside its sink.
ghost use Rattle.std.specs.Prelude.{◌≡◌, ℕ, ◌+◌, ◌<◌, ◌≤◌, [], ◌∷◌, OnOk, OnErr, IfOk, IfErr, None, Some, length, pos, ◌-ℤ◌};
ghost use Rattle.lay_layout.specs.declared.layout.Tok.TheVariants as tok;
ghost use Rattle.lay_layout.specs.Machine.{IsNested};
ghost use Rattle.lay_layout.specs.Margins.{margin};
ghost use Rattle.lay_io.specs.Faults.{SameLoan};
ghost use Rattle.lay_stream.specs.Pages.{greatest_used};
ghost use Rattle.lay_printer.specs.Printers.{Calls, Finishes, IsWhole, Repeats, TakesRoom};
ghost use Rattle.lay_printer.specs.Promises.{FitSpace, IsSame, IsSpace, KeepsStep, RunsAs, RunsFresh};
ghost use Rattle.lay_printer.specs.Queued.{IsClear};
ghost use Rattle.lay_ring.specs.Rows.{tok_of};
ghost use Rattle.lay_queue.specs.Scan.{text_length, waiting as sum_waiting};
ghost use Rattle.lay_printer.specs.declared.engine.PrintError.{PrintError};
ghost use Rattle.lay_printer.specs.declared.engine.PrintError.TheVariants.{WriteFailed};

use crate::engine::{Engine, PrintError};
use crate::frames::Frames;
use crate::page::Page;
use lay_io::{Failed, Sink};
use lay_layout::{Break, GREATEST_WIDTH, MARGIN};
use lay_queue::Queue;
use lay_ring::LentTok;
use lay_stream::Line;
use lay_text::{NoMemory, Text};
use std::alloc::Global;
use std::marker::Model;

/// The state of a printer beside its sink. It owns the memory. Contracts see the waiting tokens
/// with their sizes and the number of the first one, how many groups are open, how many more tokens
/// fit without allocating, the error of the failed call, if there was one, and the state of the
/// layout.
#[derive(Drop)]
pub struct Core {
    engine: Engine,
    failed: Option<PrintError>,
    spare: usize,
}

impl Model for Core {
    ghost use Rattle.lay_printer.specs.Printing.{Printing};
    ghost use Rattle.lay_printer.specs.Engines.{Sound};

    ghost Value = { Printing };

    ghost view = { λ c. record { entries = c.engine.queue.ring.entries; first = c.engine.queue.ring.first; groups = c.engine.queue.groups; spare = c.spare; failed = c.failed; line = c.engine.page.line; frames = c.engine.page.frames.frames } };

    ghost invariant = { λ c. Sound c.engine c.failed c.spare };
}

/// `a - b`, which may be negative.
fn difference(a: u64, b: u64) -> i64
    requires small { a ≤ margin }
    requires bound { b ≤ greatest_used }
    ensures { result ≡ pos a -ℤ pos b }
{
    a as i64 - b as i64
}

impl Core {
    /// A printer that has taken no token.
    pub fn new(alloc: Global) -> Result<Core, NoMemory>
        ensures failed { IfOk result (λ c. c.failed ≡ None) }
        ensures groups { IfOk result (λ c. c.groups ≡ 0) }
        ensures runs { IfOk result (λ c. (written : _) → RunsFresh c written) }
    {
        let queue = Queue::new(alloc)?;
        let line = Line {
            pending: 0,
            room: MARGIN,
            used: 0,
        };
        let frames = Frames::new(alloc);
        let page = Page { line, frames };
        Ok(Core {
            engine: Engine {
                queue,
                page,
                limit: 0,
            },
            failed: None,
            spare: 0,
        })
    }

    /// Takes a text.
    pub fn text<K: Sink>(&mut self, sink: &mut K, text: &[u8]) -> Result<(), PrintError>
        ensures calls { Calls self.old (K.written sink.old) (K.faults sink.old) result self.new (K.written sink.new) (K.faults sink.new) (tok.Text text.now) }
        ensures same { Repeats self.old result }
        ensures alone { (e : PrintError) → self.old.failed ≡ Some e → sink.new ≡ sink.old }
        ensures loan { SameLoan (K.loan sink.old) (K.loan sink.new) }
    {
        self.put_text(sink, text)
    }

    /// Takes a text by value. If there is room for a token, it doesn't allocate.
    pub fn text_owned<K: Sink>(&mut self, sink: &mut K, text: Text) -> Result<(), PrintError>
        ensures calls { Calls self.old (K.written sink.old) (K.faults sink.old) result self.new (K.written sink.new) (K.faults sink.new) (tok.Text text) }
        ensures room { TakesRoom self.old result self.new }
        ensures same { Repeats self.old result }
        ensures alone { (e : PrintError) → self.old.failed ≡ Some e → sink.new ≡ sink.old }
        ensures loan { SameLoan (K.loan sink.old) (K.loan sink.new) }
    {
        self.put_text(sink, text.as_bytes())
    }

    /// Takes a break.
    pub fn brk<K: Sink>(&mut self, sink: &mut K, brk: Break) -> Result<(), PrintError>
        ensures calls { Calls self.old (K.written sink.old) (K.faults sink.old) result self.new (K.written sink.new) (K.faults sink.new) (tok.Break brk) }
        ensures room { TakesRoom self.old result self.new }
        ensures same { Repeats self.old result }
        ensures alone { (e : PrintError) → self.old.failed ≡ Some e → sink.new ≡ sink.old }
        ensures loan { SameLoan (K.loan sink.old) (K.loan sink.new) }
    {
        if self.failed.is_none() && self.engine.is_clear(brk) {
            return self.print_break(sink, brk);
        }
        self.feed(sink, LentTok::Break(brk))
    }

    /// Begins a group.
    pub fn begin<K: Sink>(
        &mut self,
        sink: &mut K,
        consistent: bool,
        offset: i8,
    ) -> Result<(), PrintError>
        ensures calls { Calls self.old (K.written sink.old) (K.faults sink.old) result self.new (K.written sink.new) (K.faults sink.new) (tok.Begin consistent offset) }
        ensures room { TakesRoom self.old result self.new }
        ensures same { Repeats self.old result }
        ensures alone { (e : PrintError) → self.old.failed ≡ Some e → sink.new ≡ sink.old }
        ensures loan { SameLoan (K.loan sink.old) (K.loan sink.new) }
    {
        self.feed(sink, LentTok::Begin { consistent, offset })
    }

    /// Ends the innermost open group.
    pub fn end<K: Sink>(&mut self, sink: &mut K) -> Result<(), PrintError>
        requires { 0 < self.old.groups }
        ensures calls { Calls self.old (K.written sink.old) (K.faults sink.old) result self.new (K.written sink.new) (K.faults sink.new) (tok.End) }
        ensures room { TakesRoom self.old result self.new }
        ensures same { Repeats self.old result }
        ensures alone { (e : PrintError) → self.old.failed ≡ Some e → sink.new ≡ sink.old }
        ensures loan { SameLoan (K.loan sink.old) (K.loan sink.new) }
    {
        self.feed(sink, LentTok::End)
    }

    /// Takes a text, which is copied if it waits.
    #[inline(always)]
    fn put_text<K: Sink>(&mut self, sink: &mut K, text: &[u8]) -> Result<(), PrintError>
        ensures calls { Calls self.old (K.written sink.old) (K.faults sink.old) result self.new (K.written sink.new) (K.faults sink.new) (tok.Text text.now) }
        ensures room { TakesRoom self.old result self.new }
        ensures same { Repeats self.old result }
        ensures alone { (e : PrintError) → self.old.failed ≡ Some e → sink.new ≡ sink.old }
        ensures loan { SameLoan (K.loan sink.old) (K.loan sink.new) }
    {
        if let Some(fault) = self.failed {
            return Err(fault);
        }
        if self.engine.is_idle() {
            return self.print_text(sink, text);
        }
        if text.len() as u64 > MARGIN {
            return self.print_long(sink, text);
        }
        self.feed(sink, LentTok::Text(text))
    }

    /// Takes a text that is longer than any line.
    #[inline(never)]
    fn print_long<K: Sink>(&mut self, sink: &mut K, text: &[u8]) -> Result<(), PrintError>
        requires live { self.old.failed ≡ None }
        requires long { margin < length text.now }
        ensures calls { Calls self.old (K.written sink.old) (K.faults sink.old) result self.new (K.written sink.new) (K.faults sink.new) (tok.Text text.now) }
        ensures room { TakesRoom self.old result self.new }
        ensures loan { SameLoan (K.loan sink.old) (K.loan sink.new) }
    {
        match self.engine.print_long(sink, text) {
            Ok(()) => Ok(()),
            Err(Failed) => {
                self.failed = Some(PrintError::WriteFailed);
                Err(PrintError::WriteFailed)
            }
        }
    }

    /// Takes a text while nothing waits.
    #[inline(always)]
    fn print_text<K: Sink>(&mut self, sink: &mut K, text: &[u8]) -> Result<(), PrintError>
        requires live { self.old.failed ≡ None }
        requires idle { self.old.entries ≡ [] }
        ensures calls { Calls self.old (K.written sink.old) (K.faults sink.old) result self.new (K.written sink.new) (K.faults sink.new) (tok.Text text.now) }
        ensures room { TakesRoom self.old result self.new }
        ensures loan { SameLoan (K.loan sink.old) (K.loan sink.new) }
    {
        match self.engine.print_text(sink, text) {
            Ok(()) => Ok(()),
            Err(Failed) => {
                self.failed = Some(PrintError::WriteFailed);
                Err(PrintError::WriteFailed)
            }
        }
    }

    /// Takes a break that is printed at once.
    #[inline(always)]
    fn print_break<K: Sink>(&mut self, sink: &mut K, brk: Break) -> Result<(), PrintError>
        requires live { self.old.failed ≡ None }
        requires idle { self.old.entries ≡ [] }
        requires clear { IsClear self.old.line self.old.frames (tok.Break brk) }
        ensures calls { Calls self.old (K.written sink.old) (K.faults sink.old) result self.new (K.written sink.new) (K.faults sink.new) (tok.Break brk) }
        ensures room { TakesRoom self.old result self.new }
        ensures loan { SameLoan (K.loan sink.old) (K.loan sink.new) }
    {
        match self.engine.print_break(sink, brk) {
            Ok(()) => Ok(()),
            Err(Failed) => {
                self.failed = Some(PrintError::WriteFailed);
                Err(PrintError::WriteFailed)
            }
        }
    }

    /// Takes a token, unless a call has failed.
    #[inline(always)]
    fn feed<K: Sink>(&mut self, sink: &mut K, tok: LentTok<'_>) -> Result<(), PrintError>
        requires nested { IsNested self.old.groups (tok_of tok ∷ []) }
        requires short { text_length (tok_of tok) ≤ margin }
        ensures calls { Calls self.old (K.written sink.old) (K.faults sink.old) result self.new (K.written sink.new) (K.faults sink.new) (tok_of tok.entry) }
        ensures room { TakesRoom self.old result self.new }
        ensures same { Repeats self.old result }
        ensures alone { (e : PrintError) → self.old.failed ≡ Some e → sink.new ≡ sink.old }
        ensures loan { SameLoan (K.loan sink.old) (K.loan sink.new) }
    {
        if let Some(fault) = self.failed {
            return Err(fault);
        }
        match self.engine.feed(sink, tok, self.spare > 0) {
            Ok(()) => {
                self.spare = self.engine.room_after(self.spare);
                Ok(())
            }
            Err(fault) => {
                self.spare = self.engine.room();
                self.failed = Some(fault);
                Err(fault)
            }
        }
    }

    /// Prints the rest, since no more tokens come. No group may be open, unless a call has failed.
    /// A printer that has failed leaves the sink as it is.
    pub fn finish<K: Sink>(&mut self, sink: &mut K) -> Result<(), PrintError>
        requires { self.old.failed ≡ None → self.old.groups ≡ 0 }
        ensures finishes { Finishes self.old (K.written sink.old) (K.faults sink.old) result self.new (K.written sink.new) (K.faults sink.new) }
        ensures whole { IsWhole self.old (K.written sink.old) }
        ensures stays { OnOk result (self.new.failed ≡ None) }
        ensures empty { OnOk result (self.new.entries ≡ []) }
        ensures no_memory { self.old.failed ≡ None → IfErr result (λ e. e ≡ WriteFailed) }
        ensures same { Repeats self.old result }
        ensures alone { (e : PrintError) → self.old.failed ≡ Some e → sink.new ≡ sink.old }
        ensures loan { SameLoan (K.loan sink.old) (K.loan sink.new) }
    {
        if let Some(fault) = self.failed {
            return Err(fault);
        }
        match self.engine.finish(sink) {
            Ok(()) => {
                self.spare = self.engine.room();
                Ok(())
            }
            Err(Failed) => {
                self.spare = self.engine.room();
                self.failed = Some(PrintError::WriteFailed);
                Err(PrintError::WriteFailed)
            }
        }
    }

    /// How many groups are open. `end` requires at least one, `finish` none.
    pub fn open_groups(&self) -> u64
        ensures { result ≡ self.now.groups }
    {
        self.engine.queue.groups()
    }

    /// How many bytes of text were taken and aren't in the sink yet: at most as many as fit in the
    /// space that is left.
    pub fn waiting(&self) -> usize
        ensures value { result ≡ sum_waiting self.now.entries }
        ensures lag { self.now.failed ≡ None → FitSpace self.now result }
    {
        self.engine.queue.waiting() as usize
    }

    /// How many tokens wait.
    pub fn len(&self) -> usize
        ensures value { result ≡ length self.now.entries }
        ensures lockstep { KeepsStep self.now }
    {
        self.engine.queue.len()
    }

    /// The columns that are left on the line, at least -2^62.
    pub fn space(&self) -> i64
        ensures { IsSpace self.now result }
    {
        let line = &self.engine.page.line;
        let room = line.room.min(MARGIN);
        let used = line.used.min(room + GREATEST_WIDTH);
        difference(room, used)
    }

    /// How many more tokens fit without allocating.
    pub fn spare(&self) -> usize
        ensures { result ≡ self.now.spare }
    {
        self.spare
    }

    /// Makes room for `n` more tokens, and changes nothing else. After `NoMemory` nothing is
    /// changed.
    pub fn reserve(&mut self, n: usize) -> Result<(), NoMemory>
        ensures ok { OnOk result (n ≤ self.new.spare) }
        ensures never_less { self.old.spare ≤ self.new.spare }
        ensures err { OnErr result (self.new.spare ≡ self.old.spare) }
        ensures same { IsSame self.old self.new }
        ensures runs { RunsAs self.old self.new }
    {
        self.engine.reserve(n)?;
        self.spare = self.spare.max(n);
        Ok(())
    }
}
