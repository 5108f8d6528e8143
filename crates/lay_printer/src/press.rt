//! Printers: one that borrows its sink, and one that owns it.
ghost use Rattle.std.specs.Prelude.{◌≡◌, ◌+◌, ◌<◌, ◌≤◌, [], ◌∷◌, OnOk, OnErr, IfOk, IfErr, None, Some, MatchResult};
ghost use Rattle.lay_layout.specs.declared.layout.Tok.TheVariants as tok;
ghost use Rattle.lay_layout.specs.Machine.{text};
ghost use Rattle.lay_io.specs.Faults.{SameLoan};
ghost use Rattle.lay_stream.specs.Fed.{Did};
ghost use Rattle.lay_stream.specs.Pages.{Wrote, Cut};
ghost use Rattle.lay_printer.specs.Printers.{CauseOf, FedBy, Finishes, IsWhole, Repeats, TakesRoom};
ghost use Rattle.lay_printer.specs.Printers.{lent_core, lent_sink, lent_as, press_loans, press_meanings, owner_meanings};
ghost use Rattle.lay_printer.specs.Promises.{FitSpace, IsSame, IsSpace, RunsAs, RunsFresh};
ghost use Rattle.lay_queue.specs.Scan.{waiting as sum_waiting};
ghost use Rattle.lay_printer.specs.declared.engine.PrintError.{PrintError};
ghost use Rattle.lay_printer.specs.declared.engine.PrintError.TheVariants.{WriteFailed};

use crate::engine::PrintError;
use crate::printer::Core;
use lay_io::Sink;
use lay_layout::Break;
use lay_stream::Emit;
use lay_text::{NoMemory, Text};
use std::alloc::Global;
use std::marker::Model;

/// A printer that borrows its core and its sink, so the sink may be one that was passed by
/// reference. Its memory is that of the [`Core`].
#[derive(Drop)]
pub struct Press<'p, K: Sink> {
    core: &'p mut Core,
    sink: &'p mut K,
}

impl<'p, K: Sink> Press<'p, K> {
    /// A printer in the state of the core, over the sink.
    pub fn new(core: &'p mut Core, sink: &'p mut K) -> Press<'p, K>
        ensures core { lent_core result ≡ core.entry.now }
        ensures sink { lent_sink result ≡ sink.entry.now }
        ensures same_reference { lent_as result ≡ sink.entry.ghost_name }
    {
        Press { core, sink }
    }

    /// Prints the rest: no more tokens come. No group may be open, unless a call has failed.
    pub fn finish(&mut self) -> Result<(), PrintError>
        requires { (lent_core self.old).failed ≡ None → (lent_core self.old).groups ≡ 0 }
        ensures finishes { Finishes (lent_core self.old) (K.written (lent_sink self.old)) (K.faults (lent_sink self.old)) result (lent_core self.new) (K.written (lent_sink self.new)) (K.faults (lent_sink self.new)) }
        ensures whole { IsWhole (lent_core self.old) (K.written (lent_sink self.old)) }
        ensures stays { OnOk result ((lent_core self.new).failed ≡ None) }
        ensures empty { OnOk result ((lent_core self.new).entries ≡ []) }
        ensures no_memory { (lent_core self.old).failed ≡ None → IfErr result (λ e. e ≡ WriteFailed) }
        ensures same { Repeats (lent_core self.old) result }
        ensures alone { (e : PrintError) → (lent_core self.old).failed ≡ Some e → lent_sink self.new ≡ lent_sink self.old }
        ensures loans { press_loans K.loan self.new ≡ press_loans K.loan self.old }
    {
        self.core.finish(self.sink)
    }

    /// Takes a text by value. If there is room for a token, it doesn't allocate.
    pub fn text_owned(&mut self, text: Text) -> Result<(), PrintError>
        ensures did { Did (press_meanings K.written K.faults K.loan) self.old (tok.Text text ∷ []) result self.new }
        ensures room { TakesRoom (lent_core self.old) result (lent_core self.new) }
        ensures same { Repeats (lent_core self.old) result }
        ensures alone { (e : PrintError) → (lent_core self.old).failed ≡ Some e → lent_sink self.new ≡ lent_sink self.old }
    {
        self.core.text_owned(self.sink, text)
    }

    /// How many groups are open. `end` requires at least one, `finish` none.
    pub fn open_groups(&self) -> u64
        ensures { result ≡ (lent_core self.now).groups }
    {
        self.core.open_groups()
    }

    /// How many bytes of text were taken and aren't in the sink yet: at most as many as fit in the
    /// space that is left.
    pub fn waiting(&self) -> usize
        ensures value { result ≡ sum_waiting (lent_core self.now).entries }
        ensures lag { (lent_core self.now).failed ≡ None → FitSpace (lent_core self.now) result }
    {
        self.core.waiting()
    }

    /// The columns that are left on the line, at least -2^62.
    pub fn space(&self) -> i64
        ensures { IsSpace (lent_core self.now) result }
    {
        self.core.space()
    }

    /// How many more tokens fit without allocating.
    pub fn spare(&self) -> usize
        ensures { result ≡ (lent_core self.now).spare }
    {
        self.core.spare()
    }

    /// Makes room for `n` more tokens, and changes nothing else. After `NoMemory` nothing is
    /// changed.
    pub fn reserve(&mut self, n: usize) -> Result<(), NoMemory>
        ensures ok { OnOk result (n ≤ (lent_core self.new).spare) }
        ensures never_less { (lent_core self.old).spare ≤ (lent_core self.new).spare }
        ensures err { OnErr result ((lent_core self.new).spare ≡ (lent_core self.old).spare) }
        ensures same { IsSame (lent_core self.old) (lent_core self.new) }
        ensures runs { RunsAs (lent_core self.old) (lent_core self.new) }
        ensures sink { lent_sink self.new ≡ lent_sink self.old }
        ensures loan { SameLoan (lent_as self.old) (lent_as self.new) }
    {
        self.core.reserve(n)
    }
}

impl<'p, K: Sink> Emit for Press<'p, K> {
    type Fault = PrintError;

    ghost meanings = { press_meanings K.written K.faults K.loan };

    fn text(&mut self, text: &[u8]) -> Result<(), PrintError>
        ensures did { Did (press_meanings K.written K.faults K.loan) self.old (tok.Text text.now ∷ []) result self.new }
        ensures same { Repeats (lent_core self.old) result }
        ensures alone { (e : PrintError) → (lent_core self.old).failed ≡ Some e → lent_sink self.new ≡ lent_sink self.old }
    {
        self.core.text(self.sink, text)
    }

    fn brk(&mut self, token: Break) -> Result<(), PrintError>
        ensures did { Did (press_meanings K.written K.faults K.loan) self.old (tok.Break token ∷ []) result self.new }
        ensures room { TakesRoom (lent_core self.old) result (lent_core self.new) }
        ensures same { Repeats (lent_core self.old) result }
        ensures alone { (e : PrintError) → (lent_core self.old).failed ≡ Some e → lent_sink self.new ≡ lent_sink self.old }
    {
        self.core.brk(self.sink, token)
    }

    fn begin(&mut self, consistent: bool, offset: i8) -> Result<(), PrintError>
        ensures did { Did (press_meanings K.written K.faults K.loan) self.old (tok.Begin consistent offset ∷ []) result self.new }
        ensures room { TakesRoom (lent_core self.old) result (lent_core self.new) }
        ensures same { Repeats (lent_core self.old) result }
        ensures alone { (e : PrintError) → (lent_core self.old).failed ≡ Some e → lent_sink self.new ≡ lent_sink self.old }
    {
        self.core.begin(self.sink, consistent, offset)
    }

    fn end(&mut self) -> Result<(), PrintError>
        requires { 0 < (lent_core self.old).groups }
        ensures did { Did (press_meanings K.written K.faults K.loan) self.old (tok.End ∷ []) result self.new }
        ensures room { TakesRoom (lent_core self.old) result (lent_core self.new) }
        ensures same { Repeats (lent_core self.old) result }
        ensures alone { (e : PrintError) → (lent_core self.old).failed ≡ Some e → lent_sink self.new ≡ lent_sink self.old }
    {
        self.core.end(self.sink)
    }
}

/// A printer that owns its sink. Contracts see its core and its sink.
#[derive(Drop)]
pub struct Printer<K: Sink> {
    core: Core,
    sink: K,
}

/// The error of a printer, and its sink.
#[derive(Drop)]
pub struct PrintFault<K> {
    pub error: PrintError,
    pub sink: K,
}

impl<K: Sink> Model for Printer<K> {
    ghost use Rattle.lay_printer.specs.Printing.{Owning};

    ghost Value = { Owning K };

    ghost view = { λ p. record { core = p.core; sink = p.sink } };
}

impl<K: Sink> Printer<K> {
    /// A printer that has taken no token. `Err` gives the sink back if memory is out.
    pub fn new(alloc: Global, sink: K) -> Result<Printer<K>, K>
        ensures sink { MatchResult result (λ p. p.sink ≡ sink) (λ k. k ≡ sink) }
        ensures failed { IfOk result (λ p. p.core.failed ≡ None) }
        ensures groups { IfOk result (λ p. p.core.groups ≡ 0) }
        ensures runs { IfOk result (λ p. RunsFresh p.core (K.written p.sink)) }
    {
        match Core::new(alloc) {
            Ok(core) => Ok(Printer { core, sink }),
            Err(NoMemory) => Err(sink),
        }
    }

    /// Prints the rest, since no more tokens come, and gives the sink back. No group may be open,
    /// unless a call has failed.
    pub fn finish(self) -> Result<K, PrintFault<K>>
        requires { self.core.failed ≡ None → self.core.groups ≡ 0 }
        ensures text { (content : _) (s : _) → FedBy self.core.failed self.core (K.written self.sink) content s → MatchResult result (λ k. Wrote (K.written k) content (text s)) (λ f. Cut (K.written f.sink) content (text s)) }
        ensures whole { IsWhole self.core (K.written self.sink) }
        ensures cause { MatchResult result (λ k. K.faults self.sink ≤ K.faults k) (λ f. (K.faults self.sink ≤ K.faults f.sink) × CauseOf f.error (K.faults self.sink) (K.faults f.sink) self.core.failed) }
        ensures no_memory { self.core.failed ≡ None → IfErr result (λ f. f.error ≡ WriteFailed) }
        ensures same { (e : PrintError) → self.core.failed ≡ Some e → MatchResult result (λ _. ⊥) (λ f. (f.error ≡ e) × (f.sink ≡ self.sink)) }
        ensures loan { MatchResult result (λ k. SameLoan (K.loan self.sink) (K.loan k)) (λ f. SameLoan (K.loan self.sink) (K.loan f.sink)) }
    {
        let Printer { mut core, mut sink } = self;
        match core.finish(&mut sink) {
            Ok(()) => Ok(sink),
            Err(error) => Err(PrintFault { error, sink }),
        }
    }

    /// Takes a text by value. If there is room for a token, it doesn't allocate.
    pub fn text_owned(&mut self, text: Text) -> Result<(), PrintError>
        ensures did { Did (owner_meanings K.written K.faults K.loan) self.old (tok.Text text ∷ []) result self.new }
        ensures room { TakesRoom self.old.core result self.new.core }
        ensures same { Repeats self.old.core result }
        ensures alone { (e : PrintError) → self.old.core.failed ≡ Some e → self.new.sink ≡ self.old.sink }
    {
        self.core.text_owned(&mut self.sink, text)
    }

    /// How many groups are open. `end` requires at least one, `finish` none.
    pub fn open_groups(&self) -> u64
        ensures { result ≡ self.now.core.groups }
    {
        self.core.open_groups()
    }

    /// How many bytes of text were taken and aren't in the sink yet: at most as many as fit in the
    /// space that is left.
    pub fn waiting(&self) -> usize
        ensures value { result ≡ sum_waiting self.now.core.entries }
        ensures lag { self.now.core.failed ≡ None → FitSpace self.now.core result }
    {
        self.core.waiting()
    }

    /// The columns that are left on the line, at least -2^62.
    pub fn space(&self) -> i64
        ensures { IsSpace self.now.core result }
    {
        self.core.space()
    }

    /// How many more tokens fit without allocating.
    pub fn spare(&self) -> usize
        ensures { result ≡ self.now.core.spare }
    {
        self.core.spare()
    }

    /// Makes room for `n` more tokens, and changes nothing else. After `NoMemory` nothing is
    /// changed.
    pub fn reserve(&mut self, n: usize) -> Result<(), NoMemory>
        ensures ok { OnOk result (n ≤ self.new.core.spare) }
        ensures never_less { self.old.core.spare ≤ self.new.core.spare }
        ensures err { OnErr result (self.new.core.spare ≡ self.old.core.spare) }
        ensures same { IsSame self.old.core self.new.core }
        ensures runs { RunsAs self.old.core self.new.core }
        ensures sink { self.new.sink ≡ self.old.sink }
    {
        self.core.reserve(n)
    }
}

impl<K: Sink> Emit for Printer<K> {
    type Fault = PrintError;

    ghost meanings = { owner_meanings K.written K.faults K.loan };

    fn text(&mut self, text: &[u8]) -> Result<(), PrintError>
        ensures did { Did (owner_meanings K.written K.faults K.loan) self.old (tok.Text text.now ∷ []) result self.new }
        ensures same { Repeats self.old.core result }
        ensures alone { (e : PrintError) → self.old.core.failed ≡ Some e → self.new.sink ≡ self.old.sink }
    {
        self.core.text(&mut self.sink, text)
    }

    fn brk(&mut self, token: Break) -> Result<(), PrintError>
        ensures did { Did (owner_meanings K.written K.faults K.loan) self.old (tok.Break token ∷ []) result self.new }
        ensures room { TakesRoom self.old.core result self.new.core }
        ensures same { Repeats self.old.core result }
        ensures alone { (e : PrintError) → self.old.core.failed ≡ Some e → self.new.sink ≡ self.old.sink }
    {
        self.core.brk(&mut self.sink, token)
    }

    fn begin(&mut self, consistent: bool, offset: i8) -> Result<(), PrintError>
        ensures did { Did (owner_meanings K.written K.faults K.loan) self.old (tok.Begin consistent offset ∷ []) result self.new }
        ensures room { TakesRoom self.old.core result self.new.core }
        ensures same { Repeats self.old.core result }
        ensures alone { (e : PrintError) → self.old.core.failed ≡ Some e → self.new.sink ≡ self.old.sink }
    {
        self.core.begin(&mut self.sink, consistent, offset)
    }

    fn end(&mut self) -> Result<(), PrintError>
        requires { 0 < self.old.core.groups }
        ensures did { Did (owner_meanings K.written K.faults K.loan) self.old (tok.End ∷ []) result self.new }
        ensures room { TakesRoom self.old.core result self.new.core }
        ensures same { Repeats self.old.core result }
        ensures alone { (e : PrintError) → self.old.core.failed ≡ Some e → self.new.sink ≡ self.old.sink }
    {
        self.core.end(&mut self.sink)
    }
}
