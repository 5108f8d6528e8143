//! The `Emit` that finds the units of a text from a layout.
ghost use Rattle.std.specs.Prelude.{◌≡◌, ◌<◌, [], ◌∷◌, IfOk, OnErr, OnOk, length, true, false};
ghost use Rattle.lay_layout.specs.declared.layout.Tok.TheVariants as tok;
ghost use Rattle.lay_stream.specs.Fed.{Did};
ghost use Rattle.lay_map.specs.Ahead.{tokens_of};
ghost use Rattle.lay_map.specs.Marking.{begun, units_of};
ghost use Rattle.lay_map.specs.Meanings.{mark_meanings};

use crate::ahead::Ahead;
use crate::marking::Marking;
use crate::unit::Span;
use lay_layout::Break;
use lay_stream::Emit;
use lay_text::{List, NoMemory};
use std::alloc::Global;
use std::marker::Model;

/// Finds the units of tokens from the layout of the node that they spell, which it is fed.
#[derive(Drop)]
pub(crate) struct Marker<'a> {
    /// All the tokens.
    tokens: Ahead<'a>,
    /// Whether the first line is a shebang line.
    shebang: bool,
    marking: Marking<'a>,
    /// Whether a call has failed.
    failed: bool,
}

impl<'a> Model for Marker<'a> {
    ghost use Rattle.lay_map.specs.Ahead.{tokens_of};
    ghost use Rattle.lay_map.specs.Meanings.{Seen};

    ghost Value = { Seen };

    ghost view = { λ m. record { tokens = tokens_of m.tokens; shebang = m.shebang; state = m.marking; failed = m.failed } };
}

impl<'a> Marker<'a> {
    /// A marker that was fed nothing. `shebang` says that the first line is a shebang line.
    pub(crate) fn new(alloc: Global, tokens: Ahead<'a>, shebang: bool) -> Marker<'a>
        ensures { result ≡ record { tokens = tokens_of tokens.entry; shebang = shebang; state = begun (tokens_of tokens.entry) shebang; failed = false } }
    {
        Marker {
            tokens,
            shebang,
            marking: Marking::new(alloc, tokens, shebang),
            failed: false,
        }
    }

    /// The units that were found: nothing more is fed.
    pub(crate) fn into_units(self) -> Result<List<Span>, NoMemory>
        ensures { IfOk result (λ units. units ≡ units_of self.entry.state) }
    {
        let Marker {
            tokens: _,
            shebang: _,
            marking,
            failed: _,
        } = self;
        marking.into_units()
    }

    /// Notes whether a call has failed, and gives its result back.
    fn answer(&mut self, given: Result<(), NoMemory>) -> Result<(), NoMemory>
        ensures same { result ≡ given }
        ensures ok { OnOk result (self.new ≡ self.old) }
        ensures err { OnErr result (self.new ≡ record self.old { failed = true }) }
    {
        match given {
            Ok(()) => Ok(()),
            Err(NoMemory) => {
                self.failed = true;
                Err(NoMemory)
            }
        }
    }
}

impl<'a> Emit for Marker<'a> {
    type Fault = NoMemory;

    ghost meanings = { mark_meanings };

    fn text(&mut self, text: &[u8]) -> Result<(), NoMemory>
        ensures { Did mark_meanings self.old (tok.Text text.now ∷ []) result self.new }
    {
        let given = self.marking.text(text);
        self.answer(given)
    }

    fn brk(&mut self, token: Break) -> Result<(), NoMemory>
        ensures { Did mark_meanings self.old (tok.Break token ∷ []) result self.new }
    {
        let given = self.marking.brk(token);
        self.answer(given)
    }

    fn begin(&mut self, consistent: bool, offset: i8) -> Result<(), NoMemory>
        ensures { Did mark_meanings self.old (tok.Begin consistent offset ∷ []) result self.new }
    {
        let given = self.marking.begin();
        self.answer(given)
    }

    fn end(&mut self) -> Result<(), NoMemory>
        requires { 0 < length self.old.state.outer }
        ensures { Did mark_meanings self.old (tok.End ∷ []) result self.new }
    {
        let given = self.marking.end();
        self.answer(given)
    }
}
