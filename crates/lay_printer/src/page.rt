//! The printing half: tokens are put on the current line.
ghost use Rattle.std.specs.Prelude.{◌≡◌, ◌+◌, ◌<◌, ◌≤◌, true, [], ◌∷◌, length, IsTrue};
ghost use Rattle.lay_layout.specs.declared.layout.Tok.TheVariants as tok;
ghost use Rattle.lay_layout.specs.Machine.{opened};
ghost use Rattle.lay_io.specs.Faults.{HasCause, SameLoan};
ghost use Rattle.lay_ring.specs.Rows.{tok_of};
ghost use Rattle.lay_printer.specs.Queued.{IsClear, Prints};

use crate::frames::Frames;
use lay_io::{Failed, Sink};
use lay_layout::{Break, asks_at_break, entered, width_of};
use lay_ring::LentTok;
use lay_stream::{Line, exceeds};

/// The state of the layout: the line that is being written, and the frames of the open groups.
#[derive(Drop)]
pub struct Page {
    pub line: Line,
    pub frames: Frames,
}

impl Page {
    /// Prints a text.
    #[inline(always)]
    pub fn print_text<K: Sink>(&mut self, sink: &mut K, text: &[u8]) -> Result<(), Failed>
        ensures prints { Prints self.old.line self.old.frames.frames (K.written sink.old) result self.new.line self.new.frames.frames (K.written sink.new) (tok.Text text.now) true }
        ensures frames { self.new.frames ≡ self.old.frames }
        ensures cause { HasCause (K.faults sink.old) (K.faults sink.new) result }
        ensures loan { SameLoan (K.loan sink.old) (K.loan sink.new) }
    {
        self.line.write(sink, text)
    }

    /// Prints a break as one that doesn't fit.
    #[inline(always)]
    pub fn print_break<K: Sink>(&mut self, sink: &mut K, brk: Break) -> Result<(), Failed>
        ensures prints { Prints self.old.line self.old.frames.frames (K.written sink.old) result self.new.line self.new.frames.frames (K.written sink.new) (tok.Break brk) true }
        ensures frames { self.new.frames ≡ self.old.frames }
        ensures cause { HasCause (K.faults sink.old) (K.faults sink.new) result }
        ensures loan { SameLoan (K.loan sink.old) (K.loan sink.new) }
    {
        self.line.put_break(sink, self.frames.top(), brk, true)
    }

    /// Whether a break is printed as one that doesn't fit, whatever follows it.
    #[inline(always)]
    pub fn is_clear(&self, brk: Break) -> bool
        ensures { IsTrue result → IsClear self.now.line self.now.frames.frames (tok.Break brk) }
    {
        if asks_at_break(self.frames.top(), brk) {
            return exceeds(&self.line, width_of(brk), 0);
        }
        true
    }

    /// Prints a token; `big` says that its width up to the next break is greater than the space
    /// that is left.
    pub fn print<K: Sink>(
        &mut self,
        sink: &mut K,
        tok: LentTok<'_>,
        big: bool,
    ) -> Result<(), Failed>
        requires { 0 < self.old.frames.spare }
        ensures prints { Prints self.old.line self.old.frames.frames (K.written sink.old) result self.new.line self.new.frames.frames (K.written sink.new) (tok_of tok.entry) big }
        ensures depth { length self.new.frames.frames ≡ opened (tok_of tok.entry ∷ []) (length self.old.frames.frames) }
        ensures spare { self.old.frames.spare ≤ self.new.frames.spare + 1 }
        ensures cause { HasCause (K.faults sink.old) (K.faults sink.new) result }
        ensures loan { SameLoan (K.loan sink.old) (K.loan sink.new) }
    {
        match tok {
            LentTok::Text(text) => self.line.write(sink, text),
            LentTok::Break(brk) => self.line.put_break(sink, self.frames.top(), brk, big),
            LentTok::Begin { consistent, offset } => {
                let frame = entered(self.frames.top(), consistent, offset, big);
                self.frames.push(frame);
                Ok(())
            }
            LentTok::End => {
                self.frames.pop();
                Ok(())
            }
        }
    }
}
