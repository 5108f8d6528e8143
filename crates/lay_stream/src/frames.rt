//! The stack of frames of the open groups.
ghost use Rattle.std.specs.Prelude.{◌≡◌, Bool, false, ℤ, [], ◌∷◌, OnOk, IsFalse};
ghost use Rattle.lay_layout.specs.Document.{enter};
ghost use Rattle.lay_layout.specs.Machine.{top, below};
ghost use Rattle.lay_layout.specs.Indents.{IsKept};

use lay_layout::{Frame, OUTSIDE};
use lay_text::NoMemory;
use std::alloc::Global;
use std::marker::Model;

/// The stack of frames of the open groups. Contracts see it with the innermost first.
#[derive(Drop)]
pub struct Frames {
    items: Vec<Frame>,
}

impl Model for Frames {
    ghost use Rattle.std.specs.Prelude.{List, reverse};
    ghost use Rattle.lay_layout.specs.declared.layout.Frame.{Frame};
    ghost use Rattle.lay_layout.specs.Indents.{AreKept};

    ghost Value = { List Frame };

    ghost view = { λ frames. reverse frames.items.items };

    ghost invariant = { λ frames. AreKept (reverse frames.items.items) };
}

impl Frames {
    /// The empty stack.
    pub fn new(alloc: Global) -> Frames
        ensures { result ≡ [] }
    {
        Frames {
            items: Vec::new(alloc),
        }
    }

    /// Pushes the frame of a group that begins.
    pub fn push(&mut self, frame: Frame) -> Result<(), NoMemory>
        requires { IsKept frame }
        ensures { OnOk result (self.new ≡ frame ∷ self.old) }
    {
        match self.items.push(frame) {
            Ok(()) => Ok(()),
            Err(_) => Err(NoMemory),
        }
    }

    /// Pops the frame of the innermost group, which ends.
    pub fn pop(&mut self)
        ensures { self.new ≡ below self.old }
    {
        let _ = self.items.pop();
    }

    /// The frame of the innermost group; outside all groups it is broken, inconsistent, with indent
    /// 0.
    pub fn top(&self) -> Frame
        ensures value { result ≡ top self.now }
        ensures kept { IsKept result }
    {
        match self.items.last() {
            Some(frame) => *frame,
            None => OUTSIDE,
        }
    }
}

/// Whether the frame of a group in this frame depends on its width being greater than the space
/// that is left.
pub fn asks_at_begin(frame: Frame) -> bool
    ensures { IsFalse result → (consistent : Bool) (offset : ℤ) (big : Bool)
        → enter frame consistent offset false ≡ enter frame consistent offset big }
{
    match frame {
        Frame::Broken { .. } => true,
        Frame::Flat => false,
    }
}
