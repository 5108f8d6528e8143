//! The stack of frames of the open groups, with spare room.
ghost use Rattle.std.specs.Prelude.{◌≡◌, ◌+◌, ◌^◌, ◌<◌, ◌≤◌, [], ◌∷◌, length, OnOk};
ghost use Rattle.lay_layout.specs.Machine.{top, below};
ghost use Rattle.lay_layout.specs.Indents.{IsKept};

use lay_layout::{Frame, OUTSIDE};
use lay_text::NoMemory;
use std::alloc::Global;
use std::marker::Model;

/// The stack of frames of the open groups. Contracts see it with the innermost first.
#[derive(Drop)]
pub struct Frames {
    items: Vec<Frame>,
}

impl Model for Frames {
    ghost use Rattle.std.specs.Prelude.{List, reverse, ◌-◌, vec_len, vec_capacity};
    ghost use Rattle.lay_layout.specs.declared.layout.Frame.{Frame};
    ghost use Rattle.lay_layout.specs.Indents.{AreKept};
    ghost use Rattle.lay_printer.specs.Printing.{Framed};

    ghost Value = { Framed };

    ghost view = { λ a. record { frames = reverse a.items.items; spare = vec_capacity a.items - vec_len a.items } };

    ghost invariant = { λ a. AreKept (reverse a.items.items) };
}

impl Frames {
    /// The empty stack.
    pub fn new(alloc: Global) -> Frames
        ensures { result.frames ≡ [] }
    {
        Frames {
            items: Vec::new(alloc),
        }
    }

    /// Pushes the frame of a group that begins. There must be room for it.
    pub fn push(&mut self, frame: Frame)
        requires small { IsKept frame }
        requires room { 0 < self.old.spare }
        ensures frames { self.new.frames ≡ frame ∷ self.old.frames }
        ensures spare { self.old.spare ≤ self.new.spare + 1 }
    {
        match self.items.push(frame) {
            Ok(()) => {}
            Err(_) => unreachable!(),
        }
    }

    /// Pops the frame of the innermost group, which ends.
    pub fn pop(&mut self)
        ensures frames { self.new.frames ≡ below self.old.frames }
        ensures spare { self.old.spare ≤ self.new.spare }
    {
        let _ = self.items.pop();
    }

    /// The frame of the innermost group; outside all groups it is broken, inconsistent, with indent
    /// 0.
    pub fn top(&self) -> Frame
        ensures value { result ≡ top self.now.frames }
        ensures small { IsKept result }
    {
        match self.items.last() {
            Some(frame) => *frame,
            None => OUTSIDE,
        }
    }

    /// How many more groups there is room for.
    pub fn spare(&self) -> usize
        ensures value { result ≡ self.now.spare }
        ensures small { length self.now.frames + result < 2 ^ 64 }
    {
        self.items.capacity() - self.items.len()
    }

    /// Makes room for `n` more groups.
    pub fn reserve(&mut self, n: usize) -> Result<(), NoMemory>
        ensures frames { self.new.frames ≡ self.old.frames }
        ensures ok { OnOk result (n ≤ self.new.spare) }
        ensures spare { self.old.spare ≤ self.new.spare }
    {
        match self.items.reserve(n) {
            Ok(()) => Ok(()),
            Err(_) => Err(NoMemory),
        }
    }
}
