//! A sink that keeps a text.
ghost use Rattle.std.specs.Prelude.{◌≡◌, [], Some};

use lay_io::{Failed, Sink};
use lay_text::{NoMemory, Text};
use std::alloc::Global;

/// A sink that keeps what is written as a text. If memory is out, a write fails and appends
/// nothing.
#[derive(Drop)]
pub struct TextSink {
    pub text: Text,
    pub faults: u64,
}

impl TextSink {
    /// An empty sink.
    pub fn new(alloc: Global) -> TextSink
        ensures { result.text ≡ [] }
    {
        TextSink {
            text: Text::new(alloc),
            faults: 0,
        }
    }
}

impl Sink for TextSink {
    ghost written = { λ sink. Some sink.text };

    ghost faults = { λ sink. sink.faults };

    fn write(&mut self, piece: &[u8]) -> Result<(), Failed> {
        match self.text.push_bytes(piece) {
            Ok(()) => Ok(()),
            Err(NoMemory) => {
                self.faults = self.faults.saturating_add(1);
                Err(Failed)
            }
        }
    }
}
