//! Sinks in memory, with buffers of fixed capacity.
ghost use Rattle.std.specs.Prelude.{◌≡◌, IfOk, IfSome};
ghost use Rattle.lay_io.specs.Kept.{empty};

use crate::outside::{Failed, Sink};
use crate::room::Room;
use lay_text::{List, NoMemory};
use std::alloc::Global;
use std::marker::Model;

/// A sink that never fails and keeps what is written in a buffer of fixed capacity. Contracts see
/// what was written, unless a piece didn't fit, and how many more bytes fit.
#[derive(Debug, Drop)]
pub struct QuietSink {
    room: Room,
}

impl Model for QuietSink {
    ghost use Rattle.lay_io.specs.Kept.{Kept, kept_in};

    ghost Value = { Kept };

    ghost view = { λ sink. kept_in sink.room };
}

impl QuietSink {
    /// A sink with no capacity. It allocates nothing.
    pub fn new(alloc: Global) -> QuietSink
        ensures { result ≡ empty 0 }
    {
        QuietSink {
            room: Room::new(alloc),
        }
    }

    /// A sink with a capacity of `n` bytes.
    pub fn with_room(alloc: Global, n: usize) -> Result<QuietSink, NoMemory>
        ensures { IfOk result (λ sink. sink ≡ empty n) }
    {
        match Room::with_room(alloc, n) {
            Ok(room) => Ok(QuietSink { room }),
            Err(NoMemory) => Err(NoMemory),
        }
    }

    /// What was written, if every piece has fitted.
    pub fn bytes(&self) -> &[u8]
        ensures { IfSome self.now.bytes (λ bytes. result.now ≡ bytes) }
    {
        self.room.kept()
    }
}

impl Sink for QuietSink {
    ghost use Rattle.lay_io.specs.Devices.{QuietWrite};

    ghost written = { λ s. s.bytes };

    ghost faults = { λ _. 0 };

    ghost wrote = { QuietWrite };

    fn write(&mut self, piece: &[u8]) -> Result<(), Failed> {
        self.room.put(piece);
        Ok(())
    }
}

/// A sink of which the writes with the numbers in `fail`, counted from 0, fail. A failing write
/// keeps at most `keep` bytes of its piece, and is counted. Bytes are kept in a buffer of fixed
/// capacity.
#[derive(Debug, Drop)]
pub struct MemorySink {
    room: Room,
    fail: List<u64>,
    keep: usize,
    writes: u64,
    faults: u64,
}

impl Model for MemorySink {
    ghost use Rattle.lay_io.specs.Devices.{Device};
    ghost use Rattle.lay_io.specs.Kept.{kept_in};

    ghost Value = { Device };

    ghost view = { λ sink. record { kept = kept_in sink.room; fail = sink.fail; keep = sink.keep; writes = sink.writes; faults = sink.faults } };
}

impl MemorySink {
    /// A sink with a capacity of `room` bytes.
    pub fn new(
        alloc: Global,
        room: usize,
        fail: List<u64>,
        keep: usize,
    ) -> Result<MemorySink, NoMemory>
        ensures { IfOk result (λ sink. sink ≡ record { kept = empty room; fail = fail; keep = keep; writes = 0; faults = 0 }) }
    {
        match Room::with_room(alloc, room) {
            Ok(room) => Ok(MemorySink {
                room,
                fail,
                keep,
                writes: 0,
                faults: 0,
            }),
            Err(NoMemory) => Err(NoMemory),
        }
    }

    /// What was written, if every piece has fitted.
    pub fn bytes(&self) -> &[u8]
        ensures { IfSome self.now.kept.bytes (λ bytes. result.now ≡ bytes) }
    {
        self.room.kept()
    }
}

impl Sink for MemorySink {
    ghost use Rattle.lay_io.specs.Devices.{DeviceWrite};

    ghost written = { λ s. s.kept.bytes };

    ghost faults = { λ s. s.faults };

    ghost wrote = { DeviceWrite };

    fn write(&mut self, piece: &[u8]) -> Result<(), Failed> {
        let number = self.writes;
        self.writes = self.writes.saturating_add(1);
        if !self.fail.as_slice().contains(&number) {
            self.room.put(piece);
            return Ok(());
        }
        let count = self.keep.min(piece.len()).min(self.room.left());
        self.room.put(&piece[..count]);
        self.faults = self.faults.saturating_add(1);
        Err(Failed)
    }
}
