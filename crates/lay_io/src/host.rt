//! The trusted edge: the system's streams and files. Contracts don't see what these objects read or
//! wrote.
ghost use Rattle.std.specs.Prelude.{◌≡◌, ◌≢◌, ◌<◌, length, [], None, Some, IfOk, OnOk, OnErr, IsSome};
ghost use Rattle.std.specs.Io.{ReadsAtMost};
ghost use Rattle.lay_io.specs.Calls.{Takes, left_of};
ghost use Rattle.lay_io.specs.Faults.{CountsOnce, HasCause};
ghost use Rattle.lay_io.specs.Gathered.{Waits};
ghost use Rattle.lay_io.specs.Kept.{kept_in};
ghost use Rattle.lay_io.specs.declared.outside.Which.{Which};

use crate::outside::{Failed, Inputs, Sink, Which};
use crate::room::Room;
use lay_text::{NoMemory, Text};
use std::alloc::Global;
use std::io::Read;
use std::rt::Files;
use std::{fs, str};

/// The system's inputs: standard input, and files by name. A file is opened by its first read. A
/// read fails if the name isn't UTF-8, or if the file can't be opened or read; the next read tries
/// again. Nothing is promised about the bytes, nor that two reads see one state of the file.
#[derive(Drop)]
pub struct HostInputs<'a, R: Input + Files> {
    runtime: &'a R,
    stdin: R::Reader,
    file: Option<R::File>,
    chosen: Option<Which>,
    faults: u64,
}

impl<'a, R: Input + Files> HostInputs<'a, R> {
    /// Inputs with none chosen and no file open.
    pub fn new(runtime: &'a R) -> HostInputs<'a, R>
        ensures chosen { ⟦<HostInputs<'a, R> as Inputs>⟧.chosen result ≡ None }
        ensures faults { ⟦<HostInputs<'a, R> as Inputs>⟧.faults result ≡ 0 }
    {
        HostInputs {
            runtime,
            stdin: runtime.reader(),
            file: None,
            chosen: None,
            faults: 0,
        }
    }

    /// Reads once from the chosen input.
    fn read_once(&mut self, buf: &mut [u8]) -> Result<usize, Failed>
        ensures bound { ReadsAtMost result buf.new }
        ensures chosen { self.new.chosen ≡ self.old.chosen }
        ensures faults { self.new.faults ≡ self.old.faults }
    {
        match &self.chosen {
            Some(Which::File(name)) => read_file(self.runtime, &mut self.file, name, buf),
            _ => self.stdin.read(buf).map_err(|_| Failed),
        }
    }
}

/// Reads once from the file, and opens it first if it isn't open.
fn read_file<R: Files>(
    runtime: &R,
    file: &mut Option<R::File>,
    name: &Text,
    buf: &mut [u8],
) -> Result<usize, Failed>
    ensures { ReadsAtMost result buf.new }
{
    match file {
        Some(file) => file.read(buf).map_err(|_| Failed),
        None => file
            .insert(open(runtime, name)?)
            .read(buf)
            .map_err(|_| Failed),
    }
}

/// Opens the file with this name.
fn open<R: Files>(runtime: &R, name: &Text) -> Result<R::File, Failed> {
    let path = str::from_utf8(name.as_bytes()).map_err(|_| Failed)?;
    fs::open(runtime, path).map_err(|_| Failed)
}

impl<'a, R: Input + Files> Inputs for HostInputs<'a, R> {
    ghost left = { λ _ _. None };

    ghost chosen = { λ s. s.chosen };

    ghost faults = { λ s. s.faults };

    fn choose(&mut self, which: Which) {
        self.chosen = Some(which);
    }

    fn read(&mut self, buf: &mut [u8]) -> Result<usize, Failed>
        requires { IsSome (⟦<HostInputs<'a, R> as Inputs>⟧.chosen self.old) }

        // As for all inputs.
        ensures bound { ReadsAtMost result buf.new }
        ensures chosen { ⟦<HostInputs<'a, R> as Inputs>⟧.chosen self.new
            ≡ ⟦<HostInputs<'a, R> as Inputs>⟧.chosen self.old }
        ensures others { (w : Which) → ⟦<HostInputs<'a, R> as Inputs>⟧.chosen self.old ≢ Some w
            → ⟦<HostInputs<'a, R> as Inputs>⟧.left self.new w
            ≡ ⟦<HostInputs<'a, R> as Inputs>⟧.left self.old w }
        ensures bytes { let chosen = ⟦<HostInputs<'a, R> as Inputs>⟧.chosen self.old in
            Takes (left_of chosen (⟦<HostInputs<'a, R> as Inputs>⟧.left self.old))
            (left_of chosen (⟦<HostInputs<'a, R> as Inputs>⟧.left self.new)) result buf.new }
        ensures cause { HasCause (⟦<HostInputs<'a, R> as Inputs>⟧.faults self.old)
            (⟦<HostInputs<'a, R> as Inputs>⟧.faults self.new) result }

        // Each failure is counted once.
        ensures once { CountsOnce (⟦<HostInputs<'a, R> as Inputs>⟧.faults self.old)
            (⟦<HostInputs<'a, R> as Inputs>⟧.faults self.new) result }
    {
        match self.read_once(buf) {
            Ok(count) => Ok(count),
            Err(Failed) => {
                self.faults = self.faults.saturating_add(1);
                Err(Failed)
            }
        }
    }
}

/// How many bytes standard output buffers before they are handed to the system.
const GATHERED: usize = 65536;

/// The stream that takes the bytes.
#[derive(Drop)]
enum Stream {
    /// Standard output, with the bytes that wait in its buffer.
    Stdout(Room),
    /// Standard error.
    Stderr,
}

/// Standard output or standard error. Each failure is counted once. A failure may concern bytes of
/// an earlier write, and no byte is handed to the system twice. How much of a piece has reached the
/// system isn't promised, not even when the sink is dropped: [`HostSink::flush`] says whether the
/// system took what was buffered.
#[derive(Drop)]
pub struct HostSink<'a, R: Print + Eprint> {
    runtime: &'a R,
    stream: Stream,
    faults: u64,
}

impl<'a, R: Print + Eprint> HostSink<'a, R> {
    ghost use Rattle.lay_io.specs.Gathered.{IsHandedOver};

    /// Standard output with a buffer of 64 KiB, which is allocated here, so that small pieces don't
    /// cost a system call each. A piece that fits is buffered. If one doesn't fit, the buffer is
    /// written first; then the piece is buffered, or written at once if it has 64 KiB or more.
    pub fn stdout(alloc: Global, runtime: &'a R) -> Result<HostSink<'a, R>, NoMemory>
        ensures faults { IfOk result (λ sink. ⟦<HostSink<'a, R> as Sink>⟧.faults sink ≡ 0) }
        ensures waits { IfOk result (λ sink. IsHandedOver sink) }
    {
        Ok(HostSink {
            runtime,
            stream: Stream::Stdout(Room::with_room(alloc, GATHERED)?),
            faults: 0,
        })
    }

    /// Standard error. It has no buffer and allocates nothing. A piece that isn't UTF-8 fails.
    pub fn stderr(runtime: &'a R) -> HostSink<'a, R>
        ensures { ⟦<HostSink<'a, R> as Sink>⟧.faults result ≡ 0 }
    {
        HostSink {
            runtime,
            stream: Stream::Stderr,
            faults: 0,
        }
    }

    /// Writes the buffer. Afterwards the buffer is empty, whatever the result. A failure is
    /// counted.
    pub fn flush(&mut self) -> Result<(), Failed>
        ensures once { CountsOnce (⟦<HostSink<'a, R> as Sink>⟧.faults self.old)
            (⟦<HostSink<'a, R> as Sink>⟧.faults self.new) result }
        ensures waits { IsHandedOver self.new }
    {
        let answer = match &mut self.stream {
            Stream::Stdout(waiting) => write_waiting(self.runtime, waiting),
            Stream::Stderr => Ok(()),
        };
        self.count(answer)
    }

    /// Counts the failure, if it is one, and gives the result back.
    fn count(&mut self, answer: Result<(), Failed>) -> Result<(), Failed>
        ensures same { result ≡ answer }
        ensures stream { self.new.stream ≡ self.old.stream }
        ensures once { CountsOnce self.old.faults self.new.faults result }
        ensures cause { HasCause self.old.faults self.new.faults result }
    {
        if answer.is_err() {
            self.faults = self.faults.saturating_add(1);
        }
        answer
    }
}

/// Writes the buffer to standard output. Afterwards the buffer is empty, whatever the result.
fn write_waiting<R: Print>(runtime: &R, waiting: &mut Room) -> Result<(), Failed>
    ensures { (kept_in waiting.new).bytes ≡ Some [] }
{
    let answer = runtime.write_all(waiting.kept());
    waiting.clear();
    answer.map_err(|_| Failed)
}

/// Appends the piece to the buffer, or writes the buffer first if it doesn't fit. After a failure
/// the buffer is empty.
#[inline]
fn gather<R: Print>(runtime: &R, waiting: &mut Room, piece: &[u8]) -> Result<(), Failed>
    ensures kept { OnOk result (Waits (kept_in waiting.old) piece.now (kept_in waiting.new).bytes) }
    ensures dropped { OnErr result ((kept_in waiting.new).bytes ≡ Some []) }
{
    if piece.len() <= waiting.left() {
        waiting.put(piece);
        return Ok(());
    }
    write_through(runtime, waiting, piece)
}

/// Takes a piece that doesn't fit: writes the buffer, and then buffers the piece, or writes it too
/// if it would fill the buffer. After a failure the buffer is empty.
#[cold]
#[inline(never)]
fn write_through<R: Print>(runtime: &R, waiting: &mut Room, piece: &[u8]) -> Result<(), Failed>
    requires { (kept_in waiting.old).spare < length piece.now }
    ensures kept { OnOk result (Waits (kept_in waiting.old) piece.now (kept_in waiting.new).bytes) }
    ensures dropped { OnErr result ((kept_in waiting.new).bytes ≡ Some []) }
{
    write_waiting(runtime, waiting)?;
    if piece.len() < waiting.left() {
        waiting.put(piece);
        return Ok(());
    }
    runtime.write_all(piece).map_err(|_| Failed)
}

/// Writes text to standard error.
fn write_text<R: Eprint>(runtime: &R, piece: &[u8]) -> Result<(), Failed> {
    let text = str::from_utf8(piece).map_err(|_| Failed)?;
    runtime.eprint(text).map_err(|_| Failed)
}

impl<'a, R: Print + Eprint> Sink for HostSink<'a, R> {
    ghost use Rattle.lay_io.specs.Gathered.{HostWrite};

    ghost written = { λ _. None };

    ghost faults = { λ s. s.faults };

    ghost wrote = { λ s piece answer t. HostWrite s piece answer t };

    fn write(&mut self, piece: &[u8]) -> Result<(), Failed> {
        let answer = match &mut self.stream {
            Stream::Stdout(waiting) => gather(self.runtime, waiting, piece),
            Stream::Stderr => write_text(self.runtime, piece),
        };
        self.count(answer)
    }
}
