//! The program: it calls [`run`] with the system's objects, and makes its status the exit status.
#![tactic(auto)]

ghost use Rattle.std.specs.Prelude.{◌≡◌, [], OnOk, OnErr};
ghost use Rattle.lay_io.specs.Faults.{Rose};
ghost use Rattle.lay_io.specs.Told.{GrewBy, GrewByPrefix};
ghost use Rattle.lay_front.specs.Messages.{message};
ghost use Rattle.lay_fmt.specs.Exit.{number_of};

use lay_front::{Status, run, tell_failed_write};
use lay_io::{Failed, HostInputs, HostSink, Sink};
use lay_text::{NoMemory, Text};
use std::alloc::Global;
use std::process::ExitCode;
use std::rt::{Env, Files};
use std::{env, io};

/// Why the words of the command line can't be had.
enum NoWords {
    NotText,
    NoMemory,
}

impl From<NoMemory> for NoWords {
    fn from(_: NoMemory) -> NoWords {
        NoWords::NoMemory
    }
}

fn main(rt: HostRuntime) -> ExitCode {
    let alloc = rt.alloc();
    match words(&rt, alloc) {
        Ok(words) => ExitCode::from(exit_status(outcome(&rt, alloc, words.as_slice()))),
        Err(NoWords::NotText) => ExitCode::from(8),
        Err(NoWords::NoMemory) => ExitCode::from(7),
    }
}

/// The status of a run with the system's objects. It is generic over the system, so that the drop
/// of its files isn't proved here again.
fn outcome<R: Input + Files + Print + Eprint>(rt: &R, alloc: Global, words: &[Text]) -> Status {
    let mut out = match HostSink::stdout(alloc, rt) {
        Ok(out) => out,
        Err(NoMemory) => return Status::NoMemory,
    };
    let mut inputs = HostInputs::new(rt);
    let mut err = HostSink::stderr(rt);
    let status = run(alloc, words, &mut inputs, &mut out, &mut err);
    finished(status, out.flush(), &mut err)
}

/// The status of a run, or `WriteFailed` if its output couldn't be handed to the system; that is
/// reported in one line.
fn finished<E: Sink>(status: Status, flushed: Result<(), Failed>, err: &mut E) -> Status
    ensures same { OnOk flushed ((result ≡ status) × (err.new ≡ err.old)) }
    ensures failed { OnErr flushed ((result ≡ Status.WriteFailed)
        × GrewByPrefix (E.written err.old) (E.written err.new) (message [] Status.WriteFailed)) }
    ensures whole { OnErr flushed (¬ (Rose (E.faults err.old) (E.faults err.new))
        → GrewBy (E.written err.old) (E.written err.new) (message [] Status.WriteFailed)) }
{
    match flushed {
        Ok(()) => status,
        Err(Failed) => {
            tell_failed_write(err);
            Status::WriteFailed
        }
    }
}

/// The words of the command line, without the program's name.
fn words(rt: &(impl Env + AllocGlobal), alloc: Global) -> Result<Vec<Text>, NoWords> {
    let given = match env::args(rt) {
        Ok(given) => given,
        Err(error) => match error.kind() {
            io::ErrorKind::OutOfMemory => return Err(NoWords::NoMemory),
            _ => return Err(NoWords::NotText),
        },
    };
    let mut words = Vec::new(alloc);
    for word in given.skip(1) {
        let word = Text::from_bytes(alloc, word.as_bytes())?;
        if words.push(word).is_err() {
            return Err(NoWords::NoMemory);
        }
    }
    Ok(words)
}

/// The exit status for a status.
fn exit_status(status: Status) -> u8
    ensures { result ≡ number_of status }
{
    match status {
        Status::Done => 0,
        Status::Differs => 1,
        Status::Usage => 2,
        Status::ReadFailed => 3,
        Status::Refused(_) => 4,
        Status::WriteFailed => 5,
        Status::TooLong => 6,
        Status::NoMemory => 7,
    }
}
