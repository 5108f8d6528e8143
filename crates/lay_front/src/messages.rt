//! The messages of the command.
ghost use Rattle.std.specs.Prelude.{◌≡◌, ◌≤◌, ◌++◌, [], Err, OnOk, codes};
ghost use Rattle.std.specs.Fmt.{decimal};
ghost use Rattle.lay_io.specs.Calls.{Writes};
ghost use Rattle.lay_io.specs.Faults.{HasCause, Rose, SameLoan};
ghost use Rattle.lay_io.specs.Told.{GrewBy, GrewByPrefix};
ghost use Rattle.lay_front.specs.Messages.{line_of_end, message, reason, refusal_line};

use crate::command::Status;
use crate::stop::Stop;
use itoa::Buffer;
use lay_io::{Failed, Sink};
use lay_token::{Place2, Refusal};

/// Writes to `err` one line that says why a run ended, or nothing on success. It writes the line in
/// pieces, and allocates nothing. A fault of `err` has no other effect.
pub fn tell<E: Sink>(ended: Result<(), Stop>, err: &mut E)
    ensures part { GrewByPrefix (E.written err.old) (E.written err.new) (line_of_end ended) }
    ensures whole { ¬ (Rose (E.faults err.old) (E.faults err.new))
        → GrewBy (E.written err.old) (E.written err.new) (line_of_end ended) }
    ensures silent { OnOk ended (err.new ≡ err.old) }
    ensures later { E.faults err.old ≤ E.faults err.new }
    ensures loan { SameLoan (E.loan err.old) (E.loan err.new) }
{
    let Err(stop) = ended else {
        return;
    };
    let _ = write_line(stop, err);
}

/// Writes to `err` that a write failed: the line, or a prefix of it if `err` fails too.
pub fn tell_failed_write<E: Sink>(err: &mut E)
    ensures part { GrewByPrefix (E.written err.old) (E.written err.new)
        (message [] Status.WriteFailed) }
    ensures whole { ¬ (Rose (E.faults err.old) (E.faults err.new))
        → GrewBy (E.written err.old) (E.written err.new) (message [] Status.WriteFailed) }
{
    tell(Err(Stop::WriteFailed), err);
}

/// Writes the line of a run that stopped.
fn write_line<E: Sink>(stop: Stop, err: &mut E) -> Result<(), Failed>
    ensures bytes { Writes (E.written err.old) (E.written err.new) result (line_of_end (Err stop)) }
    ensures cause { HasCause (E.faults err.old) (E.faults err.new) result }
    ensures loan { SameLoan (E.loan err.old) (E.loan err.new) }
{
    match stop {
        Stop::Usage => {
            err.write(
                b"usage: lay_fmt [--check | --map] [FILE] or lay_fmt --sample SEED --items N\n",
            )
        }
        Stop::ReadFailed => err.write(b"read failed\n"),
        Stop::TooLong => err.write(b"input is longer than 16777216 bytes\n"),
        Stop::Refused { refusal, place } => write_refusal(refusal, place, err),
        Stop::WriteFailed => err.write(b"write failed\n"),
        Stop::Differs => err.write(b"differs\n"),
        Stop::NoMemory => err.write(b"no memory\n"),
    }
}

/// Writes the line of a syntax error: its place and its cause.
fn write_refusal<E: Sink>(refusal: Refusal, place: Place2, err: &mut E) -> Result<(), Failed>
    ensures bytes { Writes (E.written err.old) (E.written err.new) result
        (refusal_line refusal place) }
    ensures cause { HasCause (E.faults err.old) (E.faults err.new) result }
    ensures loan { SameLoan (E.loan err.old) (E.loan err.new) }
{
    if let Err(Failed) = write_number(place.line, b":", err) {
        return Err(Failed);
    }
    write_number(place.column, reason(refusal), err)
}

/// Writes a number in decimal digits, and then a piece.
fn write_number<E: Sink>(number: usize, behind: &[u8], err: &mut E) -> Result<(), Failed>
    ensures bytes { Writes (E.written err.old) (E.written err.new) result
        (decimal number ++ behind.now) }
    ensures cause { HasCause (E.faults err.old) (E.faults err.new) result }
    ensures loan { SameLoan (E.loan err.old) (E.loan err.new) }
{
    let mut digits = Buffer::new();
    if let Err(Failed) = err.write(digits.format(number).as_bytes()) {
        return Err(Failed);
    }
    err.write(behind)
}

/// The message of a syntax error, without its place.
fn reason(refusal: Refusal) -> &'static [u8]
    ensures { result.now ≡ reason refusal }
{
    match refusal {
        Refusal::NotUtf8 { .. } => b": not UTF-8\n",
        Refusal::NoToken { .. } => b": no token\n",
        Refusal::Unbalanced { .. } => b": unbalanced delimiter\n",
        Refusal::NoItem { .. } => b": no item\n",
    }
}
