//! Reading an input to its end.
ghost use Rattle.std.specs.Prelude.{◌≡◌, ◌≢◌, ◌<◌, ◌≤◌, ◌^◌, [], length, Some, IsSome, IfSome, IfOk, OnOk, IsErrOf};
ghost use Rattle.lay_io.specs.Faults.{Rose};
ghost use Rattle.lay_io.specs.Told.{IsEnd, TellsAs};
ghost use Rattle.lay_io.specs.Calls.{left_of};
ghost use Rattle.lay_io.specs.declared.outside.Which.{Which};

use crate::outside::{Failed, Inputs};
use lay_text::List;
use std::alloc::Global;

/// Why an input was not read to its end.
#[derive(Clone, Copy, Debug, PartialEq, Eq)]
pub enum ReadError {
    /// A read failed.
    ReadFailed,
    /// The input holds more bytes than the limit.
    TooLong,
    /// Memory could not be allocated.
    NoMemory,
}

/// Reads the chosen input to its end, if it holds at most `limit` bytes. Each read but the last
/// gives at least one byte, so there are at most `limit + 1` reads.
pub fn read_all<I: Inputs>(
    alloc: Global,
    inputs: &mut I,
    limit: usize,
) -> Result<List<u8>, ReadError>
    requires chosen { IsSome (I.chosen inputs.old) }
    requires small { limit < 2 ^ 32 }

    // Of the chosen input what is left is a suffix of what was left; of each other input it is
    // unchanged.
    ensures same { I.chosen inputs.new ≡ I.chosen inputs.old }
    ensures rest { IsEnd (left_of (I.chosen inputs.old) (I.left inputs.old))
        (left_of (I.chosen inputs.old) (I.left inputs.new)) }
    ensures others { (w : Which) → I.chosen inputs.old ≢ Some w
        → I.left inputs.new w ≡ I.left inputs.old w }
    ensures later { I.faults inputs.old ≤ I.faults inputs.new }

    // `Ok` holds all that was left: the input was read to its end.
    ensures ok { IfOk result (λ bytes. TellsAs
        (left_of (I.chosen inputs.old) (I.left inputs.old)) bytes) }
    ensures at_end { OnOk result (TellsAs (left_of (I.chosen inputs.old) (I.left inputs.new)) []) }
    ensures within { IfOk result (λ bytes. length bytes ≤ limit) }

    ensures read_failed { IsErrOf result ReadError.ReadFailed
        → Rose (I.faults inputs.old) (I.faults inputs.new) }
    ensures too_long { IsErrOf result ReadError.TooLong →
        IfSome (left_of (I.chosen inputs.old) (I.left inputs.old)) (λ all. limit < length all) }
{
    let mut bytes = Vec::new(alloc);
    let mut buf = [0u8; 16384];
    for turn in 0..limit + 1 {
        let count = match inputs.read(&mut buf) {
            Ok(count) => count,
            Err(Failed) => return Err(ReadError::ReadFailed),
        };
        if count == 0 {
            return Ok(List::from_vec(bytes));
        }
        if count > limit - bytes.len() {
            return Err(ReadError::TooLong);
        }
        if bytes.extend_from_slice(&buf[..count]).is_err() {
            return Err(ReadError::NoMemory);
        }
    }
    unreachable!()
}
