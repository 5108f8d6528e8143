//! Room in a circular buffer.
ghost use Rattle.std.specs.Prelude.{◌≡◌, ◌+◌, ◌-◌, ◌≤◌, length, IsOk, OnOk, OnErr};

use circular_buffer::HeapCircularBuffer;
use lay_text::NoMemory;

/// How many more items there is room for.
pub fn spare<T>(buffer: &HeapCircularBuffer<T>) -> usize
    ensures { length buffer.now.items + result ≡ buffer.now.capacity }
{
    buffer.capacity() - buffer.len()
}

/// Makes room for `more` items.
#[inline(always)]
pub fn reserve<T>(buffer: &mut HeapCircularBuffer<T>, more: usize) -> Result<(), NoMemory>
    ensures items { buffer.new.items ≡ buffer.old.items }
    ensures never_less { buffer.old.capacity ≤ buffer.new.capacity }
    ensures ok { OnOk result (length buffer.old.items + more ≤ buffer.new.capacity) }
    ensures err { OnErr result (buffer.new ≡ buffer.old) }
    ensures sure { more ≤ buffer.old.capacity - length buffer.old.items → IsOk result }
    ensures as_it_was { more ≤ buffer.old.capacity - length buffer.old.items
        → buffer.new ≡ buffer.old }
{
    if more <= spare(buffer) {
        return Ok(());
    }
    grow(buffer, more)
}

/// Makes room, at least twice as much as there was, so that items which are pushed one by one are
/// moved a bounded number of times each.
fn grow<T>(buffer: &mut HeapCircularBuffer<T>, more: usize) -> Result<(), NoMemory>
    ensures items { buffer.new.items ≡ buffer.old.items }
    ensures never_less { buffer.old.capacity ≤ buffer.new.capacity }
    ensures ok { OnOk result (length buffer.old.items + more ≤ buffer.new.capacity) }
    ensures err { OnErr result (buffer.new ≡ buffer.old) }
{
    let Some(wanted) = buffer.len().checked_add(more) else {
        return Err(NoMemory);
    };
    let doubled = buffer.capacity().saturating_mul(2);
    match buffer.resize(wanted.max(doubled).max(8)) {
        Ok(()) => Ok(()),
        Err(_) => Err(NoMemory),
    }
}
