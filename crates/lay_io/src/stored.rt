//! The content of inputs in memory.
ghost use Rattle.std.specs.Prelude.{◌≡◌, ◌+◌, ◌<◌, ◌≤◌, ◌++◌, [], option_map, min, find, length, take, drop, unwrap_or};
ghost use Rattle.std.specs.Option.{option_copied};
ghost use Rattle.std.specs.Str.{bytes_eq};
ghost use Rattle.lay_io.specs.Stored.{content_of};

use crate::outside::Which;
use lay_text::{List, Text};

/// A file in memory.
#[derive(Debug, Drop)]
pub struct NamedFile {
    pub name: Text,
    pub bytes: List<u8>,
}

/// The first file of this name.
fn named<'a>(files: &'a [NamedFile], name: &[u8]) -> Option<&'a NamedFile>
    ensures { option_copied result ≡ find (λ file. bytes_eq file.name name.now) files.now }
{
    files.iter().find(|file| file.name.as_bytes() == name)
}

/// The content of an input, if it is there.
pub fn content<'a>(
    stdin: &'a List<u8>,
    files: &'a List<NamedFile>,
    which: &Which,
) -> Option<&'a [u8]>
    ensures { option_map (λ bytes. bytes.now) result ≡ content_of stdin.now files.now which.now }
{
    match which {
        Which::Stdin => Some(stdin.as_slice()),
        Which::File(name) => match named(files.as_slice(), name.as_bytes()) {
            Some(file) => Some(file.bytes.as_slice()),
            None => None,
        },
    }
}

/// The content of an input; of one that isn't there, nothing.
pub fn content_or_empty<'a>(
    stdin: &'a List<u8>,
    files: &'a List<NamedFile>,
    which: &Which,
) -> &'a [u8]
    ensures { result.now ≡ unwrap_or (content_of stdin.now files.now which.now) [] }
{
    match content(stdin, files, which) {
        Some(all) => all,
        None => &[],
    }
}

/// Copies bytes to the beginning of the buffer, as many as fit, and gives their number.
fn fill(buf: &mut [u8], from: &[u8]) -> usize
    ensures count { result ≡ min (length buf.old) (length from.now) }
    ensures bytes { take result buf.new ≡ take result from.now }
{
    let count = buf.len().min(from.len());
    buf[..count].copy_from_slice(&from[..count]);
    count
}

/// Copies the next bytes to the beginning of the buffer, counts them as taken, and gives their
/// number.
pub fn take_next(all: &[u8], taken: &mut usize, buf: &mut [u8]) -> usize
    ensures bound { (result ≤ length buf.new) × (result ≡ length (take result buf.new)) }
    ensures bytes { drop taken.old all.now ≡ take result buf.new ++ drop taken.new all.now }
    ensures end { result ≡ 0 → 0 < length buf.new → drop taken.new all.now ≡ [] }
{
    if *taken >= all.len() {
        return 0;
    }
    let count = fill(buf, &all[*taken..]);
    *taken += count;
    count
}
