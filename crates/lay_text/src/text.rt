//! [`Text`], a growable byte string.
ghost use Rattle.std.specs.Prelude.{◌≡◌, ◌+◌, ◌<◌, ◌≤◌, ◌++◌, ◌∷◌, [], length, IsOk, IfOk, OnOk, OnErr};

use crate::refusal::NoMemory;
use smallvec::SmallVec;
use std::alloc::Global;
use std::marker::Model;

/// How many bytes a text keeps inline, without allocating.
const INLINE: usize = 22;

/// A byte string. Up to 22 bytes are kept inline, without allocating.
#[derive(Debug, Drop)]
pub struct Text {
    bytes: SmallVec<u8, 22>,
}

impl Model for Text {
    ghost use Rattle.std.specs.Prelude.{List, ℕ, ◌≤◌};

    ghost Value = { List ℕ };

    ghost view = { λ text. text.bytes.items };

    ghost invariant = { λ text. 22 ≤ text.bytes.capacity };
}

impl Text {
    /// The empty text.
    pub fn new(alloc: Global) -> Text
        ensures { result ≡ [] }
    {
        Text {
            bytes: SmallVec::new(alloc),
        }
    }

    /// A copy of the bytes. It allocates only for more than 22 bytes.
    #[inline(always)]
    pub fn from_bytes(alloc: Global, bytes: &[u8]) -> Result<Text, NoMemory>
        ensures ok { IfOk result (λ text. text ≡ bytes.now) }
        ensures short { length bytes.now ≤ 22 → IsOk result }
    {
        match bytes {
            // Every second token is a mark.
            [byte] => {
                let mut text = Text::new(alloc);
                text.push(*byte)?;
                Ok(text)
            }
            _ if bytes.len() <= INLINE => Ok(Text::short(alloc, bytes)),
            _ => Text::long(alloc, bytes),
        }
    }

    /// A copy of at most 22 bytes.
    #[inline(always)]
    fn short(alloc: Global, bytes: &[u8]) -> Text
        requires { length bytes.now ≤ 22 }
        ensures { result ≡ bytes.now }
    {
        let mut copy = SmallVec::new(alloc);
        for byte in bytes {
            copy.push_reserved(*byte);
        }
        Text { bytes: copy }
    }

    /// A copy of the bytes, allocated with no spare room.
    fn long(alloc: Global, bytes: &[u8]) -> Result<Text, NoMemory>
        ensures { IfOk result (λ text. text ≡ bytes.now) }
    {
        let mut text = Text::new(alloc);
        text.bytes.reserve_exact(bytes.len())?;
        text.push_bytes(bytes)?;
        Ok(text)
    }

    /// Appends a byte. It doesn't allocate while the text has fewer than 22 bytes.
    #[inline]
    pub fn push(&mut self, byte: u8) -> Result<(), NoMemory>
        ensures ok { OnOk result (self.new ≡ self.old ++ byte ∷ []) }
        ensures err { OnErr result (self.new ≡ self.old) }
        ensures short { length self.old < 22 → IsOk result }
    {
        match self.bytes.push(byte) {
            Ok(()) => Ok(()),
            Err(_) => Err(NoMemory),
        }
    }

    /// Appends bytes. It doesn't allocate if the text then has at most 22 bytes.
    pub fn push_bytes(&mut self, bytes: &[u8]) -> Result<(), NoMemory>
        ensures ok { OnOk result (self.new ≡ self.old ++ bytes.now) }
        ensures err { OnErr result (self.new ≡ self.old) }
        ensures short { length self.old + length bytes.now ≤ 22 → IsOk result }
    {
        match self.bytes.extend_from_slice(bytes) {
            Ok(()) => Ok(()),
            Err(_) => Err(NoMemory),
        }
    }

    /// All bytes, as a slice.
    pub fn as_bytes(&self) -> &[u8]
        ensures { result.now ≡ self.now }
    {
        self.bytes.as_slice()
    }
}
