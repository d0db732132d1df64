ghost use Rattle.std.specs.Prelude.{◌≡◌, ◌≤◌, ◌++◌, ◌↔◌, [], ◌∷◌, IsTrue, length, take, OnErr, OnOk};
ghost use Rattle.hex.specs.Hex.{encode_lower};

use crate::digits::write_digits;
use fidl_names::{MAX_BYTES, NoMemory};
use std::alloc::Global;
use std::marker::Model;

/// A text that grows.
#[derive(Drop)]
pub struct Outtext {
    bytes: Vec<u8>,
}

impl Model for Outtext {
    ghost use Rattle.std.specs.Prelude.{List, ℕ};

    ghost Value = { List ℕ };

    ghost view = { λ text. text.bytes.items };
}

impl Outtext {
    /// An empty text.
    pub fn new(alloc: Global) -> Outtext
        ensures { result ≡ [] }
    {
        Outtext {
            bytes: Vec::new(alloc),
        }
    }

    /// Its bytes.
    pub fn as_bytes(&self) -> &[u8]
        ensures { result.now ≡ self.now }
    {
        &self.bytes
    }

    /// How many bytes it has.
    pub fn len(&self) -> usize
        ensures { result ≡ length self.now }
    {
        self.bytes.len()
    }

    /// Whether it is empty.
    pub fn is_empty(&self) -> bool
        ensures { IsTrue result ↔ (self.now ≡ []) }
    {
        self.bytes.is_empty()
    }

    /// Forgets the text, and keeps its room.
    pub fn clear(&mut self)
        ensures { self.new ≡ [] }
    {
        self.bytes.clear();
    }

    /// Cuts back to an earlier length.
    pub(crate) fn truncate(&mut self, len: usize)
        ensures { self.new ≡ take len self.old }
    {
        self.bytes.truncate(len);
    }

    /// Appends bytes, or for want of memory nothing.
    #[inline(always)]
    pub fn put(&mut self, part: &[u8]) -> Result<(), NoMemory>
        ensures put { OnOk result (self.new ≡ self.old ++ part.now) }
        ensures no_memory { OnErr result (self.new ≡ self.old) }
        ensures grows { take (length self.old) self.new ≡ self.old }
    {
        self.bytes.extend_from_slice(part)?;
        Ok(())
    }

    /// Appends one byte, or for want of memory nothing.
    #[inline(always)]
    pub(crate) fn put_byte(&mut self, byte: u8) -> Result<(), NoMemory>
        ensures put { OnOk result (self.new ≡ self.old ++ byte ∷ []) }
        ensures no_memory { OnErr result (self.new ≡ self.old) }
        ensures grows { take (length self.old) self.new ≡ self.old }
    {
        self.bytes.push(byte)?;
        Ok(())
    }

    /// Appends bytes as hexadecimal digits, or for want of memory nothing. They are written where
    /// they stay.
    pub(crate) fn put_digits(&mut self, part: &[u8]) -> Result<(), NoMemory>
        requires { length part.now ≤ MAX_BYTES }
        ensures put { OnOk result (self.new ≡ self.old ++ encode_lower part.now) }
        ensures no_memory { OnErr result (self.new ≡ self.old) }
        ensures grows { take (length self.old) self.new ≡ self.old }
    {
        let len = self.bytes.len();
        self.bytes.resize(len + 2 * part.len(), 0)?;
        write_digits(part, &mut self.bytes[len..]);
        Ok(())
    }
}
