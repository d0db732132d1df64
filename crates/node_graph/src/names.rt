ghost use Rattle.std.specs.Prelude.{◌≡◌, ◌≤◌, length, ⊤};

use fidl_names::MAX_NAME;
use std::alloc::AllocError;
use std::marker::Model;

/// A name of 1 to 255 bytes in an array, so that it takes no memory of its own. Contracts see it as
/// its bytes.
#[derive(Drop)]
pub struct NameBuf {
    bytes: [u8; MAX_NAME],
    length: usize,
}

impl Model for NameBuf {
    ghost use Rattle.std.specs.Prelude.{ℕ, List, take, ◌≤◌};
    ghost use Rattle.fidl_names.specs.declared.limits.TheConstants.{MAX_NAME};

    ghost Value = { List ℕ };

    ghost view = { λ name. take name.length name.bytes };

    ghost invariant = { λ name. (1 ≤ name.length) × (name.length ≤ MAX_NAME) };
}

impl NameBuf {
    pub fn new(name: &[u8]) -> NameBuf
        requires some { 1 ≤ length name.now }
        requires few { length name.now ≤ MAX_NAME }
        ensures { result ≡ name.now }
    {
        let mut bytes = [0; MAX_NAME];
        bytes[..name.len()].copy_from_slice(name);
        NameBuf {
            bytes,
            length: name.len(),
        }
    }

    /// The name, of 1 to 255 bytes.
    pub fn as_bytes(&self) -> &[u8]
        ensures value { result.now ≡ self.now }
        ensures some { 1 ≤ length result.now }
        ensures few { length result.now ≤ MAX_NAME }
    {
        &self.bytes[..self.length]
    }
}

impl Clone for NameBuf {
    ghost is_clone = { λ name copy. copy ≡ name };

    ghost is_infallible = { λ _. ⊤ };

    fn clone(&self) -> Result<NameBuf, AllocError> {
        Ok(NameBuf {
            bytes: self.bytes,
            length: self.length,
        })
    }
}
