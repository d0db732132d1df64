// For clients, who read a listing: the servers here write listings alone.

ghost use Rattle.std.specs.Prelude.{◌≡◌, ◌↔◌, ℕ, List, [], ◌++◌, IsTrue, length, slice_index};
ghost use Rattle.std.specs.Iterator.{at_most};
ghost use Rattle.dirents.specs.Listings.{dirent_bytes};
ghost use Rattle.dirents.specs.Reading.{FitsFields, Gives, entry_of, left};

use crate::dirent::{Dirent, HEAD};
use byteorder::{ByteOrder, LittleEndian};

/// The entries of a listing's bytes that weren't given yet, in order: those of the longest front of the bytes that is whole entries.
#[derive(Clone, Copy)]
pub struct Entries<'a> {
    bytes: &'a [u8],
}

impl<'a> Entries<'a> {
    /// The entries of these bytes.
    pub fn new(bytes: &'a [u8]) -> Entries<'a>
        ensures { left result ≡ bytes.now }
    {
        Entries { bytes }
    }

    /// Whether the entries that were given used the bytes up.
    pub fn whole(&self) -> bool
        ensures { IsTrue result ↔ (left self.now ≡ []) }
    {
        self.bytes.is_empty()
    }
}

impl<'a> Iterator for Entries<'a> {
    type Item = Dirent<'a>;

    ghost next_gives = { Gives };

    ghost remaining = { λ entries. at_most (length (left entries)) };

    fn next(&mut self) -> Option<Dirent<'a>> {
        let (head, rest) = self.bytes.split_at_checked(HEAD)?;
        let (name, others) = rest.split_at_checked(head[8] as usize)?;
        self.bytes = others;
        Some(entry_in(head, name))
    }
}

/// The entry with these bytes before its name.
fn entry_in<'a>(head: &[u8], name: &'a [u8]) -> Dirent<'a>
    requires size { length head.now ≡ HEAD }
    requires named { length name.now ≡ slice_index head.now 8 }
    ensures bytes { (others : List ℕ) → head.now ++ (name.now ++ others) ≡ dirent_bytes (entry_of result) ++ others }
    ensures fits { FitsFields (entry_of result) }
{
    Dirent {
        ino: LittleEndian::read_u64(head),
        kind: head[9],
        name,
    }
}
