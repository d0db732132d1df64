ghost use Rattle.std.specs.Prelude.{◌≡◌, ◌+◌, ◌≤◌, ◌++◌, length};
ghost use Rattle.dirents.specs.Listings.{dirent_bytes, dirent_size};
ghost use Rattle.dirents.specs.Reading.{entry_of};

use fidl_names::{MAX_BYTES, MAX_NAME};
use fidl_wire::Out;

/// An entry of a listing: the number of a node, the type of its kind, and a name of at most 255 bytes. The types are 4 for a
/// directory and a mount, 8 for a file and 16 for a service.
#[derive(Clone, Copy)]
pub struct Dirent<'a> {
    pub ino: u64,
    pub kind: u8,
    pub name: &'a [u8],
}

/// The bytes of an entry before its name: the number in eight, the name's length, the type.
pub(crate) const HEAD: usize = 10;

impl<'a> Dirent<'a> {
    /// How many bytes the entry takes.
    pub(crate) fn size(&self) -> usize
        requires { length self.now.name.now ≤ MAX_NAME }
        ensures { result ≡ dirent_size (entry_of self.now) }
    {
        HEAD + self.name.len()
    }

    /// Appends the entry.
    pub(crate) fn put(&self, to: &mut Out)
        requires named { length self.now.name.now ≤ MAX_NAME }
        requires room { length to.old.bytes + dirent_size (entry_of self.now) ≤ MAX_BYTES }
        ensures bytes { to.new.bytes ≡ to.old.bytes ++ dirent_bytes (entry_of self.now) }
        ensures len { length to.new.bytes ≡ length to.old.bytes + dirent_size (entry_of self.now) }
        ensures handles { to.new.handles ≡ to.old.handles }
    {
        to.put_u64(self.ino);
        to.put_bytes(&[self.name.len() as u8, self.kind]);
        to.put_bytes(self.name);
    }
}
