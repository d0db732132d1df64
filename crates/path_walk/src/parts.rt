//! The parts of a path.

ghost use Rattle.std.specs.Prelude.{◌≡◌, false};
ghost use Rattle.path_walk.specs.Parts.{is_dot, last_name, parent_of};

use memchr::memrchr;

/// Whether a path is `.`, that of the root, or of the directory where a walk begins.
pub fn is_dot(path: &[u8]) -> bool
    ensures { result ≡ is_dot path.now }
{
    matches!(path, [b'.'])
}

/// A path without its last name: `.` where it has one name alone.
pub fn parent_of(path: &[u8]) -> &[u8]
    ensures { result.now ≡ parent_of path.now }
{
    match memrchr(b'/', path) {
        Some(place) => &path[..place],
        None => b".",
    }
}

/// The last name of a path below the root.
pub fn last_name(path: &[u8]) -> &[u8]
    requires below { is_dot path.now ≡ false }
    ensures { result.now ≡ last_name path.now }
{
    match memrchr(b'/', path) {
        Some(place) => &path[place + 1..],
        None => path,
    }
}
