ghost use Rattle.std.specs.Prelude.{◌≡◌, ◌≤◌, length, ⊤};
ghost use Rattle.dirents.specs.Listings.{behind_name};

use crate::listing::DOT;
use fidl_names::MAX_NAME;
use node_graph::NameBuf;
use std::alloc::AllocError;

/// Where the listing of a directory goes on. Making or copying a place takes no memory.
#[derive(Drop)]
pub enum Place {
    /// At its start, which is the directory itself under the name `.`.
    Start,
    /// After `.`, at the first name.
    AfterDot,
    /// After a name, which need not be in the directory any more.
    After(NameBuf),
}

impl Clone for Place {
    ghost is_clone = { λ place copy. copy ≡ place };

    ghost is_infallible = { λ _. ⊤ };

    fn clone(&self) -> Result<Place, AllocError> {
        match self {
            Place::Start => Ok(Place::Start),
            Place::AfterDot => Ok(Place::AfterDot),
            Place::After(name) => Ok(Place::After(name.clone()?)),
        }
    }
}

/// The place behind the entry with this name.
pub(crate) fn place_behind(name: &[u8]) -> Place
    requires some { 1 ≤ length name.now }
    requires few { length name.now ≤ MAX_NAME }
    ensures { result ≡ behind_name name.now }
{
    if name == DOT {
        Place::AfterDot
    } else {
        Place::After(NameBuf::new(name))
    }
}
