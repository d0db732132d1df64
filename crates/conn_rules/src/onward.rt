ghost use Rattle.std.specs.Prelude.{◌≡◌, ◌++◌, [], ◌∷◌};
ghost use Rattle.fidl_names.specs.declared.methods.Handle.TheVariants.{Endpoint};
ghost use Rattle.conn_rules.specs.Onward.{onward_bytes};

use fidl_wire::{Ordinals, Out};
use io_flags::OpenFlags;
use io_messages::{Request, write_request};
use path_walk::Path;

/// Writes the Open that goes on behind a mount into an empty output: the rest of the path, the
/// flags that are left, no options, and the same object. Since a path has at most 4,095 bytes, it
/// fits.
pub fn forward(ordinals: &Ordinals, flags: OpenFlags, rest: Path<'_>, object: u32, out: &mut Out)
    requires empty { out.old ≡ record { bytes = []; handles = [] } }
    ensures bytes { out.new.bytes ≡ out.old.bytes ++ onward_bytes flags rest.entry object }
    ensures handles { out.new.handles ≡ out.old.handles ++ Endpoint object ∷ [] }
{
    let request = Request::OpenPath {
        path: rest.as_bytes(),
        flags: flags.word(),
        attributes: None,
        object,
    };
    if write_request(ordinals, 0, request, out).is_err() {
        unreachable!();
    }
}
