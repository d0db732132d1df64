ghost use Rattle.std.specs.Prelude.{◌≡◌};
ghost use Rattle.io_rights.specs.Needs.{needed_by};

use crate::operations::Operation;
use crate::sets::Rights;
use fidl_names::Method;

/// The right that a method needs of the connection that it is called on; `None` where it needs none,
/// and for Open, whose needs depend on its flags and path.
pub fn needed(method: Method) -> Option<Rights>
    ensures { result ≡ needed_by method }
{
    let operation = match method {
        Method::GetAttributes => Operation::GetAttributes,
        Method::ReadDirents | Method::Watch => Operation::Enumerate,
        Method::GetToken | Method::Rename | Method::Link | Method::Unlink => {
            Operation::ModifyDirectory
        }
        Method::Read | Method::ReadAt => Operation::ReadBytes,
        Method::Write | Method::WriteAt | Method::Resize => Operation::WriteBytes,
        Method::EchoString => Operation::Connect,
        Method::Clone
        | Method::Close
        | Method::Query
        | Method::Sync
        | Method::OpenPath
        | Method::Rewind
        | Method::Seek => return None,
    };
    Some(Rights::of(operation))
}
