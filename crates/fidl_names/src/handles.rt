ghost use Rattle.std.specs.Prelude.{◌≡◌, ◌<◌};
ghost use Rattle.fidl_names.specs.HandleNumber.{end_of_mount, handle_with, is_client, number_of_handle};

use crate::limits::{FIRST_MOUNT_END, FIRST_TOKEN};
use crate::methods::Handle;

impl Handle {
    /// The handle that the link numbers so: a token from the first token's number on, and else an endpoint.
    pub fn with_number(number: u32) -> Handle
        ensures { result ≡ handle_with number }
    {
        if number >= FIRST_TOKEN {
            Handle::Token(number)
        } else {
            Handle::Endpoint(number)
        }
    }

    /// The number that the link has for it.
    pub fn number(self) -> u32
        ensures { result ≡ number_of_handle self }
    {
        match self {
            Handle::Endpoint(number) => number,
            Handle::Token(number) => number,
        }
    }
}

/// Whether a number is one of those from which clients make endpoints: from 1 up to the first mount end.
pub fn is_client(number: u32) -> bool
    ensures { result ≡ is_client number }
{
    0 < number && number < FIRST_MOUNT_END
}

/// The endpoint of a mount's end, by the mount's index over all servers: neither a client's number
/// nor a token's.
pub fn end_of_mount(index: u32) -> u32
    requires { end_of_mount index < FIRST_TOKEN }
    ensures { result ≡ end_of_mount index }
{
    FIRST_MOUNT_END + index
}
