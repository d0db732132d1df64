//! Why a method isn't served on a connection, whatever its arguments are.

ghost use Rattle.std.specs.Prelude.{◌≡◌, ◌≢◌, true, IfSome};
ghost use Rattle.io_messages.specs.Protocols.{has_method, home_of};
ghost use Rattle.conn_rules.specs.Acts.{is_of_every_node, is_beyond, lacks_right, method_refusals};
ghost use Rattle.conn_rules.specs.Births.{born};
ghost use Rattle.fidl_names.specs.First.{first_of};
ghost use Rattle.conn_rules.specs.Shared.{can_fail};

use crate::births::Birth;
use fidl_names::{Method, Status};
use io_messages::{Protocol, has_method};
use io_rights::needed;

/// Why a method isn't served on a connection, whatever its arguments are: it is none of a node
/// reference's, or its right is wanting; both are answered BAD_HANDLE.
pub fn method_refusal(birth: &Birth, method: Method) -> Option<Status>
    ensures first { result ≡ first_of (method_refusals (born birth.now) method) }
    ensures status { IfSome result (λ status. status ≢ Status.Ok) }
    ensures form { birth.now.protocol ≢ Protocol.Echo →
        has_method birth.now.protocol method ≡ true → IfSome result (λ _. can_fail method ≡ true) }
{
    if is_beyond(birth.protocol, method) {
        return Some(Status::BadHandle);
    }
    if lacks_right(birth, method) {
        return Some(Status::BadHandle);
    }
    None
}

/// The connection refers to a node alone, and the method isn't one of every node.
fn is_beyond(protocol: Protocol, method: Method) -> bool
    ensures { result ≡ is_beyond protocol method }
{
    match protocol {
        Protocol::Node => !is_of_every_node(method),
        Protocol::Directory | Protocol::File | Protocol::Echo | Protocol::Watcher => false,
    }
}

/// Directories and files both have the method.
fn is_of_every_node(method: Method) -> bool
    ensures { result ≡ is_of_every_node (home_of method) }
{
    has_method(Protocol::Directory, method) && has_method(Protocol::File, method)
}

/// The connection lacks the right that the method needs.
fn lacks_right(birth: &Birth, method: Method) -> bool
    ensures { result ≡ lacks_right (born birth.now) method }
{
    match needed(method) {
        Some(right) => !right.within(birth.rights),
        None => false,
    }
}
