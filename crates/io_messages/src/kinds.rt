//! The kinds of nodes that the event `OnRepresentation` tells, each by a branch of its union.

ghost use Rattle.std.specs.Prelude.{◌≡◌};
ghost use Rattle.io_messages.specs.Kinds.{branch_of_kind, kind_with};

use crate::protocols::Protocol;

/// The branch of a kind of node. A service announces itself as node.
pub fn branch_of_kind(kind: Protocol) -> u64
    ensures { result ≡ branch_of_kind kind }
{
    match kind {
        Protocol::Node | Protocol::Echo | Protocol::Watcher => 1,
        Protocol::Directory => 2,
        Protocol::File => 3,
    }
}

/// The kind of node with this branch.
#[tactic(auto, unfolding(crate::specs::Kinds::kind_with))]
pub fn kind_with(branch: u64) -> Option<Protocol>
    ensures { result ≡ kind_with branch }
{
    match branch {
        1 => Some(Protocol::Node),
        2 => Some(Protocol::Directory),
        3 => Some(Protocol::File),
        _ => None,
    }
}
