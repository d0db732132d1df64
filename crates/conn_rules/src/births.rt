ghost use Rattle.std.specs.Prelude.{◌≡◌};
ghost use Rattle.conn_rules.specs.Births.{clone_of};
ghost use Rattle.conn_rules.specs.Opens.{is_full};

use fidl_names::MAX_CONNECTIONS;
use io_messages::Protocol;
use io_rights::Rights;
use node_graph::NodeRef;

/// What an endpoint is bound to: a node, what may be done there, and how.
#[derive(Clone, Copy)]
pub struct Birth {
    pub node: NodeRef,
    pub rights: Rights,
    pub protocol: Protocol,
    /// Whether each Write goes to the file's end.
    pub append: bool,
    /// Whether the endpoint's first message tells what it is bound to.
    pub announce: bool,
}

impl Birth {
    /// What a clone of the connection is bound with. Each field is named, so that one that no clone
    /// inherits isn't inherited unseen.
    pub(crate) fn of_clone(&self) -> Birth
        ensures { result ≡ clone_of self.now }
    {
        Birth {
            node: self.node,
            rights: self.rights,
            protocol: self.protocol,
            append: self.append,
            announce: false,
        }
    }
}

/// What is in use at a server: its connections, at most 4,096; the watchers of the connection's
/// directory, at most 64; and the number that the next token gets, `None` where none is given any
/// more.
#[derive(Clone, Copy)]
pub struct Room {
    pub connections: u32,
    pub watchers: u32,
    pub token: Option<u32>,
}

impl Room {
    /// Whether the server has as many connections as it may.
    pub fn is_full(self) -> bool
        ensures { result ≡ is_full self }
    {
        self.connections >= MAX_CONNECTIONS
    }
}
