ghost use Rattle.std.specs.Prelude.{◌≡◌, []};

use crate::items::{Bytes, Client, Mount, Node};
use std::alloc::Global;
use std::marker::Model;

/// The lists of a start, before it is known that they keep the rules of a tree. Of servers they have the names.
pub struct StartLists {
    pub servers: Vec<Bytes>,
    pub nodes: Vec<Node>,
    pub mounts: Vec<Mount>,
    pub clients: Vec<Client>,
}

// Who owns the lists lets go of them by one call, and not of each by another.
impl Drop for StartLists {
    fn drop(self) {
        let StartLists {
            servers: _servers,
            nodes: _nodes,
            mounts: _mounts,
            clients: _clients,
        } = self;
    }
}

impl Model for StartLists {
    ghost use Rattle.session_start.specs.Items.{Lists};

    ghost Value = { Lists };

    ghost view = { λ lists. record { servers = lists.servers.items; nodes = lists.nodes.items; mounts = lists.mounts.items; clients = lists.clients.items } };
}

impl StartLists {
    /// Lists with nothing in them.
    pub fn new(alloc: Global) -> StartLists
        ensures { result ≡ record { servers = []; nodes = []; mounts = []; clients = [] } }
    {
        StartLists {
            servers: Vec::new(alloc),
            nodes: Vec::new(alloc),
            mounts: Vec::new(alloc),
            clients: Vec::new(alloc),
        }
    }
}
