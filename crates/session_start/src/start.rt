ghost use Rattle.std.specs.Prelude.{◌≡◌, ◌<◌, slice_get, Some, length};
ghost use Rattle.session_start.specs.Accepted.{AreAccepted, AreOfStart, HasFilesOfBytes};
ghost use Rattle.session_start.specs.Lent.{node_item, mount_item, client_item};

use crate::lent::{StartClient, StartMount, StartNode, lend_client, lend_mount, lend_node};
use crate::lists::StartLists;
use std::marker::Model;

/// What a session starts with: servers, nodes, mounts and first connections, each in the order of its
/// list. Contracts see it as these lists. They keep the rules of a tree, and what is in their files are
/// bytes: the counts of servers and nodes say so.
pub struct Start {
    lists: StartLists,
}

// Who owns a start lets go of it by one call.
impl Drop for Start {
    fn drop(self) {
        let Start { lists: _lists } = self;
    }
}

impl Model for Start {
    ghost use Rattle.session_start.specs.Accepted.{AreOfStart};
    ghost use Rattle.session_start.specs.Items.{Lists};

    ghost Value = { Lists };

    ghost view = { λ start. start.lists };

    ghost invariant = { λ start. AreOfStart start.lists };
}

impl Start {
    /// The start with these lists, which keep the rules of a tree and have bytes in their files.
    pub fn new(lists: StartLists) -> Start
        requires { AreOfStart lists }
        ensures { result ≡ lists }
    {
        Start { lists }
    }

    /// How many servers there are: at most 8.
    pub fn servers(&self) -> u32
        ensures count { result ≡ length self.now.servers }
        ensures accepted { AreAccepted self.now }
        ensures bytes { HasFilesOfBytes self.now }
    {
        self.lists.servers.len() as u32
    }

    /// How many nodes all servers have, without their roots: at most 4,096 each, mounts among them.
    pub fn nodes(&self) -> u32
        ensures count { result ≡ length self.now.nodes }
        ensures accepted { AreAccepted self.now }
        ensures bytes { HasFilesOfBytes self.now }
    {
        self.lists.nodes.len() as u32
    }

    /// How many mounts there are.
    pub fn mounts(&self) -> u32
        ensures { result ≡ length self.now.mounts }
    {
        self.lists.mounts.len() as u32
    }

    /// How many first connections there are.
    pub fn clients(&self) -> u32
        ensures { result ≡ length self.now.clients }
    {
        self.lists.clients.len() as u32
    }

    /// The node with this index over all servers, below `nodes()`.
    pub fn node_at(&self, i: u32) -> StartNode<'_>
        requires { i < length self.now.nodes }
        ensures { slice_get self.now.nodes i ≡ Some (node_item result) }
    {
        lend_node(&self.lists.nodes[i as usize])
    }

    /// The mount with this index over all servers, below `mounts()`.
    pub fn mount_at(&self, i: u32) -> StartMount<'_>
        requires { i < length self.now.mounts }
        ensures { slice_get self.now.mounts i ≡ Some (mount_item result) }
    {
        lend_mount(&self.lists.mounts[i as usize])
    }

    /// The first connection with this index, below `clients()`.
    pub fn client_at(&self, i: u32) -> StartClient<'_>
        requires { i < length self.now.clients }
        ensures { slice_get self.now.clients i ≡ Some (client_item result) }
    {
        lend_client(&self.lists.clients[i as usize])
    }
}
