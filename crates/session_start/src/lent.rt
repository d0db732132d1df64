ghost use Rattle.std.specs.Prelude.{◌≡◌};
ghost use Rattle.session_start.specs.Lent.{node_item, mount_item, client_item};

use crate::items::{Client, Mount, Node};
use io_rights::Rights;
use node_graph::NodeKind;

/// A node of a start, lent: its server's index, its path below the root, its kind, the mask of its name,
/// and the bytes of a file, of which other kinds have none.
#[derive(Clone, Copy)]
pub struct StartNode<'a> {
    pub server: u32,
    pub path: &'a [u8],
    pub kind: NodeKind,
    pub rights: Rights,
    pub bytes: &'a [u8],
}

/// A mount of a start, lent: at a path below the root of a server the target goes on, from its directory
/// `at`, through these rights. Servers are told by their indexes.
#[derive(Clone, Copy)]
pub struct StartMount<'a> {
    pub server: u32,
    pub path: &'a [u8],
    pub target: u32,
    pub at: &'a [u8],
    pub rights: Rights,
}

/// A first connection of a start, lent: its endpoint, a client's number, and the directory of a server
/// that it is bound to, with these rights.
#[derive(Clone, Copy)]
pub struct StartClient<'a> {
    pub endpoint: u32,
    pub server: u32,
    pub path: &'a [u8],
    pub rights: Rights,
}

pub(crate) fn lend_node(node: &Node) -> StartNode<'_>
    ensures { node_item result ≡ node.now }
{
    StartNode {
        server: node.server,
        path: node.path.as_slice(),
        kind: node.kind,
        rights: node.rights,
        bytes: node.bytes.as_slice(),
    }
}

pub(crate) fn lend_mount(mount: &Mount) -> StartMount<'_>
    ensures { mount_item result ≡ mount.now }
{
    StartMount {
        server: mount.server,
        path: mount.path.as_slice(),
        target: mount.target,
        at: mount.at.as_slice(),
        rights: mount.rights,
    }
}

pub(crate) fn lend_client(client: &Client) -> StartClient<'_>
    ensures { client_item result ≡ client.now }
{
    StartClient {
        endpoint: client.endpoint,
        server: client.server,
        path: client.path.as_slice(),
        rights: client.rights,
    }
}
