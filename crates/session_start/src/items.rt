ghost use Rattle.std.specs.Prelude.{◌≡◌, ℕ, List, IfOk};

use io_rights::Rights;
use node_graph::NodeKind;
use std::alloc::{AllocError, Global};
use std::marker::Model;

/// A text of its own: a server's name, a path, or what is in a file. Contracts see it as its bytes.
#[derive(Drop)]
pub struct Bytes {
    bytes: Vec<u8>,
}

impl Model for Bytes {
    ghost Value = { List ℕ };

    ghost view = { λ text. text.bytes.items };
}

impl Bytes {
    /// The text that these bytes are.
    pub fn new(bytes: Vec<u8>) -> Bytes
        ensures { result ≡ bytes.items }
    {
        Bytes { bytes }
    }

    /// A copy of these bytes, unless memory was wanting.
    pub fn copy(alloc: Global, bytes: &[u8]) -> Result<Bytes, AllocError>
        ensures { IfOk result (λ copy. copy ≡ bytes.now) }
    {
        Ok(Bytes {
            bytes: Vec::from_slice(alloc, bytes)?,
        })
    }

    /// Its bytes.
    pub fn as_slice(&self) -> &[u8]
        ensures { result.now ≡ self.now }
    {
        &self.bytes
    }
}

/// A node, owned; `StartNode` says what its fields are.
#[derive(Drop)]
pub struct Node {
    pub server: u32,
    pub path: Bytes,
    pub kind: NodeKind,
    pub rights: Rights,
    pub bytes: Bytes,
}

impl Model for Node {
    ghost use Rattle.session_start.specs.Items.{NodeItem};

    ghost Value = { NodeItem };

    ghost view = { λ node. record { server = node.server; path = node.path; kind = node.kind; rights = node.rights; bytes = node.bytes } };
}

/// A mount, owned; `StartMount` says what its fields are.
#[derive(Drop)]
pub struct Mount {
    pub server: u32,
    pub path: Bytes,
    pub target: u32,
    pub at: Bytes,
    pub rights: Rights,
}

impl Model for Mount {
    ghost use Rattle.session_start.specs.Items.{MountItem};

    ghost Value = { MountItem };

    ghost view = { λ mount. record { server = mount.server; path = mount.path; target = mount.target; at = mount.at; rights = mount.rights } };
}

/// A first connection, owned; `StartClient` says what its fields are.
#[derive(Drop)]
pub struct Client {
    pub endpoint: u32,
    pub server: u32,
    pub path: Bytes,
    pub rights: Rights,
}

impl Model for Client {
    ghost use Rattle.session_start.specs.Items.{ClientItem};

    ghost Value = { ClientItem };

    ghost view = { λ client. record { endpoint = client.endpoint; server = client.server; path = client.path; rights = client.rights } };
}
