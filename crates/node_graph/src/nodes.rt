ghost use Rattle.std.specs.Prelude.{◌≡◌};
ghost use Rattle.node_graph.specs.Refusals.{is_directory, is_mount};

use io_rights::Rights;

/// What a node is.
#[derive(Clone, Copy)]
pub enum NodeKind {
    Directory,
    File,
    Service,
    /// A mount, by its index over the mounts of all servers: behind it the tree of its target goes on.
    Mount(u32),
}

impl NodeKind {
    pub(crate) fn is_directory(self) -> bool
        ensures { result ≡ is_directory self }
    {
        matches!(self, NodeKind::Directory)
    }

    pub(crate) fn is_mount(self) -> bool
        ensures { result ≡ is_mount self }
    {
        matches!(self, NodeKind::Mount(_))
    }
}

/// The name of a node that a graph keeps. Numbers rise in the order of making and are never used
/// again; places in memory may be.
#[derive(Clone, Copy)]
pub struct NodeRef {
    pub(crate) place: usize,
    pub(crate) number: u64,
}

/// What a name leads to: a node, what it is, and the mask of the rights that pass through the name.
#[derive(Clone, Copy)]
pub struct Entry {
    pub node: NodeRef,
    pub kind: NodeKind,
    pub mask: Rights,
}
