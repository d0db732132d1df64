ghost use Rattle.std.specs.Prelude.{◌≡◌};

use fidl_names::NoMemory;

/// Why a call on a graph is refused.
#[derive(Clone, Copy, Debug, PartialEq, Eq)]
pub enum GraphFault {
    /// There is no such name.
    NotFound,
    /// The name is there already.
    Exists,
    /// What has to be a directory is none.
    NotDir,
    /// What has to be no directory is one.
    NotFile,
    /// The directory has names.
    NotEmpty,
    /// A directory would come below itself.
    Loop,
    /// No name leads to the directory any more.
    Removed,
    /// It can't be done to a mount.
    Unsupported,
    /// The server has as many names as it may have.
    NoSpace,
    /// The file would be longer than a file may be.
    FileBig,
    /// Memory is wanting.
    NoMemory,
}

impl From<NoMemory> for GraphFault {
    ghost use Rattle.node_graph.specs.declared.faults.GraphFault.TheVariants as fault;

    ghost from_gives = { λ _ given. given ≡ fault.NoMemory };

    fn from(_fault: NoMemory) -> GraphFault {
        GraphFault::NoMemory
    }
}
