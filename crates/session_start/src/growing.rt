//! The graph of a server of a start, and its places.

ghost use Rattle.std.specs.Prelude.{◌<◌, IfOk, length};
ghost use Rattle.session_start.specs.Places.{Stands};
ghost use Rattle.session_start.specs.Accepted.{AreAccepted};
ghost use Rattle.session_start.specs.Numbering.{named_of};

use crate::making::{add_mounts, add_nodes};
use crate::places::Places;
use crate::start::Start;
use fidl_names::NoMemory;
use node_graph::Graph;
use std::alloc::Global;
use std::collections::BTreeMap;

// The path of the root.
const ROOT: &[u8] = b".";

/// The tree of a server as a graph, and the node to which each path of it leads.
#[derive(Drop)]
pub struct Grown<'a> {
    pub graph: Graph,
    pub places: Places<'a>,
}

/// Makes the tree of the server of a start with this index: its root, its nodes with their bytes, and then
/// the mounts in it. Nothing holds a node of it yet.
pub fn grow<'a>(alloc: Global, start: &'a Start, server: u32) -> Result<Grown<'a>, NoMemory>
    requires there { server < length start.now.servers }
    ensures stands { IfOk result (λ grown. Stands (named_of start.now server) grown.graph grown.places) }
    ensures accepted { IfOk result (λ grown. AreAccepted start.now) }
{
    let mut graph = Graph::new(alloc)?;
    let mut places: Places<'a> = BTreeMap::new(alloc);
    places.insert(ROOT, graph.root())?;
    add_nodes(start, server, &mut graph, &mut places)?;
    add_mounts(start, server, &mut graph, &mut places)?;
    Ok(Grown { graph, places })
}
