//! The nodes of a server, made one by one.

ghost use Rattle.std.specs.Prelude.{◌≡◌, ◌<◌, ◌+◌, ◌++◌, ◌∷◌, ℕ, List, [], OnOk, length};
ghost use Rattle.session_start.specs.Accepted.{AreAccepted};
ghost use Rattle.session_start.specs.Items.{Lists};
ghost use Rattle.session_start.specs.Lent.{node_item};
ghost use Rattle.session_start.specs.Numbering.{Named, named_of, node_named};
ghost use Rattle.session_start.specs.Growing.{IsNext, named_with, nodes_among};
ghost use Rattle.session_start.specs.Places.{Stands};

use crate::lent::StartNode;
use crate::places::{Places, node_at};
use crate::start::Start;
use fidl_names::NoMemory;
use node_graph::{Graph, NodeKind};
use path_walk::{last_name, parent_of};

// Makes the next node of a server, where those before it stand.
fn add<'a>(node: &StartNode<'a>, graph: &mut Graph, places: &mut Places<'a>) -> Result<(), NoMemory>
    requires next { (lists : Lists) × (server : ℕ) × (named : List Named) × IsNext lists server named (node_named (node_item node.now)) graph.old places.old }
    ensures { (lists : Lists) (server : ℕ) (named : List Named) → IsNext lists server named (node_named (node_item node.now)) graph.old places.old →
        OnOk result (Stands (named ++ node_named (node_item node.now) ∷ []) graph.new places.new) }
{
    let dir = node_at(places, parent_of(node.path));
    let name = last_name(node.path);
    let made = graph.make(dir, name, node.kind, node.rights, node.bytes)?;
    places.insert(node.path, made)?;
    Ok(())
}

// Makes the node with this index, where it is the server's.
fn add_node<'a>(
    start: &'a Start,
    server: u32,
    item: u32,
    graph: &mut Graph,
    places: &mut Places<'a>,
) -> Result<(), NoMemory>
    requires accepted { AreAccepted start.now }
    requires there { server < length start.now.servers }
    requires within { item < length start.now.nodes }
    requires stand { Stands (nodes_among start.now server item) graph.old places.old }
    ensures { OnOk result (Stands (nodes_among start.now server (item + 1)) graph.new places.new) }
{
    let node = start.node_at(item);
    if node.server != server {
        return Ok(());
    }
    add(&node, graph, places)
}

// Makes the mount with this index, where it is in the server's tree.
fn add_mount<'a>(
    start: &'a Start,
    server: u32,
    item: u32,
    graph: &mut Graph,
    places: &mut Places<'a>,
) -> Result<(), NoMemory>
    requires accepted { AreAccepted start.now }
    requires there { server < length start.now.servers }
    requires within { item < length start.now.mounts }
    requires stand { Stands (named_with start.now server item) graph.old places.old }
    ensures { OnOk result (Stands (named_with start.now server (item + 1)) graph.new places.new) }
{
    let mount = start.mount_at(item);
    if mount.server != server {
        return Ok(());
    }
    let node = StartNode {
        server,
        path: mount.path,
        kind: NodeKind::Mount(item),
        rights: mount.rights,
        bytes: &[],
    };
    add(&node, graph, places)
}

/// Makes all nodes of a server of a start, which keeps the rules of a tree.
pub(crate) fn add_nodes<'a>(
    start: &'a Start,
    server: u32,
    graph: &mut Graph,
    places: &mut Places<'a>,
) -> Result<(), NoMemory>
    requires there { server < length start.now.servers }
    requires stand { Stands [] graph.old places.old }
    ensures accepted { AreAccepted start.now }
    ensures stand { OnOk result (Stands (nodes_among start.now server (length start.now.nodes)) graph.new places.new) }
{
    for item in 0..start.nodes() {
        add_node(start, server, item, graph, places)?;
    }
    Ok(())
}

/// Makes all mounts in the tree of a server, behind its nodes.
pub(crate) fn add_mounts<'a>(
    start: &'a Start,
    server: u32,
    graph: &mut Graph,
    places: &mut Places<'a>,
) -> Result<(), NoMemory>
    requires accepted { AreAccepted start.now }
    requires there { server < length start.now.servers }
    requires stand { Stands (nodes_among start.now server (length start.now.nodes)) graph.old places.old }
    ensures { OnOk result (Stands (named_of start.now server) graph.new places.new) }
{
    for item in 0..start.mounts() {
        add_mount(start, server, item, graph, places)?;
    }
    Ok(())
}
