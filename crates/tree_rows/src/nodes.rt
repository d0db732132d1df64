//! Nodes that are kept as long as they are held, and names of any length.
ghost use Rattle.std.specs.Prelude.{◌≡◌, ◌≤◌, ◌<◌, ◌^◌, ℕ, Some, length, IfOk};
ghost use Rattle.node_graph.specs.declared.nodes.NodeKind.TheVariants.{File};
ghost use Rattle.node_graph.specs.Graph.{number_of, Names, kind_at, holds_at, SameHolds};

use fidl_names::MAX_NAME;
use io_rights::{Operation, Rights};
use node_graph::{
    Graph, GraphFault, NameBuf, NodeKind, NodeRef, changes_keep_trees_sound,
    climbing_finds_what_is_above,
};
use std::process::Abort;
use std::test::Fail;

// A name in the root.
fn make(
    rt: &impl Abort,
    graph: &mut Graph,
    name: &[u8],
    kind: NodeKind,
) -> Result<NodeRef, GraphFault>
    ensures named { IfOk result (λ node. Names graph.new node) }
    ensures kind { IfOk result (λ node. kind_at graph.new (number_of node) ≡ Some kind) }
    ensures holds { SameHolds graph.old graph.new }
{
    assert!(rt; !name.is_empty() && name.len() <= MAX_NAME && graph.made() < 1 << 63);
    let root = graph.root();
    graph.create(root, name, kind, Rights::of(Operation::ReadBytes))
}

// Whether so many nodes are kept, so many were made, and there are so many names.
fn is_counted(graph: &Graph, kept: usize, made: u64, names: u32) -> bool {
    graph.kept() == kept && graph.made() == made && graph.names() == names
}

fn count_and_number(rt: &impl Abort, graph: &mut Graph) -> Result<(), GraphFault>
    requires idle { (number : ℕ) → holds_at graph.old number ≡ 0 }
{
    assert!(rt; is_counted(graph, 1, 1, 0));
    let node = make(rt, graph, b"f", NodeKind::File)?;
    assert!(rt; graph.number(node) == 2 && graph.links(node) == 1 && !graph.removed(node));
    assert!(rt; is_counted(graph, 2, 2, 1));
    graph.hold(node);
    let root = graph.root();
    graph.unlink(root, b"f", false)?;
    assert!(rt; graph.links(node) == 0 && is_counted(graph, 2, 2, 0));
    graph.release(node);
    assert!(rt; is_counted(graph, 1, 2, 0));
    Ok(())
}

// Whether the calls that look for a name in the root know it, or find none.
fn is_looked_for(graph: &mut Graph, name: &[u8], known: bool) -> bool {
    let root = graph.root();
    let found = graph.lookup(root, name).is_some();
    let behind = graph.names_after(root, Some(name)).next().is_some();
    let unlinked = graph.unlink(root, name, true);
    let root = graph.root();
    let linked = graph.link(root, name, root, b"o2").is_ok();
    let root = graph.root();
    let moved = graph.rename(root, name, root, b"o1").is_ok();
    let fault = if known {
        GraphFault::NotDir
    } else {
        GraphFault::NotFound
    };
    found == known && unlinked == Err(fault) && linked == known && moved == known && behind != known
}

fn look_for_names(rt: &impl Abort, graph: &mut Graph) -> Result<(), GraphFault> {
    let longest = [b'n'; MAX_NAME];
    let longer = [b'n'; MAX_NAME + 1];
    make(rt, graph, &longest, NodeKind::File)?;
    assert!(rt; is_looked_for(graph, &longest, true));
    assert!(rt; is_looked_for(graph, &longer, false));
    assert!(rt; is_looked_for(graph, b"n", false));
    assert!(rt; is_looked_for(graph, b"", false));
    Ok(())
}

#[test]
fn nodes_are_kept_and_names_looked_for(rt: HostRuntime) -> Result<(), Fail> {
    let mut graph = Graph::new(rt.alloc())?;
    count_and_number(&rt, &mut graph)?;
    look_for_names(&rt, &mut graph)?;
    Ok(())
}

#[test]
fn laws_are_called() {
    changes_keep_trees_sound();
    climbing_finds_what_is_above();
}

#[test]
fn a_name_is_kept_whole(rt: HostRuntime) {
    let longest = [b'n'; MAX_NAME];
    assert!(rt; NameBuf::new(&longest).as_bytes() == longest.as_slice());
    assert!(rt; NameBuf::new(b"\0").as_bytes() == b"\0".as_slice());
}
