//! What no session shows of names: how many nodes are kept where names change, and that an empty name leads nowhere.

use fidl_names::MAX_NAME;
use io_rights::Rights;
use node_graph::{Graph, GraphFault, NodeKind};
use std::alloc::Global;
use std::test::Fail;
use test_rows::{Row, Table, all_hold};

// What is made or done in the root, in order | how | a name | a second one | how many names there are then | and nodes
const CHANGES: &[u8] = b"
a file                         | file      | f |   | 1 | 2
a service                      | service   | s |   | 2 | 3
a directory                    | directory | d |   | 3 | 4
an empty one                   | directory | e |   | 4 | 5
a file with a second name      | link      | f | g | 5 | 5
a file over its second name    | rename    | f | g | 4 | 5
a file over a service          | rename    | g | s | 3 | 4
a directory over an empty one  | rename    | d | e | 2 | 3
a second name                  | link      | s | f | 3 | 3
a file with two names          | unlink    | s |   | 2 | 3
a file with one name           | unlink    | f |   | 1 | 2
no name                        | not_found |   |   | 1 | 2
a directory without names      | unlink    | e |   | 0 | 1
";

#[derive(Drop)]
struct Changed {
    graph: Graph,
}

fn make(graph: &mut Graph, name: &[u8], kind: NodeKind) -> bool {
    if name.is_empty() || name.len() > MAX_NAME || graph.made() >= 1 << 63 {
        return false;
    }
    let root = graph.root();
    graph.create(root, name, kind, Rights::all()).is_ok()
}

// Whether a name that is there gets a second one, or that in its place.
fn goes_on(graph: &mut Graph, row: &Row<'_>, name: &[u8], second: &[u8]) -> bool {
    if second.is_empty() || second.len() > MAX_NAME {
        return false;
    }
    let root = graph.root();
    if row.is(1, "link") {
        graph.link(root, name, root, second).is_ok()
    } else {
        row.is(1, "rename") && graph.rename(root, name, root, second).is_ok()
    }
}

// Whether what is done goes as it says.
fn goes(graph: &mut Graph, row: &Row<'_>, name: &[u8], second: &[u8]) -> bool {
    let root = graph.root();
    if row.is(1, "file") {
        make(graph, name, NodeKind::File)
    } else if row.is(1, "service") {
        make(graph, name, NodeKind::Service)
    } else if row.is(1, "directory") {
        make(graph, name, NodeKind::Directory)
    } else if row.is(1, "unlink") {
        graph.unlink(root, name, false).is_ok()
    } else if row.is(1, "not_found") {
        graph.unlink(root, name, false) == Err(GraphFault::NotFound)
    } else {
        goes_on(graph, row, name, second)
    }
}

impl Table for Changed {
    fn holds(&mut self, _: Global, row: &Row<'_>) -> bool {
        match (row.cell(2), row.cell(3)) {
            (Some(name), Some(second)) => {
                goes(&mut self.graph, row, name.as_bytes(), second.as_bytes())
                    && row.number(4) == Some(u64::from(self.graph.names()))
                    && row.number(5) == Some(self.graph.kept() as u64)
            }
            _ => false,
        }
    }
}

#[test]
fn a_node_without_a_name_is_not_kept(rt: HostRuntime) -> Result<(), Fail> {
    let graph = Graph::new(rt.alloc())?;
    all_hold(rt.alloc(), CHANGES, &mut Changed { graph })
}
