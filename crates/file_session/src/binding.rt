//! The tree of one file, and the connection to it.

ghost use Rattle.std.specs.Prelude.{◌≤◌, ◌≡◌, length, IfOk};
ghost use Rattle.conn_rules.specs.Births.{fresh};
ghost use Rattle.file_session.specs.Bound.{HasFile, IsBoundTo};

use conn_rules::Birth;
use fidl_names::{MAX_FILE, NoMemory};
use file_conn::FileConn;
use io_messages::Protocol;
use io_rights::{Operation, Rights};
use node_graph::{Graph, NodeKind, NodeRef};
use std::alloc::Global;

/// The file's name in the root.
const NAME: &[u8; 4] = b"file";

/// A graph with this file alone, and a connection to it that may read.
pub fn bind(alloc: Global, file: &[u8]) -> Result<(Graph, FileConn), NoMemory>
    requires { length file.now ≤ MAX_FILE }
    ensures bound { IfOk result (λ made. IsBoundTo file.now made.0 made.1) }
    ensures fresh { IfOk result (λ made. made.1.position ≡ fresh) }
{
    let (graph, node) = make_file(alloc, file)?;
    let birth = Birth {
        node,
        rights: Rights::of(Operation::ReadBytes),
        protocol: Protocol::File,
        append: false,
        announce: false,
    };
    Ok((graph, FileConn::new(birth)))
}

/// A graph with this file alone, which is held once.
fn make_file(alloc: Global, file: &[u8]) -> Result<(Graph, NodeRef), NoMemory>
    requires short { length file.now ≤ MAX_FILE }
    ensures { IfOk result (λ made. HasFile file.now 1 made.0 made.1) }
{
    let mut graph = Graph::new(alloc)?;
    let root = graph.root();
    let mask = Rights::of(Operation::ReadBytes);
    let node = graph.make(root, NAME, NodeKind::File, mask, file)?;
    graph.hold(node);
    Ok((graph, node))
}
