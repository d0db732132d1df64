//! How a file is written over, cut and filled up.

ghost use Rattle.std.specs.Prelude.{◌≡◌, Some};
ghost use Rattle.node_graph.specs.declared.nodes.NodeKind.TheVariants.{File};
ghost use Rattle.node_graph.specs.Graph.{KeepsNames, Names, SameHolds, bytes_at, kind_at};
ghost use Rattle.node_graph.specs.Graph.{number_of, resize_refusal, resized, write_change};
ghost use Rattle.node_graph.specs.Tree.{fill};
ghost use Rattle.conn_rules.specs.FileRows.{writing_refusal};
ghost use Rattle.conn_rules.specs.Refusals.{as_status};
ghost use Rattle.file_conn.specs.Filling.{Comes, filled_as};

use fidl_names::{MAX_CHUNK, Status};
use node_graph::{Graph, GraphFault, NodeRef};

/// What came of filling a file anew.
#[derive(Clone, Copy)]
pub(crate) enum Filled {
    Done,
    /// It is refused, and nothing was done.
    Refused(Status),
    /// Memory is wanting, and nothing was done.
    NoMemory,
}

/// Writes the bytes over the file's from an offset on. Without bytes nothing is done, which takes
/// no memory.
pub(crate) fn overwrite(graph: &mut Graph, node: NodeRef, offset: u64, bytes: &[u8]) -> Filled
    requires named { Names graph.old node }
    requires file { kind_at graph.old (number_of node) ≡ Some File }
    ensures comes { Comes result (writing_refusal offset bytes.now)
        (write_change (number_of node) (bytes_at graph.old (number_of node)) offset bytes.now)
        graph.old graph.new }
    ensures holds { SameHolds graph.old graph.new }
    ensures names { KeepsNames graph.old graph.new }
{
    if bytes.len() as u64 > MAX_CHUNK {
        return Filled::Refused(Status::OutOfRange);
    }
    if bytes.is_empty() {
        return Filled::Done;
    }
    come_of(graph.write_at(node, offset, bytes))
}

/// Cuts the file at a size, or fills it up to it with zeros.
pub(crate) fn resize(graph: &mut Graph, node: NodeRef, size: u64) -> Filled
    requires named { Names graph.old node }
    requires file { kind_at graph.old (number_of node) ≡ Some File }
    ensures comes { Comes result (as_status (resize_refusal size))
        (fill (number_of node) (resized (bytes_at graph.old (number_of node)) size))
        graph.old graph.new }
    ensures holds { SameHolds graph.old graph.new }
    ensures names { KeepsNames graph.old graph.new }
{
    come_of(graph.resize(node, size))
}

/// What the graph's answer is to a file, for which there is but one refusal.
fn come_of(changed: Result<(), GraphFault>) -> Filled
    ensures { result ≡ filled_as changed }
{
    match changed {
        Ok(()) => Filled::Done,
        Err(GraphFault::FileBig) => Filled::Refused(Status::FileBig),
        Err(_) => Filled::NoMemory,
    }
}
