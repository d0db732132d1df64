//! The attributes of a node.

ghost use Rattle.std.specs.Prelude.{◌≡◌, ◌<◌, ◌==◌, Some};
ghost use Rattle.std.specs.Int.{bit_at};
ghost use Rattle.node_graph.specs.Graph.{Names, StandsFor, number_of, kind_at, bytes_at};
ghost use Rattle.node_graph.specs.Tree.{Tree, link_count};
ghost use Rattle.conn_rules.specs.Nodes.{attributes_of, protocols_of, abilities_of, size_of_kind};
ghost use Rattle.conn_rules.specs.Nodes.{where_asked};

use io_messages::Attributes;
use node_graph::{Graph, NodeKind, NodeRef};

/// The attributes of a node that a query asks for, by its bits from bit 0 on: the protocols, the
/// operations that can be of use, a file's size, no storage size, the number of names, the id.
#[tactic(auto, unfolding(crate::specs::Nodes::attributes_of), using(crate::proofs::KeptRows::kept_rows))]
pub(crate) fn attributes(graph: &Graph, node: NodeRef, query: u64) -> Attributes
    requires kept { Names graph.now node }
    ensures value { (tree : Tree) → StandsFor graph.now tree →
        result ≡ attributes_of tree (number_of node) query }
{
    let kind = graph.kind(node);
    Attributes {
        protocols: where_asked(query, 0, protocols_of(kind)),
        abilities: where_asked(query, 1, abilities_of(kind)),
        content_size: where_asked(query, 2, content_size(graph, node, kind)),
        link_count: links_where_asked(query, graph, node),
        id: where_asked(query, 5, graph.number(node)),
    }
}

/// The value of an attribute, where its bit is in the query.
fn where_asked(query: u64, bit: u32, value: u64) -> Option<u64>
    requires { bit < 64 }
    ensures { result ≡ where_asked query bit value }
{
    if is_asked(query, bit) {
        Some(value)
    } else {
        None
    }
}

fn is_asked(query: u64, bit: u32) -> bool
    requires { bit < 64 }
    ensures { result ≡ (bit_at query bit == 1) }
{
    query >> bit & 1 == 1
}

/// How many names lead to the node. They are counted only where they are asked for.
fn links_where_asked(query: u64, graph: &Graph, node: NodeRef) -> Option<u64>
    requires { Names graph.now node }
    ensures { result ≡ where_asked query 4 (link_count graph.now.edges (number_of node)) }
{
    if is_asked(query, 4) {
        Some(u64::from(graph.links(node)))
    } else {
        None
    }
}

/// A file's size; 0 of any other node.
fn content_size(graph: &Graph, node: NodeRef, kind: NodeKind) -> u64
    requires kept { Names graph.now node }
    requires kind { kind_at graph.now (number_of node) ≡ Some kind }
    ensures { result ≡ size_of_kind kind (bytes_at graph.now (number_of node)) }
{
    match kind {
        NodeKind::File => graph.bytes(node).len() as u64,
        NodeKind::Directory | NodeKind::Service | NodeKind::Mount(_) => 0,
    }
}

/// The protocols of a kind of node, as bits.
fn protocols_of(kind: NodeKind) -> u64
    ensures { result ≡ protocols_of kind }
{
    match kind {
        NodeKind::Directory => 2,
        NodeKind::File => 4,
        NodeKind::Service => 1,
        NodeKind::Mount(_) => 0,
    }
}

/// The operations that can be of use on a kind of node, as bits.
fn abilities_of(kind: NodeKind) -> u64
    ensures { result ≡ abilities_of kind }
{
    match kind {
        NodeKind::Directory => 0x1d0,
        NodeKind::File => 0x16,
        NodeKind::Service => 0x11,
        NodeKind::Mount(_) => 0,
    }
}
