ghost use Rattle.std.specs.Prelude.{◌≡◌, ℕ, true, is_some, IfOk, IfSome, Some, count_by};
ghost use Rattle.std.specs.Option.{option_map};
ghost use Rattle.std.specs.FinMap as finite;
ghost use Rattle.node_graph.specs.declared.nodes.NodeKind.TheVariants.{Directory, File};
ghost use Rattle.node_graph.specs.Tree.{Tree, bare_tree, link_count, is_removed, name_in};
ghost use Rattle.node_graph.specs.Ends.{end_of};
ghost use Rattle.node_graph.specs.Graph.{number_of, Names, kind_at, bytes_at, holds_at, is_kept, seat_of, StandsFor, numbers_to};

use crate::edges::Edges;
use crate::nodes::{Entry, NodeKind, NodeRef};
use crate::rows::Node;
use fidl_names::NoMemory;
use slab::Slab;
use std::alloc::Global;
use std::marker::Model;

/// One server's tree.
pub struct Graph {
    pub(crate) nodes: Slab<Node>,
    pub(crate) edges: Edges,
    pub(crate) made: u64,
    pub(crate) alloc: Global,
}

// Who owns a tree lets go of it by one call, and not of each part by another.
impl Drop for Graph {
    fn drop(self) {
        let Graph {
            nodes: _nodes,
            edges: _edges,
            made: _made,
            alloc: _alloc,
        } = self;
    }
}

impl Model for Graph {
    ghost use Rattle.node_graph.specs.Graph.{Kept};
    ghost use Rattle.node_graph.specs.Codes.{kept_code};
    ghost use Rattle.node_graph.specs.Rows.{kept_of, AreRows};

    ghost Value = { Kept };

    ghost coded = { kept_code };

    ghost view = { λ graph. kept_of graph.nodes graph.edges graph.made };

    ghost invariant = { λ graph. AreRows graph.nodes graph.edges graph.made };
}

const ROOT: NodeRef = NodeRef {
    place: 0,
    number: 1,
};

impl Graph {
    /// A tree of the root alone, a directory with number 1. It grows by this allocator.
    pub fn new(alloc: Global) -> Result<Graph, NoMemory>
        ensures stands { IfOk result (λ graph. StandsFor graph bare_tree) }
        ensures made { IfOk result (λ graph. graph.made ≡ 1) }
        ensures edges { IfOk result (λ graph. graph.edges ≡ finite.empty) }
        ensures holds { IfOk result (λ graph. (number : ℕ) → holds_at graph number ≡ 0) }
    {
        let mut nodes = Slab::new(alloc);
        nodes.reserve(1)?;
        let root = Node::new(1, NodeKind::Directory, Vec::new(alloc), 0, ROOT);
        nodes.insert_reserved(root);
        Ok(Graph {
            nodes,
            edges: Edges::new(alloc),
            made: 1,
            alloc,
        })
    }

    /// The root of the tree. What the graph keeps is always what some tree has.
    pub fn root(&self) -> NodeRef
        ensures stands { (tree : Tree) × StandsFor self.now tree }
        ensures named { Names self.now result }
        ensures number { number_of result ≡ 1 }
        ensures kind { kind_at self.now 1 ≡ Some Directory }
    {
        let _rows = &self.nodes;
        ROOT
    }

    /// The node's number: one more than the count of nodes that were made before it.
    pub fn number(&self, node: NodeRef) -> u64
        requires { Names self.now node }
        ensures { result ≡ number_of node }
    {
        node.number
    }

    /// What the node is.
    pub fn kind(&self, node: NodeRef) -> NodeKind
        requires { Names self.now node }
        ensures { kind_at self.now (number_of node) ≡ Some result }
    {
        self.row(node).kind()
    }

    /// How many nodes were made so far, the root included.
    pub fn made(&self) -> u64
        ensures { result ≡ self.now.made }
    {
        self.made
    }

    /// How many names lead to the node.
    pub fn links(&self, node: NodeRef) -> u32
        requires { Names self.now node }
        ensures { result ≡ link_count self.now.edges (number_of node) }
    {
        self.row(node).links()
    }

    /// Whether the node isn't the root and no name leads to it. Such a directory is empty for good.
    pub fn removed(&self, node: NodeRef) -> bool
        requires { Names self.now node }
        ensures { result ≡ is_removed self.now.edges (number_of node) }
    {
        node.number != 1 && self.row(node).links() == 0
    }

    /// How many names there are.
    pub fn names(&self) -> u32
        ensures { result ≡ finite.len self.now.edges }
    {
        self.edges.len() as u32
    }

    /// The file's bytes.
    pub fn bytes(&self, node: NodeRef) -> &[u8]
        requires named { Names self.now node }
        requires file { kind_at self.now (number_of node) ≡ Some File }
        ensures { result.now ≡ bytes_at self.now (number_of node) }
    {
        self.row(node).bytes()
    }

    /// What a name in a directory leads to; `None` exactly where there is no such name.
    pub fn lookup(&self, dir: NodeRef, name: &[u8]) -> Option<Entry>
        requires named { Names self.now dir }
        requires directory { kind_at self.now (number_of dir) ≡ Some Directory }
        ensures found { option_map end_of result ≡ finite.get self.now.edges (name_in (number_of dir) name.now) }
        ensures kept { IfSome result (λ entry. Names self.now entry.node) }
        ensures kind { IfSome result (λ entry. kind_at self.now (number_of entry.node) ≡ Some entry.kind) }
    {
        self.edges.find(dir.number, name)
    }

    /// How many nodes are the root, linked or held. These and no others are kept.
    pub fn kept(&self) -> usize
        ensures count { result ≡ count_by (is_kept self.now) (numbers_to self.now.made) }
        ensures seated { (number : ℕ) → is_some (seat_of self.now number) ≡ is_kept self.now number }
    {
        self.nodes.len()
    }

    // The node's row.
    pub(crate) fn row(&self, node: NodeRef) -> &Node
        requires { Names self.now node }
        ensures kind { kind_at self.now (number_of node) ≡ Some result.now.kind }
        ensures bytes { bytes_at self.now (number_of node) ≡ result.now.bytes }
        ensures holds { holds_at self.now (number_of node) ≡ result.now.holds }
        ensures links { result.now.links ≡ link_count self.now.edges (number_of node) }
    {
        &self.nodes[node.place]
    }
}
