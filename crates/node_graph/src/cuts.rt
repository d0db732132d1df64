ghost use Rattle.std.specs.Prelude.{◌≡◌, ◌∷◌, [], ◌&&◌, ◌<◌, ◌-◌, ◌^◌, OnOk, OnErr, IfOk, IfSome, Some, None, if◌then◌else◌};
ghost use Rattle.slab.specs.Slab.{ContainsKey, get};
ghost use Rattle.fidl_names.specs.First.{cause_if, first_of};
ghost use Rattle.node_graph.specs.declared.nodes.NodeKind.TheVariants.{Directory};
ghost use Rattle.node_graph.specs.declared.faults.GraphFault.TheVariants as fault;
ghost use Rattle.node_graph.specs.Tree.{Tree, cut, name_in};
ghost use Rattle.node_graph.specs.Refusals.{unlink_refusal, directory_behind, is_directory, is_mount, is_no_directory, has_names};
ghost use Rattle.node_graph.specs.Ends.{edges_of, HasNamesAsDirectory};
ghost use Rattle.node_graph.specs.Rows.{LosesName};
ghost use Rattle.node_graph.specs.Graph.{number_of, Names, kind_at, StandsFor, Leads, SameHolds, KeepsNames, Settles};

use crate::changes::forget;
use crate::edges::Edges;
use crate::faults::GraphFault;
use crate::graph::Graph;
use crate::nodes::{NodeKind, NodeRef};
use crate::rows::Node;
use slab::Slab;

impl Graph {
    /// Takes a name out of the directory, and answers the number of the directory that went with it,
    /// if it led to one. The first of these that holds is answered: `NotFound` where there is no such
    /// name, `Unsupported` where it leads to a mount, `NotDir` where it has to lead to a directory and
    /// doesn't, `NotEmpty` where it leads to a directory with names. Then nothing has changed. It takes
    /// no memory. A node that has no name and no hold then is kept no more.
    pub fn unlink(
        &mut self,
        dir: NodeRef,
        name: &[u8],
        must_be_dir: bool,
    ) -> Result<Option<u64>, GraphFault>
        requires named { Names self.old dir }
        requires directory { kind_at self.old (number_of dir) ≡ Some Directory }
        ensures answer { (tree : Tree) → StandsFor self.old tree → Settles result (unlink_refusal tree (name_in (number_of dir) name.now) must_be_dir) }
        ensures unchanged { OnErr result (self.new ≡ self.old) }
        ensures unlinked { OnOk result (Leads self.old self.new (cut (name_in (number_of dir) name.now))) }
        ensures removed { IfOk result (λ gone. (tree : Tree) → StandsFor self.old tree → gone ≡ directory_behind tree (name_in (number_of dir) name.now)) }
        ensures made { self.new.made ≡ self.old.made }
        ensures holds { SameHolds self.old self.new }
        ensures names { KeepsNames self.old self.new }
    {
        let Some(to) = self.edges.find(dir.number, name) else {
            return Err(GraphFault::NotFound);
        };
        let node = to.node;
        let kind = to.kind;
        if let Some(fault) = unlink_fault(&self.edges, node, kind, must_be_dir) {
            return Err(fault);
        }
        self.edges.cut(dir.number, name);
        lose_name(&mut self.nodes, node.place);
        Ok(directory_of(node, kind))
    }
}

// Why the name of this node isn't taken out.
fn unlink_fault(
    edges: &Edges,
    node: NodeRef,
    kind: NodeKind,
    must_be_dir: bool,
) -> Option<GraphFault>
    requires number { node.number < 2 ^ 64 - 1 }
    requires kind { HasNamesAsDirectory edges.now node kind }
    ensures { result ≡ first_of (cause_if (is_mount kind) fault.Unsupported ∷ cause_if (must_be_dir && is_no_directory kind) fault.NotDir ∷ cause_if (has_names (edges_of edges.now) node.number) fault.NotEmpty ∷ []) }
{
    if kind.is_mount() {
        return Some(GraphFault::Unsupported);
    }
    if must_be_dir && !kind.is_directory() {
        return Some(GraphFault::NotDir);
    }
    if edges.has_names(node, kind) {
        return Some(GraphFault::NotEmpty);
    }
    None
}

// The number of the node, if it is a directory.
pub fn directory_of(node: NodeRef, kind: NodeKind) -> Option<u64>
    ensures { result ≡ (if is_directory kind then Some node.number else None) }
{
    if kind.is_directory() {
        Some(node.number)
    } else {
        None
    }
}

// One name less leads to the node at this place.
pub fn lose_name(nodes: &mut Slab<Node>, place: usize)
    requires present { ContainsKey nodes.old place }
    requires linked { IfSome (get nodes.old place) (λ cell. 0 < cell.links) }
    ensures { LosesName nodes.old nodes.new place }
{
    let row = &mut nodes[place];
    row.unlink();
    forget(nodes, place);
}
