ghost use Rattle.std.specs.Prelude.{◌≡◌, ◌∷◌, [], ◌≤◌, ◌<◌, ◌-◌, ◌^◌, length, OnOk, OnErr, IfSome, Some};
ghost use Rattle.std.specs.FinMap as finite;
ghost use Rattle.slab.specs.Slab.{ContainsKey, get};
ghost use Rattle.fidl_names.specs.First.{cause_if, first_of};
ghost use Rattle.node_graph.specs.declared.nodes.NodeKind.TheVariants.{Directory};
ghost use Rattle.node_graph.specs.declared.faults.GraphFault.TheVariants as fault;
ghost use Rattle.node_graph.specs.Tree.{Tree, name_in};
ghost use Rattle.node_graph.specs.Refusals.{is_directory, is_mount};
ghost use Rattle.node_graph.specs.Ends.{name_in};
ghost use Rattle.node_graph.specs.Rows.{GainsName};
ghost use Rattle.node_graph.specs.Graph.{number_of, Names, kind_at, StandsFor, LeadsBy, SameHolds, KeepsNames, Answers, link_refusal, link_change};

use crate::edges::Edges;
use crate::faults::GraphFault;
use crate::graph::Graph;
use crate::nodes::{Entry, NodeKind, NodeRef};
use crate::rows::Node;
use fidl_names::{MAX_NAME, NoMemory};
use slab::Slab;

impl Graph {
    /// Gives the node that a name leads to a second name in a directory, with the mask of the first.
    /// The first of these that holds is answered: `NotFound` where there is no such name,
    /// `Unsupported` where it leads to a mount and `NotFile` where it leads to a directory; then, of
    /// the second name, `Removed` where no name leads to its directory any more, `Exists` where it is
    /// there, `NoSpace` where there are 4,096 names. After these and `NoMemory` nothing has changed.
    pub fn link(
        &mut self,
        dir: NodeRef,
        src: &[u8],
        into: NodeRef,
        dst: &[u8],
    ) -> Result<(), GraphFault>
        requires named { Names self.old dir }
        requires directory { kind_at self.old (number_of dir) ≡ Some Directory }
        requires named_into { Names self.old into }
        requires directory_into { kind_at self.old (number_of into) ≡ Some Directory }
        requires some { 1 ≤ length dst.now }
        requires few { length dst.now ≤ MAX_NAME }
        ensures answer { (tree : Tree) → StandsFor self.old tree → Answers result (link_refusal tree (name_in (number_of dir) src.now) (name_in (number_of into) dst.now)) }
        ensures unchanged { OnErr result (self.new ≡ self.old) }
        ensures linked { OnOk result (LeadsBy self.old self.new (λ tree. link_change tree (name_in (number_of dir) src.now) (name_in (number_of into) dst.now))) }
        ensures made { self.new.made ≡ self.old.made }
        ensures holds { SameHolds self.old self.new }
        ensures names { KeepsNames self.old self.new }
    {
        let Some(from) = self.edges.find(dir.number, src) else {
            return Err(GraphFault::NotFound);
        };
        if let Some(fault) = link_fault(from.kind) {
            return Err(fault);
        }
        if let Some(fault) = self.create_fault(into, dst) {
            return Err(fault);
        }
        name_again(&mut self.edges, &mut self.nodes, into.number, dst, from)?;
        Ok(())
    }
}

// One name more leads to a node. Without memory for it nothing has changed.
fn name_again(
    edges: &mut Edges,
    nodes: &mut Slab<Node>,
    directory: u64,
    name: &[u8],
    to: Entry,
) -> Result<(), NoMemory>
    requires some { 1 ≤ length name.now }
    requires few { length name.now ≤ MAX_NAME }
    requires present { ContainsKey nodes.old to.node.place }
    requires links { IfSome (get nodes.old to.node.place) (λ cell. cell.links < 2 ^ 32 - 1) }
    ensures named { OnOk result (edges.new ≡ finite.insert edges.old (name_in directory name.now) to) }
    ensures linked { OnOk result (GainsName nodes.old nodes.new to.node.place) }
    ensures same_names { OnErr result (edges.new ≡ edges.old) }
    ensures same_nodes { OnErr result (nodes.new ≡ nodes.old) }
{
    let node = to.node;
    edges.put(directory, name, to)?;
    let row = &mut nodes[node.place];
    row.link();
    Ok(())
}

// Why a node of this kind gets no second name.
fn link_fault(kind: NodeKind) -> Option<GraphFault>
    ensures { result ≡ first_of (cause_if (is_mount kind) fault.Unsupported ∷ cause_if (is_directory kind) fault.NotFile ∷ []) }
{
    match kind {
        NodeKind::Mount(_) => Some(GraphFault::Unsupported),
        NodeKind::Directory => Some(GraphFault::NotFile),
        _ => None,
    }
}
