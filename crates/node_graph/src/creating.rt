// For users of this library who make a node and look for its refusals in one call. The servers here look for them
// before they make one.

ghost use Rattle.std.specs.Prelude.{◌≡◌, ◌^◌, ◌<◌, ◌≤◌, ◌+◌, length, OnOk, OnErr, IfOk, Some};
ghost use Rattle.node_graph.specs.declared.nodes.NodeKind.TheVariants.{Directory};
ghost use Rattle.node_graph.specs.Tree.{make, name_in, new_row};
ghost use Rattle.node_graph.specs.Graph.{number_of, Names, kind_at, Leads, SameHolds, KeepsNames, Answers, create_refusal};

use crate::faults::GraphFault;
use crate::graph::Graph;
use crate::nodes::{NodeKind, NodeRef};
use fidl_names::MAX_NAME;
use io_rights::Rights;

impl Graph {
    /// Makes a node with a name in the directory, through which the rights of the mask pass. It has
    /// the next number, no bytes and no holds. The first of these that holds is answered: `Removed`
    /// where no name leads to the directory any more, `Exists` where the name is there, `NoSpace`
    /// where there are 4,096 names. After these and `NoMemory` nothing has changed.
    pub fn create(
        &mut self,
        dir: NodeRef,
        name: &[u8],
        kind: NodeKind,
        mask: Rights,
    ) -> Result<NodeRef, GraphFault>
        requires named { Names self.old dir }
        requires directory { kind_at self.old (number_of dir) ≡ Some Directory }
        requires some { 1 ≤ length name.now }
        requires few { length name.now ≤ MAX_NAME }
        requires room { self.old.made < 2 ^ 63 }
        ensures answer { Answers result (create_refusal self.old.edges (name_in (number_of dir) name.now)) }
        ensures unchanged { OnErr result (self.new ≡ self.old) }
        ensures created { OnOk result (Leads self.old self.new (make (name_in (number_of dir) name.now) (new_row kind) mask)) }
        ensures number { IfOk result (λ node. number_of node ≡ self.old.made + 1) }
        ensures kept { IfOk result (λ node. Names self.new node) }
        ensures kind { OnOk result (kind_at self.new (self.old.made + 1) ≡ Some kind) }
        ensures made { OnOk result (self.new.made ≡ self.old.made + 1) }
        ensures holds { SameHolds self.old self.new }
        ensures names { KeepsNames self.old self.new }
    {
        if let Some(fault) = self.create_fault(dir, name) {
            return Err(fault);
        }
        Ok(self.make(dir, name, kind, mask, &[])?)
    }
}
