ghost use Rattle.std.specs.Prelude.{◌≡◌, ◌⊎◌, ◌^◌, ◌<◌, ◌≤◌, ◌+◌, [], length, OnOk, OnErr, IfOk, Some, None};
ghost use Rattle.node_graph.specs.declared.nodes.NodeKind.TheVariants.{Directory, File};
ghost use Rattle.node_graph.specs.Tree.{make, name_in, new_row};
ghost use Rattle.node_graph.specs.Graph.{number_of, Names, kind_at, Leads, SameHolds, KeepsNames, Answers, create_refusal};

use crate::faults::GraphFault;
use crate::graph::Graph;
use crate::nodes::{Entry, NodeKind, NodeRef};
use crate::rows::Node;
use fidl_names::{MAX_FILE, MAX_NAME, MAX_NAMES, NoMemory};
use io_rights::Rights;

impl Graph {
    /// Makes a node with a name in the directory, through which the rights of the mask pass, where
    /// nothing refuses it. It has the next number and no holds, and a file has these bytes. Where
    /// memory is wanting nothing has changed.
    pub fn make(
        &mut self,
        dir: NodeRef,
        name: &[u8],
        kind: NodeKind,
        mask: Rights,
        bytes: &[u8],
    ) -> Result<NodeRef, NoMemory>
        requires named { Names self.old dir }
        requires directory { kind_at self.old (number_of dir) ≡ Some Directory }
        requires some { 1 ≤ length name.now }
        requires few { length name.now ≤ MAX_NAME }
        requires room { self.old.made < 2 ^ 63 }
        requires free { create_refusal self.old.edges (name_in (number_of dir) name.now) ≡ None }
        requires bytes { (kind ≡ File) ⊎ (bytes.now ≡ []) }
        requires short { length bytes.now ≤ MAX_FILE }
        ensures unchanged { OnErr result (self.new ≡ self.old) }
        ensures created { OnOk result (Leads self.old self.new (make (name_in (number_of dir) name.now) (record { kind = kind; bytes = bytes.now }) mask)) }
        ensures number { IfOk result (λ node. number_of node ≡ self.old.made + 1) }
        ensures kept { IfOk result (λ node. Names self.new node) }
        ensures kind { OnOk result (kind_at self.new (self.old.made + 1) ≡ Some kind) }
        ensures made { OnOk result (self.new.made ≡ self.old.made + 1) }
        ensures holds { SameHolds self.old self.new }
        ensures names { KeepsNames self.old self.new }
    {
        let bytes = Vec::from_slice(self.alloc, bytes)?;
        self.nodes.reserve(1)?;
        let child = NodeRef {
            place: self.nodes.vacant_key(),
            number: self.made + 1,
        };
        let entry = Entry {
            node: child,
            kind,
            mask,
        };
        self.edges.put(dir.number, name, entry)?;
        let row = Node::new(child.number, kind, bytes, 1, dir);
        self.nodes.insert_reserved(row);
        self.made = child.number;
        Ok(child)
    }

    /// Why no node can be made with this name in the directory, as `create` answers; `None` where one
    /// can be.
    pub fn create_fault(&self, dir: NodeRef, name: &[u8]) -> Option<GraphFault>
        requires { Names self.now dir }
        ensures { result ≡ create_refusal self.now.edges (name_in (number_of dir) name.now) }
    {
        if self.removed(dir) {
            return Some(GraphFault::Removed);
        }
        if self.edges.find(dir.number, name).is_some() {
            return Some(GraphFault::Exists);
        }
        if self.edges.len() >= MAX_NAMES {
            return Some(GraphFault::NoSpace);
        }
        None
    }
}
