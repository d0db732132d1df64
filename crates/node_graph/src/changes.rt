ghost use Rattle.std.specs.Prelude.{◌≡◌, ◌≢◌, ◌^◌, ◌<◌, ◌≤◌, ◌+◌, ◌-◌, nat_le, nat_lt, length, OnOk, OnErr, IfErr, Some};
ghost use Rattle.node_graph.specs.declared.nodes.NodeKind.TheVariants.{File};
ghost use Rattle.node_graph.specs.declared.faults.GraphFault.TheVariants as fault;
ghost use Rattle.slab.specs.Slab.{ContainsKey};
ghost use Rattle.node_graph.specs.Tree.{stay, fill};
ghost use Rattle.node_graph.specs.Rows.{Forgets};
ghost use Rattle.node_graph.specs.Graph.{number_of, Names, kind_at, bytes_at, holds_at, Leads, SameHolds, HoldsNow, KeepsNames, Answers, write_refusal, write_change, resize_refusal, resized};

use crate::faults::GraphFault;
use crate::graph::Graph;
use crate::nodes::NodeRef;
use crate::rows::Node;
use fidl_names::MAX_FILE;
use slab::Slab;

impl Graph {
    /// One more hold on the node, so that it is kept though no name leads to it.
    pub fn hold(&mut self, node: NodeRef)
        requires named { Names self.old node }
        requires few { holds_at self.old (number_of node) < 2 ^ 32 - 1 }
        ensures held { HoldsNow self.old self.new (number_of node) (holds_at self.old (number_of node) + 1) }
        ensures tree { Leads self.old self.new stay }
        ensures edges { self.new.edges ≡ self.old.edges }
        ensures made { self.new.made ≡ self.old.made }
        ensures names { KeepsNames self.old self.new }
    {
        let row = &mut self.nodes[node.place];
        row.hold();
    }

    /// One hold less. A node that is then neither the root nor linked nor held is kept no more.
    pub fn release(&mut self, node: NodeRef)
        requires named { Names self.old node }
        requires held { 0 < holds_at self.old (number_of node) }
        ensures released { HoldsNow self.old self.new (number_of node) (holds_at self.old (number_of node) - 1) }
        ensures tree { Leads self.old self.new stay }
        ensures edges { self.new.edges ≡ self.old.edges }
        ensures made { self.new.made ≡ self.old.made }
        ensures names { KeepsNames self.old self.new }
    {
        let row = &mut self.nodes[node.place];
        row.release();
        forget(&mut self.nodes, node.place);
    }

    /// Writes the bytes over the file's from an offset on; a gap before them is filled with zeros.
    /// A write of no bytes changes nothing, whatever the offset. `FileBig` exactly where the end of
    /// one or more bytes would be past 65,536. Nothing is changed where it is refused.
    pub fn write_at(&mut self, node: NodeRef, offset: u64, bytes: &[u8]) -> Result<(), GraphFault>
        requires named { Names self.old node }
        requires file { kind_at self.old (number_of node) ≡ Some File }
        ensures answer { Answers result (write_refusal offset bytes.now) }
        ensures unchanged { OnErr result (self.new ≡ self.old) }
        ensures written { OnOk result (Leads self.old self.new (write_change (number_of node) (bytes_at self.old (number_of node)) offset bytes.now)) }
        ensures made { self.new.made ≡ self.old.made }
        ensures holds { SameHolds self.old self.new }
        ensures names { KeepsNames self.old self.new }
    {
        if bytes.is_empty() {
            return Ok(());
        }
        if !ends_within(offset, bytes.len()) {
            return Err(GraphFault::FileBig);
        }
        let row = &mut self.nodes[node.place];
        row.write(offset as usize, bytes)?;
        Ok(())
    }

    /// Cuts the file at this length, or fills it up to it with zeros. `FileBig` exactly where the
    /// length is over 65,536. Up to the present length it takes no memory.
    pub fn resize(&mut self, node: NodeRef, size: u64) -> Result<(), GraphFault>
        requires named { Names self.old node }
        requires file { kind_at self.old (number_of node) ≡ Some File }
        ensures answer { Answers result (resize_refusal size) }
        ensures unchanged { OnErr result (self.new ≡ self.old) }
        ensures resized { OnOk result (Leads self.old self.new (fill (number_of node) (resized (bytes_at self.old (number_of node)) size))) }
        ensures shorter { size ≤ length (bytes_at self.old (number_of node)) → IfErr result (λ given. given ≡ fault.FileBig) }
        ensures made { self.new.made ≡ self.old.made }
        ensures holds { SameHolds self.old self.new }
        ensures names { KeepsNames self.old self.new }
    {
        if is_too_long(size) {
            return Err(GraphFault::FileBig);
        }
        let row = &mut self.nodes[node.place];
        row.resize(size as usize)?;
        Ok(())
    }
}

// Whether no file has that length.
fn is_too_long(size: u64) -> bool
    ensures { result ≡ nat_lt MAX_FILE size }
{
    size > MAX_FILE as u64
}

// Whether so many bytes from the offset on end within the longest file.
fn ends_within(offset: u64, count: usize) -> bool
    ensures { result ≡ nat_le (offset + count) MAX_FILE }
{
    count <= MAX_FILE && offset <= (MAX_FILE - count) as u64
}

// The node is kept only where it is the root, linked or held. Its place may then be used again.
pub fn forget(nodes: &mut Slab<Node>, place: usize)
    requires { ContainsKey nodes.old place }
    ensures { Forgets nodes.old nodes.new place }
{
    if !nodes[place].is_needed() {
        nodes.remove(place);
    }
}
