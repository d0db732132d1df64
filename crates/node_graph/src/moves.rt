ghost use Rattle.std.specs.Prelude.{◌≡◌, ◌∷◌, [], ◌&&◌, ◌≤◌, ◌<◌, ◌-◌, ◌^◌, ◌≢◌, true, not, length, OnOk, OnErr, IfOk, IfErr, IfSome, Some, None, if◌then◌else◌};
ghost use Rattle.std.specs.Option.{option_map, option_map_or, option_to_list};
ghost use Rattle.std.specs.FinMap as finite;
ghost use Rattle.slab.specs.Slab.{ContainsKey, get};
ghost use Rattle.fidl_names.specs.First.{cause_if, first_of};
ghost use Rattle.node_graph.specs.declared.nodes.NodeKind.TheVariants.{Directory};
ghost use Rattle.node_graph.specs.declared.faults.GraphFault.TheVariants as fault;
ghost use Rattle.node_graph.specs.Tree.{Tree, is_removed, name_in};
ghost use Rattle.node_graph.specs.Refusals.{is_directory, is_mount, is_no_directory, has_names, parents_of, lies_within, is_same_name, replaced_directory};
ghost use Rattle.node_graph.specs.Ends.{edges_of, HasNamesAsDirectory};
ghost use Rattle.node_graph.specs.Rows.{LosesName};
ghost use Rattle.node_graph.specs.Graph.{number_of, Names, kind_at, StandsFor, Leads, SameHolds, KeepsNames, Answers, rename_refusal, rename_change};

use crate::cuts::{directory_of, lose_name};
use crate::edges::Edges;
use crate::faults::GraphFault;
use crate::graph::Graph;
use crate::nodes::{Entry, NodeKind, NodeRef};
use crate::rows::Node;
use fidl_names::MAX_NAME;
use slab::Slab;

/// What a rename did.
#[derive(Clone, Copy)]
pub struct Moved {
    /// Whether anything changed. Nothing does where a name is to be what it is.
    pub changed: bool,
    /// The number of the directory that was replaced, if one was.
    pub replaced: Option<u64>,
}

impl Graph {
    /// Moves a name with its mask. What the new name led to before is replaced, which may be a further
    /// name of the same file; a name that is to be what it is stays. The first of these that holds is
    /// answered: `NotFound` where there is no such name, `Unsupported` where it leads to a mount,
    /// `Removed` where no name leads to the new directory any more, `Loop` where a directory would come
    /// to lie in itself; then, where the new name is another one and is there, `Unsupported` where it
    /// leads to a mount, `NotDir` where a directory would replace something else, `NotFile` where
    /// something else would replace a directory, `NotEmpty` where it leads to a directory with names.
    /// After these and `NoMemory` nothing has changed. A name that is to be what it is takes no memory.
    pub fn rename(
        &mut self,
        dir: NodeRef,
        src: &[u8],
        into: NodeRef,
        dst: &[u8],
    ) -> Result<Moved, GraphFault>
        requires named { Names self.old dir }
        requires directory { kind_at self.old (number_of dir) ≡ Some Directory }
        requires named_into { Names self.old into }
        requires directory_into { kind_at self.old (number_of into) ≡ Some Directory }
        requires some { 1 ≤ length dst.now }
        requires few { length dst.now ≤ MAX_NAME }
        ensures answer { (tree : Tree) → StandsFor self.old tree → Answers result (rename_refusal tree (name_in (number_of dir) src.now) (name_in (number_of into) dst.now)) }
        ensures unchanged { OnErr result (self.new ≡ self.old) }
        ensures renamed { OnOk result (Leads self.old self.new (rename_change (name_in (number_of dir) src.now) (name_in (number_of into) dst.now))) }
        ensures changed { IfOk result (λ moved. moved.changed ≡ not (is_same_name (name_in (number_of dir) src.now) (name_in (number_of into) dst.now))) }
        ensures replaced { IfOk result (λ moved. (tree : Tree) → StandsFor self.old tree → moved.replaced ≡ replaced_directory tree (name_in (number_of dir) src.now) (name_in (number_of into) dst.now)) }
        ensures same { is_same_name (name_in (number_of dir) src.now) (name_in (number_of into) dst.now) ≡ true → IfErr result (λ given. given ≢ fault.NoMemory) }
        ensures made { self.new.made ≡ self.old.made }
        ensures holds { SameHolds self.old self.new }
        ensures names { KeepsNames self.old self.new }
    {
        let Some(from) = self.edges.find(dir.number, src) else {
            return Err(GraphFault::NotFound);
        };
        let node = from.node;
        let kind = from.kind;
        if let Some(fault) = self.move_fault(node, kind, into) {
            return Err(fault);
        }
        if is_same_name(dir, src, into, dst) {
            return Ok(Moved {
                changed: false,
                replaced: None,
            });
        }
        let gone = self.edges.find(into.number, dst);
        if let Some(fault) = replace_fault(&self.edges, kind, &gone) {
            return Err(fault);
        }
        self.edges.shift(dir.number, src, into.number, dst, from)?;
        lose_replaced(&mut self.nodes, &gone);
        let row = &mut self.nodes[node.place];
        row.set_parent(into);
        Ok(moved_over(&gone))
    }

    // Why a node isn't moved into a directory, whatever its name there.
    fn move_fault(&self, node: NodeRef, kind: NodeKind, into: NodeRef) -> Option<GraphFault>
        requires named { Names self.now into }
        requires directory { kind_at self.now (number_of into) ≡ Some Directory }
        ensures { result ≡ first_of (cause_if (is_mount kind) fault.Unsupported ∷ cause_if (is_removed self.now.edges into.number) fault.Removed ∷ cause_if (is_directory kind && lies_within (finite.len self.now.edges) self.now.edges into.number node.number) fault.Loop ∷ []) }
    {
        if kind.is_mount() {
            return Some(GraphFault::Unsupported);
        }
        if self.removed(into) {
            return Some(GraphFault::Removed);
        }
        if self.makes_loop(node, kind, into) {
            return Some(GraphFault::Loop);
        }
        None
    }

    // Whether a directory would come to lie in itself.
    fn makes_loop(&self, node: NodeRef, kind: NodeKind, into: NodeRef) -> bool
        requires named { Names self.now into }
        requires directory { kind_at self.now (number_of into) ≡ Some Directory }
        ensures { result ≡ (is_directory kind && lies_within (finite.len self.now.edges) self.now.edges into.number node.number) }
    {
        kind.is_directory() && self.lies_within(into, node.number)
    }

    // Whether a directory is another one or below it.
    fn lies_within(&self, dir: NodeRef, above: u64) -> bool
        requires named { Names self.now dir }
        requires directory { kind_at self.now (number_of dir) ≡ Some Directory }
        ensures { result ≡ lies_within (finite.len self.now.edges) self.now.edges dir.number above }
    {
        let mut at = dir;
        for _ in 0..self.names() {
            if at.number == above {
                return true;
            }
            match self.parent(at) {
                Some(parent) => at = parent,
                None => return false,
            }
        }
        at.number == above
    }

    // The directory in which a directory has its name.
    fn parent(&self, dir: NodeRef) -> Option<NodeRef>
        requires named { Names self.now dir }
        requires directory { kind_at self.now (number_of dir) ≡ Some Directory }
        ensures up { parents_of self.now.edges dir.number ≡ option_to_list (option_map number_of result) }
        ensures named { IfSome result (λ up. Names self.now up) }
        ensures directory { IfSome result (λ up. kind_at self.now (number_of up) ≡ Some Directory) }
    {
        let row = &self.nodes[dir.place];
        if row.links() == 0 {
            None
        } else {
            Some(row.parent())
        }
    }
}

// One name less leads to the node that is replaced, if one is.
fn lose_replaced(nodes: &mut Slab<Node>, gone: &Option<Entry>)
    requires present { IfSome gone.now (λ to. ContainsKey nodes.old to.node.place) }
    requires linked { IfSome gone.now (λ to. IfSome (get nodes.old to.node.place) (λ cell. 0 < cell.links)) }
    ensures kept { gone.now ≡ None → nodes.new ≡ nodes.old }
    ensures loses { IfSome gone.now (λ to. LosesName nodes.old nodes.new to.node.place) }
{
    if let Some(to) = gone {
        lose_name(nodes, to.node.place);
    }
}

// What a rename did that replaced what this name led to, if it was there.
fn moved_over(gone: &Option<Entry>) -> Moved
    ensures { result ≡ record { changed = true; replaced = option_map_or (λ to. if is_directory to.kind then Some to.node.number else None) gone.now None } }
{
    let replaced = match gone {
        Some(to) => directory_of(to.node, to.kind),
        None => None,
    };
    Moved {
        changed: true,
        replaced,
    }
}

// Whether two names are one.
fn is_same_name(dir: NodeRef, src: &[u8], into: NodeRef, dst: &[u8]) -> bool
    ensures { result ≡ is_same_name (name_in (number_of dir) src.now) (name_in (number_of into) dst.now) }
{
    dir.number == into.number && src == dst
}

// Why a node of this kind doesn't take the place of what is there, if something is.
fn replace_fault(edges: &Edges, kind: NodeKind, gone: &Option<Entry>) -> Option<GraphFault>
    requires number { IfSome gone.now (λ to. to.node.number < 2 ^ 64 - 1) }
    requires kind { IfSome gone.now (λ to. HasNamesAsDirectory edges.now to.node to.kind) }
    ensures { result ≡ option_map_or (λ to. first_of (cause_if (is_mount to.kind) fault.Unsupported ∷ cause_if (is_directory kind && is_no_directory to.kind) fault.NotDir ∷ cause_if (is_no_directory kind && is_directory to.kind) fault.NotFile ∷ cause_if (has_names (edges_of edges.now) to.node.number) fault.NotEmpty ∷ [])) gone.now None }
{
    let Some(to) = gone else {
        return None;
    };
    if to.kind.is_mount() {
        return Some(GraphFault::Unsupported);
    }
    if kind.is_directory() && !to.kind.is_directory() {
        return Some(GraphFault::NotDir);
    }
    if !kind.is_directory() && to.kind.is_directory() {
        return Some(GraphFault::NotFile);
    }
    if edges.has_names(to.node, to.kind) {
        return Some(GraphFault::NotEmpty);
    }
    None
}
