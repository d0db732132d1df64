ghost use Rattle.std.specs.Prelude.{◌≡◌, ◌≤◌, map, length, All, Some, IfSome};
ghost use Rattle.std.specs.Option.{option_map};
ghost use Rattle.std.specs.Iterator.{YieldsFirstBy, item_count};
ghost use Rattle.node_graph.specs.declared.nodes.NodeKind.TheVariants.{Directory};
ghost use Rattle.node_graph.specs.Graph.{number_of, Names as NamesNode, kind_at, listed_after};
ghost use Rattle.node_graph.specs.Listing.{listed};
ghost use Rattle.node_graph.specs.Tree.{HasNameLength};

use crate::graph::Graph;
use crate::keys::EdgeName;
use crate::nodes::{Entry, NodeKind, NodeRef};
use fidl_names::{MAX_NAME, MAX_NAMES};
use std::collections::btree_map::Range;
use std::marker::Model;

/// A name of a directory, with the number and the kind of the node that it leads to.
#[derive(Clone, Copy)]
pub struct NameView<'a> {
    pub name: &'a [u8],
    pub number: u64,
    pub kind: NodeKind,
}

/// The names of a directory that a listing has left, each of 1 to 255 bytes, in the order of their bytes.
#[derive(Drop)]
pub struct Names<'a> {
    names: Range<'a, EdgeName, Entry>,
}

impl<'a> Model for Names<'a> {
    ghost use Rattle.std.specs.Prelude.{List, map};
    ghost use Rattle.node_graph.specs.Graph.{Listed};

    ghost Value = { List Listed };

    ghost use Rattle.std.specs.Prelude.{All};
    ghost use Rattle.node_graph.specs.Ends.{HasName, listed_of};

    ghost view = { λ listing. map listed_of listing.names };

    ghost invariant = { λ listing. All HasName listing.names };
}

impl<'a> Iterator for Names<'a> {
    type Item = NameView<'a>;

    ghost next_gives = { λ names next rest. YieldsFirstBy listed (λ names. names) names next rest
        × IfSome next (λ view. HasNameLength view.name.now) };

    ghost remaining = { item_count (λ names. names) };

    fn next(&mut self) -> Option<NameView<'a>> {
        match self.names.next() {
            Some((key, to)) => Some(NameView {
                name: key.name(),
                number: to.node.number,
                kind: to.kind,
            }),
            None => None,
        }
    }
}

impl Graph {
    /// The names of a directory after a place in its listing, or all of them, in the order of their
    /// bytes. The place need not be a name of the directory.
    pub fn names_after(&self, dir: NodeRef, after: Option<&[u8]>) -> Names<'_>
        requires named { NamesNode self.now dir }
        requires directory { kind_at self.now (number_of dir) ≡ Some Directory }
        ensures names { map (λ view. (view.name, view.number)) result ≡ listed_after self.now.edges (number_of dir) (option_map (λ name. name.now) after.entry) }
        ensures kinds { All (λ view. kind_at self.now view.number ≡ Some view.kind) result }
        ensures named { All (λ view. (1 ≤ length view.name) × (length view.name ≤ MAX_NAME)) result }
        ensures few { length result ≤ MAX_NAMES }
    {
        Names {
            names: self.edges.after(dir.number, after),
        }
    }
}
