ghost use Rattle.std.specs.Prelude.{◌≡◌, ℕ, ◌+◌, ◌≤◌, All, length, Some};
ghost use Rattle.std.specs.Option.{option_map};
ghost use Rattle.std.specs.Iterator.{YieldsFirstBy, item_count};
ghost use Rattle.node_graph.specs.declared.nodes.NodeKind.TheVariants.{Directory};
ghost use Rattle.node_graph.specs.Graph.{number_of, Names as NamesNode, StandsFor, kind_at};
ghost use Rattle.node_graph.specs.Tree.{Tree};
ghost use Rattle.dirents.specs.Listings.{listing, type_of};
ghost use Rattle.dirents.specs.Reading.{entry_of};
ghost use Rattle.dirents.specs.Steps.{HasEntryName, dot_at, name_at};

use crate::dirent::Dirent;
use crate::place::Place;
use fidl_names::MAX_NAMES;
use node_graph::{Graph, Names, NodeKind, NodeRef};
use std::marker::Model;

/// The name under which a directory lists itself.
pub(crate) const DOT: &[u8] = b".";

/// The entries of a directory that a listing has left, in order.
#[derive(Drop)]
pub struct Listing<'a> {
    // The directory's number, where its own entry is still to come.
    dot: Option<u64>,
    names: Names<'a>,
}

impl<'a> Model for Listing<'a> {
    ghost use Rattle.std.specs.Prelude.{List, map, ◌++◌, option_to_list};
    ghost use Rattle.std.specs.Option.{option_map};
    ghost use Rattle.dirents.specs.Listings.{Dirent, dot_entry, listed_entry};

    ghost Value = { List Dirent };

    ghost view = { λ listing. option_to_list (option_map dot_entry listing.dot) ++ map listed_entry listing.names };
}

impl<'a> Iterator for Listing<'a> {
    type Item = Dirent<'a>;

    ghost next_gives = { YieldsFirstBy entry_of (λ entries. entries) };

    ghost remaining = { item_count (λ entries. entries) };

    fn next(&mut self) -> Option<Dirent<'a>> {
        if let Some(ino) = self.dot.take() {
            return Some(Dirent {
                ino,
                kind: type_of(NodeKind::Directory),
                name: DOT,
            });
        }
        let view = self.names.next()?;
        Some(Dirent {
            ino: view.number,
            kind: type_of(view.kind),
            name: view.name,
        })
    }
}

/// The type of an entry that leads to a node of this kind.
fn type_of(kind: NodeKind) -> u8
    ensures { result ≡ type_of kind }
{
    match kind {
        NodeKind::Directory | NodeKind::Mount(_) => 4,
        NodeKind::File => 8,
        NodeKind::Service => 16,
    }
}

/// The directory's number, where its own entry is behind the place.
fn dot_at(directory: u64, place: &Place) -> Option<u64>
    ensures { result ≡ dot_at directory place.now }
{
    match place {
        Place::Start => Some(directory),
        Place::AfterDot | Place::After(_) => None,
    }
}

/// The name behind which the names are.
fn name_at(place: &Place) -> Option<&[u8]>
    ensures { option_map (λ name. name.now) result ≡ name_at place.now }
{
    match place {
        Place::Start | Place::AfterDot => None,
        Place::After(name) => Some(name.as_bytes()),
    }
}

/// The entries of a directory from a place on.
pub fn list_from<'a>(graph: &'a Graph, dir: NodeRef, place: &Place) -> Listing<'a>
    requires named { NamesNode graph.now dir }
    requires directory { kind_at graph.now (number_of dir) ≡ Some Directory }
    ensures entries { (tree : Tree) → StandsFor graph.now tree → result ≡ listing tree (number_of dir) place.now }
    ensures named { All HasEntryName result }
    ensures few { length result ≤ MAX_NAMES + 1 }
{
    Listing {
        dot: dot_at(graph.number(dir), place),
        names: graph.names_after(dir, name_at(place)),
    }
}
