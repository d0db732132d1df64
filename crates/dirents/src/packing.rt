ghost use Rattle.std.specs.Prelude.{◌≡◌, ℕ, ◌+◌, ◌*◌, ◌≤◌, nat_le, List, [], ◌∷◌, ◌++◌, IsTrue, IsFalse, length, Some};
ghost use Rattle.node_graph.specs.declared.nodes.NodeKind.TheVariants.{Directory};
ghost use Rattle.node_graph.specs.Graph.{number_of, Names as NamesNode, kind_at};
ghost use Rattle.dirents.specs.Listings.{Dirent as Entry, dirent_size, place_after};
ghost use Rattle.dirents.specs.Packing.{Appends, Tells};
ghost use Rattle.dirents.specs.Reading.{entry_of};
ghost use Rattle.dirents.specs.Steps.{HasName, HasTaken};

use crate::dirent::Dirent;
use crate::listing::list_from;
use crate::place::{Place, place_behind};
use fidl_names::{MAX_BYTES, MAX_NAME, MAX_NAMES};
use fidl_wire::Out;
use node_graph::{Graph, NodeRef};

/// The entries of a listing that fit into so many bytes.
#[derive(Drop)]
pub struct Packed {
    /// How many they are.
    pub count: u32,
    /// How many bytes they take.
    pub bytes: u32,
    /// Whether more entries follow.
    pub more: bool,
    /// The place behind the last of them; where none fits, the place from which the listing goes on.
    pub next: Place,
}

/// The entries that were taken so far, and the bytes that are free behind them.
#[derive(Drop)]
struct Tally<'a> {
    count: u32,
    bytes: u32,
    free: usize,
    // The name of the last entry.
    last: Option<&'a [u8]>,
}

impl<'a> Tally<'a> {
    fn new(max: usize) -> Tally<'a>
        ensures { HasTaken [] max result }
    {
        Tally {
            count: 0,
            bytes: 0,
            free: max,
            last: None,
        }
    }

    // Takes an entry; false, and nothing is taken, where it doesn't fit.
    fn take(&mut self, entry: &Dirent<'a>) -> bool
        requires some { 1 ≤ length entry.now.name.now }
        requires named { length entry.now.name.now ≤ MAX_NAME }
        requires few { self.old.count ≤ MAX_NAMES }
        requires small { self.old.bytes ≤ 265 * self.old.count }
        ensures fits { result ≡ nat_le (dirent_size (entry_of entry.now)) self.old.free }
        ensures taken { (entries : List Entry) (max : ℕ) → HasTaken entries max self.old → IsTrue result → HasTaken (entries ++ entry_of entry.now ∷ []) max self.new }
        ensures kept { IsFalse result → self.new ≡ self.old }
    {
        let size = entry.size();
        if size > self.free {
            return false;
        }
        self.count += 1;
        self.bytes += size as u32;
        self.free -= size;
        self.last = Some(entry.name);
        true
    }

    // What is told of the entries that were taken from a place on.
    fn packed(self, place: &Place, more: bool) -> Packed
        requires { HasName self.last }
        ensures count { result.count ≡ self.entry.count }
        ensures bytes { result.bytes ≡ self.entry.bytes }
        ensures more { result.more ≡ more }
        ensures next { (entries : List Entry) (max : ℕ) → HasTaken entries max self.entry → result.next ≡ place_after place.now entries }
    {
        let next = match self.last {
            Some(name) => place_behind(name),
            None => place.clone().unwrap(),
        };
        Packed {
            count: self.count,
            bytes: self.bytes,
            more,
            next,
        }
    }
}

/// What `pack` would answer. Nothing is appended.
pub fn measure(graph: &Graph, dir: NodeRef, place: &Place, max: usize) -> Packed
    requires named { NamesNode graph.now dir }
    requires directory { kind_at graph.now (number_of dir) ≡ Some Directory }
    ensures tells { Tells graph.now (number_of dir) place.now max result }
    ensures bound { result.bytes ≤ max }
{
    let mut tally = Tally::new(max);
    for entry in list_from(graph, dir, place) {
        if !tally.take(&entry) {
            return tally.packed(place, true);
        }
    }
    tally.packed(place, false)
}

/// Appends the entries of a directory from a place on that fit into `max` bytes, for which there is room.
pub fn pack(graph: &Graph, dir: NodeRef, place: &Place, max: usize, to: &mut Out) -> Packed
    requires named { NamesNode graph.now dir }
    requires directory { kind_at graph.now (number_of dir) ≡ Some Directory }
    requires room { length to.old.bytes + max ≤ MAX_BYTES }
    ensures tells { Tells graph.now (number_of dir) place.now max result }
    ensures bound { result.bytes ≤ max }
    ensures bytes { Appends graph.now (number_of dir) place.now max to.old.bytes to.new.bytes }
    ensures len { length to.new.bytes ≡ length to.old.bytes + result.bytes }
    ensures handles { to.new.handles ≡ to.old.handles }
{
    let mut tally = Tally::new(max);
    for entry in list_from(graph, dir, place) {
        if !tally.take(&entry) {
            return tally.packed(place, true);
        }
        entry.put(to);
    }
    tally.packed(place, false)
}
