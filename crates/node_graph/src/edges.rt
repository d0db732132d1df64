ghost use Rattle.std.specs.Prelude.{◌≡◌, ◌≤◌, ◌<◌, ◌-◌, ◌^◌, take, length, All, OnOk, OnErr, OnSome};
ghost use Rattle.std.specs.Option.{option_map};
ghost use Rattle.std.specs.FinMap as finite;
ghost use Rattle.node_graph.specs.Ends.{edges_of, HasNamesAsDirectory, ends_after, name_in, start_of};
ghost use Rattle.node_graph.specs.Refusals.{has_names};
ghost use Rattle.node_graph.specs.Short.{IsKeyOf};

use crate::index::NameIndex;
use crate::keys::EdgeName;
use crate::nodes::{Entry, NodeKind, NodeRef};
use crate::short::ShortName;
use fidl_names::{MAX_NAME, NoMemory};
use std::alloc::Global;
use std::collections::BTreeMap;
use std::collections::btree_map::Range;
use std::marker::Model;
use std::ops::Bound;

/// All names of a server, in the order of directories and of the names' bytes.
#[derive(Drop)]
pub struct Edges {
    names: BTreeMap<EdgeName, Entry>,
    // Short ones among them a second time, which are found by hash.
    short: NameIndex,
}

impl Model for Edges {
    ghost use Rattle.std.specs.FinMap as finite;
    ghost use Rattle.node_graph.specs.Tree.{edge_cmp};
    ghost use Rattle.node_graph.specs.Ends.{Ends, ends_code, IsNamed};
    ghost use Rattle.node_graph.specs.Short.{IsIndex};

    ghost Value = { Ends };

    ghost coded = { ends_code };

    ghost view = { λ edges. finite.from_entries edges.names.entries };

    ghost invariant = { λ edges. IsNamed edges.names.entries × IsIndex edges.short.found.entries edges.short.whole (finite.from_entries edges.names.entries) };
}

impl Edges {
    pub fn new(alloc: Global) -> Edges
        ensures { result ≡ finite.empty }
    {
        Edges {
            names: BTreeMap::new(alloc),
            short: NameIndex::new(alloc),
        }
    }

    pub fn len(&self) -> usize
        ensures { result ≡ finite.len self.now }
    {
        self.names.len()
    }

    pub fn find(&self, directory: u64, name: &[u8]) -> Option<Entry>
        ensures found { result ≡ finite.get self.now (name_in directory name.now) }
        ensures few { OnSome result (length name.now ≤ MAX_NAME) }
    {
        let Some(short) = ShortName::of(directory, name) else {
            return self.find_in_order(directory, name);
        };
        let found = self.short.get(&short);
        if found.is_some() || self.short.whole {
            return found;
        }
        self.find_in_order(directory, name)
    }

    // No name is longer than a name may be.
    fn find_in_order(&self, directory: u64, name: &[u8]) -> Option<Entry>
        ensures found { result ≡ finite.get self.now (name_in directory name.now) }
        ensures few { OnSome result (length name.now ≤ MAX_NAME) }
    {
        let names = &self.names;
        if name.len() > MAX_NAME {
            return None;
        }
        let mut key = EdgeName::in_directory(directory);
        key.set_name(name);
        names.get(&key).copied()
    }

    // Room is made before anything changes.
    pub fn put(&mut self, directory: u64, name: &[u8], to: Entry) -> Result<(), NoMemory>
        requires some { 1 ≤ length name.now }
        requires few { length name.now ≤ MAX_NAME }
        ensures put { OnOk result (self.new ≡ finite.insert self.old (name_in directory name.now) to) }
        ensures unchanged { OnErr result (self.new ≡ self.old) }
    {
        match ShortName::of(directory, name) {
            Some(short) => self.put_short(short, directory, name, &to),
            None => {
                self.names.insert(EdgeName::new(directory, name), to)?;
                Ok(())
            }
        }
    }

    // The same of a short name, with its key.
    fn put_short(
        &mut self,
        short: ShortName,
        directory: u64,
        name: &[u8],
        to: &Entry,
    ) -> Result<(), NoMemory>
        requires some { 1 ≤ length name.now }
        requires few { length name.now ≤ MAX_NAME }
        requires key { IsKeyOf short directory name.now }
        ensures put { OnOk result (self.new ≡ finite.insert self.old (name_in directory name.now) to.now) }
        ensures unchanged { OnErr result (self.new ≡ self.old) }
    {
        self.short.reserve()?;
        self.names.insert(EdgeName::new(directory, name), *to)?;
        self.short.put(short, *to);
        Ok(())
    }

    pub fn cut(&mut self, directory: u64, name: &[u8])
        requires { length name.now ≤ MAX_NAME }
        ensures { self.new ≡ finite.remove self.old (name_in directory name.now) }
    {
        let key = EdgeName::new(directory, name);
        self.names.remove(&key);
        let Some(short) = ShortName::of(directory, name) else {
            return;
        };
        self.short.cut(&short);
    }

    // A name leads where another one led, which is taken out. Room is made before anything changes.
    pub fn shift(
        &mut self,
        directory: u64,
        src: &[u8],
        into: u64,
        dst: &[u8],
        to: Entry,
    ) -> Result<(), NoMemory>
        requires source { length src.now ≤ MAX_NAME }
        requires some { 1 ≤ length dst.now }
        requires few { length dst.now ≤ MAX_NAME }
        ensures shifted { OnOk result (self.new ≡ finite.remove (finite.insert self.old (name_in into dst.now) to) (name_in directory src.now)) }
        ensures unchanged { OnErr result (self.new ≡ self.old) }
    {
        self.put(into, dst, to)?;
        self.cut(directory, src);
        Ok(())
    }

    // Whether a node of this kind has names in it. Only a directory can have any, so no other is asked.
    pub fn has_names(&self, node: NodeRef, kind: NodeKind) -> bool
        requires number { node.number < 2 ^ 64 - 1 }
        requires kind { HasNamesAsDirectory self.now node kind }
        ensures { result ≡ has_names (edges_of self.now) node.number }
    {
        if !kind.is_directory() {
            return false;
        }
        let mut names = self.after(node.number, None);
        names.next().is_some()
    }

    // The names of a directory behind a place in its listing, and where they lead. A longer place than
    // a name stands to each name as its front does.
    pub fn after(&self, directory: u64, place: Option<&[u8]>) -> Range<'_, EdgeName, Entry>
        requires { directory < 2 ^ 64 - 1 }
        ensures names { result ≡ ends_after self.now directory (option_map (λ name. name.now) place.entry) }
        ensures named { All (λ entry. (1 ≤ length entry.0.name) × (length entry.0.name ≤ MAX_NAME)) result }
    {
        let end = EdgeName::new(directory + 1, &[]);
        self.names
            .range((start_of(directory, place), Bound::Excluded(end)))
    }
}

// Where the names of a directory behind a place begin.
fn start_of(directory: u64, place: Option<&[u8]>) -> Bound<EdgeName>
    ensures { result ≡ start_of directory (option_map (λ name. name.now) place.entry) }
{
    match place {
        Some(name) => Bound::Excluded(EdgeName::new(directory, front_of(name))),
        None => Bound::Included(EdgeName::new(directory, &[])),
    }
}

// As much of a place as a name can have.
fn front_of(place: &[u8]) -> &[u8]
    ensures value { result.now ≡ take MAX_NAME place.now }
    ensures few { length result.now ≤ MAX_NAME }
{
    if place.len() <= MAX_NAME {
        return place;
    }
    let (front, _) = place.split_at(MAX_NAME);
    front
}
