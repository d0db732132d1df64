ghost use Rattle.std.specs.Prelude.{◌≡◌, ◌<◌, [], true, OnOk, None};
ghost use Rattle.std.specs.HashMap.{spare};
ghost use Rattle.std.specs.Map.{lookup};
ghost use Rattle.node_graph.specs.Short.{is_same_key, FindsAlike, FindsNow, IsPut};

use crate::nodes::Entry;
use crate::short::ShortName;
use fidl_names::NoMemory;
use std::alloc::Global;
use std::collections::HashMap;
use std::hash::{BuildHasher, BuildHasherDefault, FoldHasher};

// How many names the index has before it gets room for all that there can be.
const FEW: usize = 72;

// The groups of the index with that room, and the most names that it takes in one of them, which is
// as many as a group has room for. One more would go on to the next groups, and as far as these are
// full. There are so many groups that ordinary names hardly ever fill one.
const GROUPS: usize = 2048;

const GROUP: u8 = 12;

// The names that so many groups have room for.
const ROOM: usize = 9 * GROUPS;

/// Short names and where they lead, which are found by hash. Of names that meet in one group of the
/// table, as names that are picked for it do, it takes no more than have room there.
#[derive(Drop)]
pub struct NameIndex {
    pub found: HashMap<ShortName, Entry>,
    // Whether each name that was put is in it.
    pub whole: bool,
    // How many names there are in each group, once there is room for all names.
    groups: Vec<u8>,
}

impl NameIndex {
    pub fn new(alloc: Global) -> NameIndex
        ensures none { result.found.entries ≡ [] }
        ensures whole { result.whole ≡ true }
    {
        NameIndex {
            found: HashMap::new(alloc),
            whole: true,
            groups: Vec::new(alloc),
        }
    }

    pub fn get(&self, key: &ShortName) -> Option<Entry>
        ensures { result ≡ lookup (is_same_key key.now) self.now.found.entries }
    {
        self.found.get(key).copied()
    }

    // Makes room for one more name.
    pub fn reserve(&mut self) -> Result<(), NoMemory>
        ensures found { FindsAlike self.old.found.entries self.new.found.entries }
        ensures whole { self.new.whole ≡ self.old.whole }
        ensures room { OnOk result (0 < spare self.new.found) }
    {
        self.widen()?;
        self.found.reserve(1)?;
        Ok(())
    }

    // The table grows with a few names, and then at once to a size at which names that were not
    // picked for it hardly ever meet in a group.
    fn widen(&mut self) -> Result<(), NoMemory>
        ensures found { FindsAlike self.old.found.entries self.new.found.entries }
        ensures whole { self.new.whole ≡ self.old.whole }
    {
        if !self.groups.is_empty() || self.found.len() < FEW {
            return Ok(());
        }
        self.found.reserve(ROOM.saturating_sub(self.found.len()))?;
        self.groups.resize(GROUPS, 0)?;
        Ok(())
    }

    // A name that isn't in the index yet is left out where its group has no room.
    pub fn put(&mut self, key: ShortName, to: Entry)
        requires { 0 < spare self.old.found }
        ensures { IsPut key to self.old.found.entries self.new.found.entries self.old.whole self.new.whole }
    {
        let group = group_of(&key);
        if is_full(&self.groups, group) && !self.found.contains_key(&key) {
            self.whole = false;
            return;
        }
        if let Ok(None) = self.found.insert(key, to) {
            gain(&mut self.groups, group);
        }
    }

    pub fn cut(&mut self, key: &ShortName)
        ensures found { FindsNow key.now None self.old.found.entries self.new.found.entries }
        ensures whole { self.new.whole ≡ self.old.whole }
    {
        if self.found.remove(key).is_some() {
            lose(&mut self.groups, group_of(key));
        }
    }
}

// The group in which the table looks for a name first. No clause speaks of it, since what is found
// doesn't hang on it.
fn group_of(key: &ShortName) -> usize {
    let hash = BuildHasherDefault::<FoldHasher>::new().hash_one(*key);
    ((hash ^ (hash >> 32)) as usize) % GROUPS
}

fn is_full(groups: &[u8], group: usize) -> bool {
    match groups.get(group) {
        Some(held) => *held >= GROUP,
        None => false,
    }
}

fn gain(groups: &mut Vec<u8>, group: usize) {
    if let Some(held) = groups.get_mut(group) {
        *held = held.saturating_add(1);
    }
}

fn lose(groups: &mut Vec<u8>, group: usize) {
    if let Some(held) = groups.get_mut(group) {
        *held = held.saturating_sub(1);
    }
}
