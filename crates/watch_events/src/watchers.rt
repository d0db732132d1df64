//! Who watches which directory of a server, and what watchers are told.

ghost use Rattle.std.specs.Prelude.{◌≡◌, ◌≤◌, ◌<◌, ◌++◌, false, OnErr, OnOk, None, length};
ghost use Rattle.std.specs.BTreeMap.{UpdatesBy};
ghost use Rattle.std.specs.FinMap as finite;
ghost use Rattle.std.specs.Ordering.{nat_cmp};
ghost use Rattle.link_frames.specs.Frames.{spellings};
ghost use Rattle.fidl_names.specs.declared.limits.TheConstants as limit;
ghost use Rattle.watch_events.specs.Messages.{WritesFront, number_of, told};
ghost use Rattle.watch_events.specs.Watching.{Adds, Removes, is_among, watchers_of};

use crate::messages::put_event;
use crate::row::Row;
use fidl_names::{MAX_NAME, NoMemory};
use link_frames::Outbox;
use std::alloc::Global;
use std::collections::BTreeMap;
use std::marker::Model;

/// What a change of a directory tells its watchers.
#[derive(Clone, Copy)]
pub enum WatchEvent {
    /// The directory is gone; the name is `.`.
    Deleted,
    /// The directory has a new name.
    Added,
    /// A name is gone from it.
    Removed,
}

/// The watchers of one server, by the numbers of their directories, each directory's in order of
/// registration. Contracts see them as that map.
#[derive(Drop)]
pub struct Watchers {
    alloc: Global,
    rows: BTreeMap<u64, Row>,
}

impl Model for Watchers {
    ghost use Rattle.watch_events.specs.Watching.{Watching};
    ghost use Rattle.watch_events.specs.Codes.{watching_code};
    ghost use Rattle.watch_events.specs.Rows.{AreKept, watching_of};

    ghost Value = { Watching };

    ghost coded = { watching_code };

    ghost view = { λ watchers. watching_of watchers.rows };

    ghost invariant = { λ watchers. AreKept watchers.rows };
}

impl WatchEvent {
    /// The event's number, which is the place of its bit in a mask.
    fn number(self) -> u8
        ensures number { result ≡ number_of self }
        ensures small { result < 3 }
    {
        match self {
            WatchEvent::Deleted => 0,
            WatchEvent::Added => 1,
            WatchEvent::Removed => 2,
        }
    }
}

impl Watchers {
    /// Nobody watches.
    pub fn new(alloc: Global) -> Watchers
        ensures { result ≡ finite.empty }
    {
        Watchers {
            alloc,
            rows: BTreeMap::new(alloc),
        }
    }

    /// How many watch a directory.
    pub fn count(&self, directory: u64) -> u32
        ensures { result ≡ length (watchers_of self.now directory) }
    {
        match self.rows.get(&directory) {
            Some(row) => row.len() as u32,
            None => 0,
        }
    }

    /// Lets an endpoint watch a directory, behind those that do. `mask` has the bits of the events that it
    /// asks for. Of want of memory nothing changed.
    pub fn add(&mut self, directory: u64, endpoint: u32, mask: u32) -> Result<(), NoMemory>
        requires few { length (watchers_of self.old directory) < limit.MAX_WATCHERS }
        requires new { is_among endpoint (watchers_of self.old directory) ≡ false }
        ensures added { OnOk result (Adds self.old directory (record { endpoint = endpoint; mask = mask }) self.new) }
        ensures unchanged { OnErr result (self.new ≡ self.old) }
    {
        match self.rows.get_mut(&directory) {
            Some(row) => row.add(endpoint, mask),
            None => {
                let mut row = Row::new(self.alloc);
                row.add(endpoint, mask)?;
                self.rows.insert(directory, row)?;
                Ok(())
            }
        }
    }

    /// Lets an endpoint watch a directory no more, and tells whether it did. The others keep their order.
    pub fn remove(&mut self, directory: u64, endpoint: u32) -> bool
        ensures was { result ≡ is_among endpoint (watchers_of self.old directory) }
        ensures removed { Removes self.old directory endpoint self.new }
    {
        let Some(row) = self.rows.get_mut(&directory) else {
            return false;
        };
        let watched = row.remove(endpoint);
        if row.len() == 0 {
            take_out(&mut self.rows, directory);
        }
        watched
    }

    /// Tells the watchers of a directory that asked for it what happened to a name of 1 to 255 bytes: one
    /// message each, in order of registration. For want of memory a front of the messages stands.
    pub fn changed(
        &self,
        directory: u64,
        event: WatchEvent,
        name: &[u8],
        to: &mut Outbox,
    ) -> Result<(), NoMemory>
        requires some { 1 ≤ length name.now }
        requires few { length name.now ≤ limit.MAX_NAME }
        ensures told { OnOk result (to.new ≡ to.old ++ spellings (told (watchers_of self.now directory) (number_of event) name.now)) }
        ensures front { OnErr result (WritesFront (told (watchers_of self.now directory) (number_of event) name.now) to.old to.new) }
    {
        let Some(row) = self.rows.get(&directory) else {
            return Ok(());
        };
        let number = event.number();
        let mut bytes = [0; 2 + MAX_NAME];
        put_event(&mut bytes, number, name);
        row.tell(number, &bytes[..2 + name.len()], to)
    }
}

/// Takes out a directory.
fn take_out(rows: &mut BTreeMap<u64, Row>, directory: u64)
    ensures { UpdatesBy nat_cmp (nat_cmp directory) rows.old rows.new None }
{
    rows.remove(&directory);
}
