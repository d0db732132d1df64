//! The watchers of one directory.

ghost use Rattle.std.specs.Prelude.{◌≡◌, ◌≤◌, ◌<◌, ◌++◌, ◌∷◌, [], ◌==◌, false, not, OnErr, OnOk, filter, length, map};
ghost use Rattle.link_frames.specs.Frames.{spellings};
ghost use Rattle.fidl_names.specs.declared.limits.TheConstants as limit;
ghost use Rattle.watch_events.specs.Messages.{Watcher, WritesFront, asks_for, watch_frame};
ghost use Rattle.watch_events.specs.Watching.{is_among};

use crate::messages::asks_for;
use fidl_names::NoMemory;
use indexmap::IndexMap;
use link_frames::{Outbox, write_message};
use std::alloc::Global;
use std::marker::Model;

/// The watchers of one directory, each once, in order of registration.
pub(crate) struct Row {
    // The masks by their endpoints.
    masks: IndexMap<u32, u32>,
}

// Who owns a row lets go of it by one call, and not of each part of its map by another.
impl Drop for Row {
    fn drop(self) {
        let Row { masks: _masks } = self;
    }
}

impl Model for Row {
    ghost use Rattle.std.specs.Prelude.{List, map, nat_eq};
    ghost use Rattle.indexmap.specs.IndexMap.{IsUnique};
    ghost use Rattle.watch_events.specs.Messages.{Watcher};
    ghost use Rattle.watch_events.specs.Rows.{watcher_of};

    ghost Value = { List Watcher };

    ghost view = { λ row. map watcher_of row.masks.entries };

    ghost invariant = { λ row. IsUnique nat_eq row.masks };
}

impl Row {
    pub(crate) fn new(alloc: Global) -> Row
        ensures { result ≡ [] }
    {
        Row {
            masks: IndexMap::new(alloc),
        }
    }

    pub(crate) fn len(&self) -> usize
        ensures { result ≡ length self.now }
    {
        self.masks.len()
    }

    /// Puts an endpoint behind the others. Of want of memory nothing changed.
    pub(crate) fn add(&mut self, endpoint: u32, mask: u32) -> Result<(), NoMemory>
        requires new { is_among endpoint self.old ≡ false }
        ensures added { OnOk result (self.new ≡ self.old ++ (record { endpoint = endpoint; mask = mask }) ∷ []) }
        ensures unchanged { OnErr result (self.new ≡ self.old) }
    {
        self.masks.insert(endpoint, mask)?;
        Ok(())
    }

    /// Takes an endpoint out, and tells whether it was there. The others keep their order.
    pub(crate) fn remove(&mut self, endpoint: u32) -> bool
        ensures was { result ≡ is_among endpoint self.old }
        ensures removed { self.new ≡ filter (λ watcher. not (watcher.endpoint == endpoint)) self.old }
    {
        self.masks.shift_remove(&endpoint).is_some()
    }

    /// Sends each that asks for an event the same message. For want of memory a front of the frames stands.
    pub(crate) fn tell(&self, event: u8, bytes: &[u8], to: &mut Outbox) -> Result<(), NoMemory>
        requires event { event < 32 }
        requires short { length bytes.now ≤ limit.MAX_BYTES }
        ensures told { OnOk result (to.new ≡ to.old ++ spellings (map (λ watcher. watch_frame watcher.endpoint bytes.now) (filter (λ watcher. asks_for watcher.mask event) self.now))) }
        ensures front { OnErr result (WritesFront (map (λ watcher. watch_frame watcher.endpoint bytes.now) (filter (λ watcher. asks_for watcher.mask event) self.now)) to.old to.new) }
    {
        for (endpoint, mask) in self.masks.iter() {
            if !asks_for(*mask, event) {
                continue;
            }
            write_message(to, *endpoint, &[], bytes)?;
        }
        Ok(())
    }
}
