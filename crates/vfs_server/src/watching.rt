//! The watchers of a server.

ghost use Rattle.std.specs.Prelude.{◌≡◌, ◌<◌, ◌++◌, ◌∷◌, [], All, None, OnErr, OnOk, Some, filter, length};
ghost use Rattle.std.specs.Option.{option_map};
ghost use Rattle.link_frames.specs.Frames.{spellings};
ghost use Rattle.fidl_names.specs.declared.limits.TheConstants as limit;
ghost use Rattle.node_graph.specs.Graph.{Names, number_of};
ghost use Rattle.conn_rules.specs.Served.{told_by};
ghost use Rattle.watch_events.specs.Messages.{WritesFront};
ghost use Rattle.watch_events.specs.Messages as messages;
ghost use Rattle.node_graph.specs.Tree.{HasNameLength};
ghost use Rattle.vfs_server.specs.declared.watching.Seat.{Seat};
ghost use Rattle.vfs_server.specs.Seats.{is_at, seat_at, without};
ghost use Rattle.vfs_server.specs.Telling.{IsShort, gone_told, name_told, told_of};

use conn_rules::{At, Changes};
use fidl_names::NoMemory;
use indexmap::IndexMap;
use link_frames::Outbox;
use node_graph::{Graph, NodeRef};
use std::alloc::Global;
use std::marker::Model;
use watch_events::{WatchEvent, Watchers};

/// What an endpoint watches, and the bits of the events that it asks for.
#[derive(Clone, Copy)]
pub(crate) struct Seat {
    pub directory: NodeRef,
    pub mask: u32,
}

/// The endpoints that watch, in order of their births. They stand a second time by their directories, where
/// they are told of changes.
pub(crate) struct Watching {
    seats: IndexMap<u32, Seat>,
    watchers: Watchers,
}

// Who owns these lets go of them by one call, and not of each part by another.
impl Drop for Watching {
    fn drop(self) {
        let Watching {
            seats: _seats,
            watchers: _watchers,
        } = self;
    }
}

impl Model for Watching {
    ghost use Rattle.vfs_server.specs.Codes.{seats_code};
    ghost use Rattle.vfs_server.specs.Seats.{AreByDirectory, Seats};

    ghost Value = { Seats };

    ghost coded = { seats_code };

    ghost view = { λ watching. watching.seats.entries };

    ghost invariant = { λ watching. AreByDirectory watching.seats.entries watching.watchers };
}

impl Watching {
    /// Those who watch at a server to which nobody is bound yet.
    pub fn new(alloc: Global) -> Watching
        ensures { result ≡ [] }
    {
        Watching {
            seats: IndexMap::new(alloc),
            watchers: Watchers::new(alloc),
        }
    }

    /// How many watch.
    pub fn len(&self) -> usize
        ensures { result ≡ length self.now }
    {
        self.seats.len()
    }

    /// How many watch the directory with this number.
    pub fn count(&self, directory: u64) -> u32
        ensures { result ≡ length (filter (is_at directory) self.now) }
    {
        self.watchers.count(directory)
    }

    /// Lets an endpoint that doesn't watch yet watch a directory of the graph. Room is made before
    /// anything changes.
    pub fn add(
        &mut self,
        endpoint: u32,
        directory: NodeRef,
        mask: u32,
        graph: &Graph,
    ) -> Result<(), NoMemory>
        requires free { seat_at self.old endpoint ≡ None }
        requires kept { Names graph.now directory }
        requires few { length (filter (is_at (number_of directory)) self.old) < limit.MAX_WATCHERS }
        ensures added { OnOk result (self.new ≡ self.old ++ (endpoint, record { directory = directory; mask = mask }) ∷ []) }
        ensures unchanged { OnErr result (self.new ≡ self.old) }
    {
        self.seats.reserve(1)?;
        self.watchers.add(graph.number(directory), endpoint, mask)?;
        if self
            .seats
            .insert(endpoint, Seat { directory, mask })
            .is_err()
        {
            unreachable!();
        }
        Ok(())
    }

    /// Takes out an endpoint, and tells the directory that it watched.
    pub fn remove(&mut self, endpoint: u32, graph: &Graph) -> Option<NodeRef>
        requires kept { (seat : Seat) → seat_at self.old endpoint ≡ Some seat → Names graph.now seat.directory }
        ensures watched { result ≡ option_map (λ seat. seat.directory) (seat_at self.old endpoint) }
        ensures removed { self.new ≡ without endpoint self.old }
        ensures gone { seat_at self.new endpoint ≡ None }
    {
        let seat = self.seats.shift_remove(&endpoint)?;
        self.watchers.remove(graph.number(seat.directory), endpoint);
        Some(seat.directory)
    }

    /// Tells those who watch of changes: a name is gone, a name is new, a directory is gone. For want of
    /// memory a front of that is told, each message whole.
    pub fn tell(&self, changes: &Changes<'_>, outbox: &mut Outbox) -> Result<(), NoMemory>
        requires short { All IsShort (told_by changes.now) }
        ensures told { OnOk result (outbox.new ≡ outbox.old ++ spellings (told_of self.now (told_by changes.now))) }
        ensures front { OnErr result (WritesFront (told_of self.now (told_by changes.now)) outbox.old outbox.new) }
    {
        self.tell_name(WatchEvent::Removed, &changes.removed, outbox)?;
        self.tell_name(WatchEvent::Added, &changes.added, outbox)?;
        self.tell_gone(changes.deleted, outbox)
    }

    /// Tells what happened to a name, if there is one.
    fn tell_name(
        &self,
        event: WatchEvent,
        at: &Option<At<'_>>,
        outbox: &mut Outbox,
    ) -> Result<(), NoMemory>
        requires short { (one : At) → at.now ≡ Some one → HasNameLength one.name.now }
        ensures told { OnOk result (outbox.new ≡ outbox.old ++ spellings (name_told self.now (messages.number_of event) at.now)) }
        ensures front { OnErr result (WritesFront (name_told self.now (messages.number_of event) at.now) outbox.old outbox.new) }
    {
        match at {
            Some(at) => self.watchers.changed(at.dir, event, at.name, outbox),
            None => Ok(()),
        }
    }

    /// Tells that a directory is gone, if one is.
    fn tell_gone(&self, directory: Option<u64>, outbox: &mut Outbox) -> Result<(), NoMemory>
        ensures told { OnOk result (outbox.new ≡ outbox.old ++ spellings (gone_told self.now directory)) }
        ensures front { OnErr result (WritesFront (gone_told self.now directory) outbox.old outbox.new) }
    {
        match directory {
            Some(directory) => self
                .watchers
                .changed(directory, WatchEvent::Deleted, b".", outbox),
            None => Ok(()),
        }
    }
}
