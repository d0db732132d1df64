//! What a session keeps. Only this module and those below it take a session apart.

mod admitting;
mod heads;
mod reading;
mod serving;

ghost use Rattle.std.specs.Prelude.{◌≡◌, ◌≤◌, ◌<◌, ◌+◌, ℕ, false, MatchOption};
ghost use Rattle.fidl_names.specs.declared.limits.TheConstants as limit;
ghost use Rattle.link_admission.specs.Standings.{standing_of};
ghost use Rattle.vfs_journal.specs.Entries.{Journal};
ghost use Rattle.vfs_journal.specs.Starts.{Start};
ghost use Rattle.journal_laws.specs.Viewing.{view_behind};
ghost use Rattle.message_queues.specs.Oldest.{IsBound, IsBoundAt, IsOldest, NothingWaits};
ghost use Rattle.message_queues.specs.Queues.{count};
ghost use Rattle.vfs_server.specs.KeptNodes.{kept_in};
ghost use Rattle.vfs_world.specs.Running.{IsRunning, whole};
ghost use Rattle.vfs_world.specs.World.{StandsFor};

use fidl_wire::{Ordinals, Out};
use link_admission::{Endpoints, Standing};
use message_queues::Queues;
use std::alloc::Global;
use vfs_server::Server;

/// The servers by their indexes, what waits, what is known of endpoints and tokens, and how many places of
/// the journal are taken.
pub(crate) struct Session {
    alloc: Global,
    ordinals: Ordinals,
    servers: Vec<Server>,
    queues: Queues,
    endpoints: Endpoints,
    places: u64,
    /// Where an answer is put together, or an Open that goes on.
    out: Out,
    /// Where the bytes of messages were that had waited and were served. Those of the next ones that wait go
    /// there.
    rooms: Vec<Vec<u8>>,
    /// Where the list was of who died last.
    dying: Vec<u32>,
}

// Who owns a session lets go of it by one call, and not of each part by another.
impl Drop for Session {
    fn drop(self) {
        let Session {
            alloc: _alloc,
            ordinals: _ordinals,
            servers: _servers,
            queues: _queues,
            endpoints: _endpoints,
            places: _places,
            out: _out,
            rooms: _rooms,
            dying: _dying,
        } = self;
    }
}

impl Session {
    /// The session of these parts, before anything took a place.
    pub(crate) fn new(
        alloc: Global,
        ordinals: Ordinals,
        servers: Vec<Server>,
        queues: Queues,
        endpoints: Endpoints,
        out: Out,
    ) -> Session
        ensures { whole result ≡ record { servers = servers.items; queues = queues; known = endpoints; places = 0; spent = false; frames = 0 } }
    {
        Session {
            alloc,
            ordinals,
            servers,
            queues,
            endpoints,
            places: 0,
            out,
            rooms: Vec::new(alloc),
            dying: Vec::new(alloc),
        }
    }

    /// Where it takes memory.
    pub(crate) fn alloc(&self) -> Global {
        self.alloc
    }

    /// How many servers there are.
    pub(crate) fn servers(&self) -> u32
        ensures { result ≡ self.now.queues.servers }
    {
        self.queues.servers()
    }

    /// How many nodes of a server are kept.
    pub(crate) fn kept(&self, server: u32) -> u32
        requires running { (most : ℕ) × IsRunning most (whole self.now) }
        requires known { server < self.now.queues.servers }
        ensures { (start : Start) (journal : Journal) → StandsFor start (whole self.now) journal → result ≡ kept_in (view_behind start journal) server }
    {
        self.servers[server as usize].kept() as u32
    }

    /// Of all endpoints that are bound, the one whose first entry is the oldest.
    pub(crate) fn next(&self) -> Option<u32>
        ensures { MatchOption result (NothingWaits self.now.queues (IsBound self.now.queues)) (IsOldest self.now.queues (IsBound self.now.queues)) }
    {
        self.queues.next()
    }

    /// Of the endpoints that are bound at a server, the one whose first entry is the oldest.
    pub(crate) fn oldest(&self, server: u32) -> Option<u32>
        ensures { MatchOption result (NothingWaits self.now.queues (IsBoundAt self.now.queues server)) (IsOldest self.now.queues (IsBoundAt self.now.queues server)) }
    {
        self.queues.oldest(server)
    }

    /// How an endpoint stands.
    pub(crate) fn standing(&self, endpoint: u32) -> Standing
        ensures { result ≡ standing_of self.now.endpoints endpoint }
    {
        self.endpoints.standing(endpoint)
    }

    /// How many entries wait.
    pub(crate) fn waiting(&self) -> u32
        ensures { result ≡ count self.now.queues }
    {
        self.queues.len()
    }

    /// Takes the next place of the journal, and tells which.
    #[inline(always)]
    pub(crate) fn take_place(&mut self) -> u64
        requires low { self.old.places ≤ limit.MAX_PLACES }
        ensures place { result ≡ self.old.places }
        ensures taken { whole self.new ≡ record (whole self.old) { places = self.old.places + 1 } }
    {
        let place = self.places;
        self.places += 1;
        place
    }
}
