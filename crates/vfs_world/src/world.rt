ghost use Rattle.std.specs.Prelude.{◌≡◌, ◌<◌, ◌≤◌, ◌+◌, true, false, [], None, IfOk, OnOk, Ok, is_ok, if◌then◌else◌, length, take};
ghost use Rattle.std.specs.Option.{option_map};
ghost use Rattle.fidl_names.specs.declared.limits.TheConstants as limit;
ghost use Rattle.link_admission.specs.Standings.{standing_of as known_standing};
ghost use Rattle.link_frames.specs.Frames.{IsFrame};
ghost use Rattle.link_frames.specs.declared.kinds.Side.TheVariants as side;
ghost use Rattle.link_frames.specs.Views.{frame_of};
ghost use Rattle.session_start.specs.Accepted.{AreAccepted, HasFilesOfBytes};
ghost use Rattle.vfs_journal.specs.Entries.{Journal};
ghost use Rattle.vfs_journal.specs.History.{standing_of, waiting};
ghost use Rattle.vfs_journal.specs.Past.{history_of};
ghost use Rattle.vfs_journal.specs.Session.{arrives, drained, head, next, oldest, picked, steps, turned, weight};
ghost use Rattle.vfs_journal.specs.Starts.{Start, start_of};
ghost use Rattle.journal_laws.specs.Viewing.{view_behind};
ghost use Rattle.message_queues.specs.Queues.{count};
ghost use Rattle.vfs_server.specs.KeptNodes.{kept_in};
ghost use Rattle.vfs_world.specs.Servings.{served_in};
ghost use Rattle.vfs_world.specs.World.{LeadsTo, StandsFor};
ghost use Rattle.vfs_world.specs.Conduct.{Conducts, KeepsOn, StandsForOne};

use crate::arriving::hear;
use crate::beginning::begin;
use crate::session::Session;
use fidl_names::NoMemory;
use fidl_wire::Ordinals;
use link_admission::Standing;
use link_frames::{FrameView, Mode, Outbox};
use std::alloc::Global;
use std::marker::Model;

/// Why a call of a world did nothing.
#[derive(Clone, Copy)]
pub enum WorldFault {
    /// Memory is wanting; the world is spent from then on.
    NoMemory,
    /// Memory was wanting in an earlier call.
    Spent,
}

impl From<WorldFault> for NoMemory {
    fn from(_fault: WorldFault) -> NoMemory {
        NoMemory
    }
}

/// Whether a Pick served an entry.
#[derive(Clone, Copy)]
pub enum Picked {
    Served,
    /// Nothing of that endpoint can be served.
    Idle,
}

/// A session over all servers of a start.
#[derive(Drop)]
pub struct World {
    session: Session,
    spent: bool,
    frames: u64,
}

impl Model for World {
    ghost use Rattle.vfs_world.specs.Codes.{world_code};
    ghost use Rattle.vfs_world.specs.Running.{IsWithin, whole};
    ghost use Rattle.vfs_world.specs.World as worlds;

    ghost Value = { worlds.World };

    ghost coded = { world_code };

    ghost view = { λ world. record (whole world.session) { spent = world.spent; frames = world.frames } };

    ghost invariant = { λ world. IsWithin (whole world.session) world.spent world.frames };
}

impl World {
    /// The session of an accepted start, before its first frame. What is in the files of a start are bytes.
    pub fn new(
        alloc: Global,
        ordinals: Ordinals,
        start: &session_start::Start,
    ) -> Result<World, NoMemory>
        ensures accepted { AreAccepted start.now }
        ensures bytes { HasFilesOfBytes start.now }
        ensures stands { IfOk result (λ world. StandsFor (start_of start.now) world []) }
        ensures frames { IfOk result (λ world. world.frames ≡ 0) }
    {
        let session = begin(alloc, ordinals, start)?;
        Ok(World {
            session,
            spent: false,
            frames: 0,
        })
    }

    /// Accepts a frame: a refused one is answered, a message or a hang-up waits, and a Turn or a Pick is
    /// served.
    pub fn accept(&mut self, frame: FrameView<'_>, outbox: &mut Outbox) -> Result<(), WorldFault>
        requires frame { IsFrame side.ToServers (frame_of frame) }
        requires few { self.old.frames < limit.MAX_FRAMES }
        ensures arrived { (start : Start) (journal : Journal) → StandsFor start self.old journal →
            OnOk result (LeadsTo start (arrives start journal (frame_of frame.entry)) self.new journal outbox.old outbox.new) }
        ensures keeps { KeepsOn result self.old (λ start journal. arrives start journal (frame_of frame.entry)) }
        ensures frames { self.new.frames ≡ (if is_ok result then self.old.frames + 1 else self.old.frames) }
        ensures conduct { Conducts result self.old self.new outbox.old outbox.new }
    {
        self.hear(Mode::Given, frame, outbox)
    }

    /// Hears a frame: accepts it, and in mode auto serves all that can be served then. What finds nothing
    /// waiting there is served without waiting itself.
    pub fn hear(
        &mut self,
        mode: Mode,
        frame: FrameView<'_>,
        outbox: &mut Outbox,
    ) -> Result<(), WorldFault>
        requires frame { IsFrame side.ToServers (frame_of frame) }
        requires few { self.old.frames < limit.MAX_FRAMES }
        ensures heard { (start : Start) (journal : Journal) → StandsFor start self.old journal →
            OnOk result (LeadsTo start (steps start mode journal (frame_of frame.entry)) self.new journal outbox.old outbox.new) }
        ensures none { mode ≡ Mode.Auto → (start : Start) (journal : Journal) → StandsFor start self.old journal →
            OnOk result (waiting (history_of start (steps start mode journal (frame_of frame.entry))) ≡ []) }
        ensures keeps { KeepsOn result self.old (λ start journal. steps start mode journal (frame_of frame.entry)) }
        ensures frames { self.new.frames ≡ (if is_ok result then self.old.frames + 1 else self.old.frames) }
        ensures conduct { Conducts result self.old self.new outbox.old outbox.new }
    {
        if self.spent {
            return Err(WorldFault::Spent);
        }
        let begun = outbox.len();
        if let Err(NoMemory) = hear(&mut self.session, mode, frame, outbox) {
            return Err(take_back(begun, outbox, &mut self.spent));
        }
        self.frames += 1;
        Ok(())
    }

    /// Serves the oldest entries of a server's endpoints, at most `n`, and tells how many it served: fewer
    /// only where nothing more of that server can be served, and none where no server has that number. Its
    /// endpoints are those that are bound at it.
    pub fn turn(&mut self, server: u32, n: u32, outbox: &mut Outbox) -> Result<u32, WorldFault>
        ensures turned { (start : Start) (journal : Journal) → StandsFor start self.old journal →
            OnOk result (LeadsTo start (turned start server n journal) self.new journal outbox.old outbox.new) }
        ensures number { (start : Start) (journal : Journal) → StandsFor start self.old journal →
            IfOk result (λ done. served_in journal + done ≡ served_in (turned start server n journal)) }
        ensures fewer { (start : Start) (journal : Journal) → StandsFor start self.old journal →
            IfOk result (λ done. done < n → oldest start (history_of start (turned start server n journal)) server ≡ None) }
        ensures keeps { KeepsOn result self.old (λ start. turned start server n) }
        ensures idle { (start : Start) (journal : Journal) → StandsFor start self.old journal → oldest start (history_of start journal) server ≡ None → result ≡ Ok 0 }
        ensures frames { self.new.frames ≡ self.old.frames }
        ensures conduct { Conducts result self.old self.new outbox.old outbox.new }
    {
        if self.spent {
            return Err(WorldFault::Spent);
        }
        let begun = outbox.len();
        match self.session.turn(server, n, outbox) {
            Ok(done) => Ok(done),
            Err(NoMemory) => Err(take_back(begun, outbox, &mut self.spent)),
        }
    }

    /// Serves the first entry of an endpoint, or tells that nothing of it can be served: it isn't bound, or
    /// nothing waits on it. Each that serves lowers the weight of what waits, and takes places of the journal, of
    /// which there are so many: so an end comes to serving one after another.
    pub fn pick(&mut self, endpoint: u32, outbox: &mut Outbox) -> Result<Picked, WorldFault>
        ensures picked { (start : Start) (journal : Journal) → StandsFor start self.old journal →
            OnOk result (LeadsTo start (picked start endpoint journal) self.new journal outbox.old outbox.new) }
        ensures keeps { KeepsOn result self.old (λ start. picked start endpoint) }
        ensures idle { (start : Start) (journal : Journal) → StandsFor start self.old journal → head start (history_of start journal) endpoint ≡ None → result ≡ Ok Picked.Idle }
        ensures only_idle { (start : Start) (journal : Journal) → StandsFor start self.old journal → result ≡ Ok Picked.Idle → head start (history_of start journal) endpoint ≡ None }
        ensures lowers { (start : Start) (journal : Journal) → StandsFor start self.old journal → result ≡ Ok Picked.Served →
            weight (history_of start (picked start endpoint journal)) < weight (history_of start journal) }
        ensures places { result ≡ Ok Picked.Served → (self.old.places < self.new.places) × (self.new.places ≤ limit.MAX_PLACES) }
        ensures frames { self.new.frames ≡ self.old.frames }
        ensures conduct { Conducts result self.old self.new outbox.old outbox.new }
    {
        if self.spent {
            return Err(WorldFault::Spent);
        }
        let begun = outbox.len();
        match self.session.pick(endpoint, outbox) {
            Ok(served) => Ok(told(served)),
            Err(NoMemory) => Err(take_back(begun, outbox, &mut self.spent)),
        }
    }

    /// Serves all that can be served. Nothing waits then.
    pub fn drain(&mut self, outbox: &mut Outbox) -> Result<(), WorldFault>
        ensures drained { (start : Start) (journal : Journal) → StandsFor start self.old journal →
            OnOk result (LeadsTo start (drained start journal) self.new journal outbox.old outbox.new) }
        ensures none { (start : Start) (journal : Journal) → StandsFor start self.old journal →
            OnOk result (waiting (history_of start (drained start journal)) ≡ []) }
        ensures keeps { KeepsOn result self.old drained }
        ensures idle { (start : Start) (journal : Journal) → StandsFor start self.old journal → waiting (history_of start journal) ≡ [] → result ≡ Ok tt }
        ensures frames { self.new.frames ≡ self.old.frames }
        ensures conduct { Conducts result self.old self.new outbox.old outbox.new }
    {
        if self.spent {
            return Err(WorldFault::Spent);
        }
        let begun = outbox.len();
        if let Err(NoMemory) = self.session.drain(outbox) {
            return Err(take_back(begun, outbox, &mut self.spent));
        }
        Ok(())
    }

    /// On which endpoint the entry waits that is served next: the oldest of all that can be served, if there is
    /// one. A spent world tells none.
    pub fn next(&self) -> Option<u32>
        ensures next { (start : Start) (journal : Journal) → StandsFor start self.now journal → result ≡ option_map (λ sent. sent.endpoint) (next start (history_of start journal)) }
        ensures spent { self.now.spent ≡ true → result ≡ None }
    {
        if self.spent {
            return None;
        }
        self.session.next()
    }

    /// The same of those that wait on the endpoints of a server: none, too, where no server has that number.
    pub fn oldest(&self, server: u32) -> Option<u32>
        ensures oldest { (start : Start) (journal : Journal) → StandsFor start self.now journal → result ≡ option_map (λ sent. sent.endpoint) (oldest start (history_of start journal) server) }
        ensures spent { self.now.spent ≡ true → result ≡ None }
    {
        if self.spent {
            return None;
        }
        self.session.oldest(server)
    }

    /// How an endpoint stands.
    pub fn standing(&self, endpoint: u32) -> Standing
        ensures known { result ≡ known_standing self.now.known endpoint }
        ensures standing { (start : Start) (journal : Journal) → StandsFor start self.now journal → result ≡ standing_of start (history_of start journal) endpoint }
    {
        self.session.standing(endpoint)
    }

    /// How many servers there are.
    pub fn servers(&self) -> u32
        ensures { result ≡ self.now.queues.servers }
    {
        self.session.servers()
    }

    /// How many nodes of a server are kept: its root, those that names lead to, and those that the births of
    /// bound endpoints, watchers, and tokens that are held or waiting name. A spent world tells 0.
    pub fn kept(&self, server: u32) -> u32
        requires server { self.now.spent ≡ false → server < self.now.queues.servers }
        ensures kept { (start : Start) (journal : Journal) → StandsFor start self.now journal → result ≡ kept_in (view_behind start journal) server }
        ensures spent { self.now.spent ≡ true → result ≡ 0 }
    {
        if self.spent {
            return 0;
        }
        self.session.kept(server)
    }

    /// How many entries wait.
    pub fn waiting(&self) -> u32
        ensures count { result ≡ count self.now.queues }
        ensures waiting { (start : Start) (journal : Journal) → StandsFor start self.now journal → result ≡ length (waiting (history_of start journal)) }
    {
        self.session.waiting()
    }

    /// How many frames were accepted. A world that isn't spent stands for a journal, wherever it comes from.
    pub fn frames(&self) -> u64
        ensures frames { result ≡ self.now.frames }
        ensures stands { StandsForOne self.now }
    {
        self.frames
    }
}

/// What a Pick tells of whether it served an entry.
fn told(served: bool) -> Picked
    ensures idle { served ≡ false → result ≡ Picked.Idle }
    ensures only_idle { result ≡ Picked.Idle → served ≡ false }
{
    if served { Picked::Served } else { Picked::Idle }
}

/// Ends a call for which memory was wanting: what it wrote is taken back, and its world is spent.
fn take_back(begun: usize, outbox: &mut Outbox, spent: &mut bool) -> WorldFault
    ensures fault { result ≡ WorldFault.NoMemory }
    ensures back { outbox.new ≡ take begun outbox.old }
    ensures spent { spent.new ≡ true }
{
    outbox.truncate(begun);
    *spent = true;
    WorldFault::NoMemory
}
