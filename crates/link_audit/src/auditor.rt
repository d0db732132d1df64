//! The auditor, record by record.

ghost use Rattle.std.specs.Prelude.{◌≡◌, ◌≢◌, ◌<◌, ◌≤◌, List, [], ◌∷◌, IfOk, true, false, drop, length};
ghost use Rattle.fidl_names.specs.declared.limits.TheConstants as limit;
ghost use Rattle.link_frames.specs.Frames.{Frame, IsFrame, spelling};
ghost use Rattle.link_frames.specs.Views.{frame_of};
ghost use Rattle.link_frames.specs.declared.kinds.Side.TheVariants as side;
ghost use Rattle.session_start.specs.Accepted.{AreAccepted, HasFilesOfBytes};
ghost use Rattle.vfs_journal.specs.Starts.{Start as TheStart, start_of};
ghost use Rattle.link_audit.specs.Auditing.{Audits, Judges};
ghost use Rattle.link_audit.specs.Fronts.{LiesSpelled, record_of};
ghost use Rattle.link_audit.specs.Records.{IsRecord, Record as TheRecord, comes_in, ends, goes_out, served};

use crate::records::Record;
use crate::verdicts::Why;
use fidl_names::NoMemory;
use fidl_wire::Ordinals;
use link_frames::{FrameView, Outbox};
use session_start::Start;
use std::alloc::Global;
use std::marker::Model;
use vfs_world::{Picked, World};

/// A world that does what the records say, and what it wrote and is still to go out.
#[derive(Drop)]
pub(crate) struct Auditor {
    world: World,
    /// What the world wrote last. It is forgotten when all went out and the world writes again.
    outbox: Outbox,
    /// How many of its last bytes are still to go out.
    left: usize,
}

impl Model for Auditor {
    ghost use Rattle.std.specs.Prelude.{◌≤◌, ◌-◌, drop, length};
    ghost use Rattle.std.specs.Coded.{codes};
    ghost use Rattle.vfs_world.specs.Codes.{world_code};
    ghost use Rattle.link_audit.specs.Auditing.{Auditing};

    ghost Value = { Auditing };

    ghost coded = { Prim.hlevel (codes, world_code) };

    ghost view = { λ a. record { world = a.world; owed = drop (length a.outbox - a.left) a.outbox } };

    ghost invariant = { λ a. a.left ≤ length a.outbox };
}

impl Auditor {
    /// The auditor of an accepted start, before the first record.
    pub(crate) fn new(alloc: Global, ordinals: Ordinals, start: &Start) -> Result<Auditor, NoMemory>
        ensures bytes { HasFilesOfBytes start.now }
        ensures audits { IfOk result (Audits (start_of start.now) []) }
    {
        let world = World::new(alloc, ordinals, start)?;
        Ok(Auditor {
            world,
            outbox: Outbox::new(alloc),
            left: 0,
        })
    }

    /// Does what a record says, or tells the first that is wrong with it.
    pub(crate) fn judge(&mut self, one: Record<'_>) -> Result<Option<Why>, NoMemory>
        requires sound { IsRecord (record_of one) }
        requires spelled { LiesSpelled one }
        requires few { self.old.world.frames < limit.MAX_FRAMES }
        ensures { (start : TheStart) (before : List TheRecord) → Audits start before self.old →
            IfOk result (Judges start before (record_of one.entry) self.new) }
    {
        match one {
            Record::In(frame) => self.hear(frame),
            Record::Served(endpoint) => self.serve(endpoint),
            Record::Out { frame: _, spelled } => Ok(self.pass(spelled)),
            Record::End => Ok(self.end()),
        }
    }

    /// Hears a frame, if all went out before it.
    fn hear(&mut self, frame: FrameView<'_>) -> Result<Option<Why>, NoMemory>
        requires frame { IsFrame side.ToServers (frame_of frame) }
        requires few { self.old.world.frames < limit.MAX_FRAMES }
        ensures { (start : TheStart) (before : List TheRecord) → Audits start before self.old →
            IfOk result (Judges start before (comes_in (frame_of frame.entry)) self.new) }
    {
        if self.owes() {
            return Ok(Some(Why::MissingFrame));
        }
        self.outbox.clear();
        self.left = 0;
        self.world.accept(frame, &mut self.outbox)?;
        self.left = self.outbox.len();
        Ok(None)
    }

    /// Serves the first entry of an endpoint, if all went out before it and there is one.
    fn serve(&mut self, endpoint: u32) -> Result<Option<Why>, NoMemory>
        ensures { (start : TheStart) (before : List TheRecord) → Audits start before self.old →
            IfOk result (Judges start before (served endpoint) self.new) }
    {
        if self.owes() {
            return Ok(Some(Why::MissingFrame));
        }
        self.outbox.clear();
        self.left = 0;
        if let Picked::Idle = self.world.pick(endpoint, &mut self.outbox)? {
            return Ok(Some(Why::NothingToServe));
        }
        self.left = self.outbox.len();
        Ok(None)
    }

    /// Lets a frame go out that is spelled so, if it is the next.
    fn pass(&mut self, spelled: &[u8]) -> Option<Why>
        ensures { (start : TheStart) (before : List TheRecord) (frame : Frame) → Audits start before self.old → IsFrame side.Any frame →
            spelled.now ≡ spelling frame → Judges start before (goes_out frame) self.new result }
    {
        if !self.owed().starts_with(spelled) {
            return Some(Why::WrongFrame);
        }
        self.let_go(spelled.len());
        None
    }

    /// Ends, if all went out and nothing waits.
    fn end(&self) -> Option<Why>
        ensures { (start : TheStart) (before : List TheRecord) → Audits start before self.now → Judges start before ends self.now result }
    {
        if self.owes() {
            return Some(Why::MissingFrame);
        }
        if self.world.waiting() > 0 {
            return Some(Why::StillWaiting);
        }
        None
    }

    /// Whether frames are still to go out.
    fn owes(&self) -> bool
        ensures some { result ≡ true → self.now.owed ≢ [] }
        ensures none { result ≡ false → self.now.owed ≡ [] }
    {
        !self.owed().is_empty()
    }

    /// The bytes that are still to go out.
    fn owed(&self) -> &[u8]
        ensures { result.now ≡ self.now.owed }
    {
        let bytes = self.outbox.as_bytes();
        &bytes[bytes.len() - self.left..]
    }

    /// Lets so many bytes go out.
    fn let_go(&mut self, count: usize)
        requires { count ≤ length self.old.owed }
        ensures { self.new ≡ record self.old { owed = drop count self.old.owed } }
    {
        self.left -= count;
    }
}
