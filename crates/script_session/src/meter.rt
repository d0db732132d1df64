//! A session whose output is tallied.

ghost use Rattle.std.specs.Prelude.{◌≡◌, ◌<◌, ◌≤◌, ◌+◌, ◌*◌, ◌^◌, ℕ, List, [], IfOk, OnOk, length};
ghost use Rattle.link_frames.specs.Frames.{IsFrame};
ghost use Rattle.link_frames.specs.Views.{frame_of};
ghost use Rattle.link_frames.specs.declared.kinds.Side.TheVariants as side;
ghost use Rattle.vfs_journal.specs.Entries.{Journal};
ghost use Rattle.vfs_journal.specs.Output.{frames_behind};
ghost use Rattle.vfs_journal.specs.Session.{drained, session, steps};
ghost use Rattle.vfs_journal.specs.Starts.{Start as TheStart, start_of};
ghost use Rattle.vfs_script.specs.Scripts.{frames_of};
ghost use Rattle.vfs_world.specs.World.{StandsFor};
ghost use Rattle.script_session.specs.Measured.{Measures, output_frames};
ghost use Rattle.script_session.specs.Steps.{IsScript};
ghost use Rattle.script_session.specs.Tallies.{Metered, Tallies};

use crate::measuring::Measured;
use crate::tally::Tally;
use fidl_names::{MAX_FRAMES, NoMemory};
use fidl_wire::Ordinals;
use link_frames::{FrameView, Mode, Outbox, Reading, Side, frame_at};
use session_start::Start;
use std::alloc::Global;
use vfs_script::Script;
use vfs_world::World;

/// A session over a tree, and the tally of what it wrote.
#[derive(Drop)]
pub(crate) struct Meter {
    pub(crate) world: World,
    pub(crate) mode: Mode,
    pub(crate) outbox: Outbox,
    pub(crate) tally: Tally,
}

impl Meter {
    /// Nothing was heard yet.
    pub(crate) fn new(
        alloc: Global,
        ordinals: Ordinals,
        start: &Start,
        mode: Mode,
    ) -> Result<Meter, NoMemory>
        ensures mode { IfOk result (λ meter. meter.mode ≡ mode) }
        ensures stands { IfOk result (λ meter. StandsFor (start_of start.now) meter.world []) }
        ensures frames { IfOk result (λ meter. meter.world.frames ≡ 0) }
        ensures tally { IfOk result (λ meter. Tallies [] meter.tally) }
        ensures few { IfOk result (λ meter. meter.tally.frames ≡ 0) }
        ensures small { IfOk result (λ meter. meter.tally.bytes ≡ 0) }
    {
        let world = World::new(alloc, ordinals, start)?;
        Ok(Meter {
            world,
            mode,
            outbox: Outbox::new(alloc),
            tally: Tally::new(),
        })
    }

    /// Hears a script to its end, where these bytes are its frames, and tells what was written for
    /// it.
    pub(crate) fn hear_script(
        &mut self,
        script: &Script,
        bytes: &[u8],
    ) -> Result<Measured, NoMemory>
        requires bytes { bytes.now ≡ script.now.bytes }
        requires script { (text : List ℕ) × IsScript text script.now }
        requires frames { self.old.world.frames ≡ 0 }
        requires few { self.old.tally.frames ≡ 0 }
        requires small { self.old.tally.bytes ≡ 0 }
        ensures { (start : TheStart) (text : List ℕ) → IsScript text script.now → Metered start [] self.old.world self.old.tally →
            IfOk result (Measures (output_frames start self.old.mode text)) }
    {
        self.hear_all(script, bytes)?;
        self.end()
    }

    /// Hears each frame of a script, where these bytes are its frames.
    fn hear_all(&mut self, script: &Script, bytes: &[u8]) -> Result<(), NoMemory>
        requires bytes { bytes.now ≡ script.now.bytes }
        requires script { (text : List ℕ) × IsScript text script.now }
        requires frames { self.old.world.frames ≡ 0 }
        requires few { self.old.tally.frames ≡ 0 }
        requires small { self.old.tally.bytes ≡ 0 }
        ensures metered { (start : TheStart) (text : List ℕ) → IsScript text script.now → Metered start [] self.old.world self.old.tally →
            OnOk result (Metered start (session start self.old.mode (frames_of text)) self.new.world self.new.tally) }
        ensures few { OnOk result (self.new.tally.frames < 2 ^ 126) }
        ensures small { OnOk result (self.new.tally.bytes < 2 ^ 126) }
    {
        let mut rest = bytes;
        for _ in 0..script.len() {
            let Reading::Whole { frame, size } = frame_at(Side::ToServers, rest) else {
                unreachable!();
            };
            self.hear_one(frame)?;
            rest = &rest[size..];
        }
        Ok(())
    }

    /// Hears a frame, and tallies what is written for it.
    fn hear_one(&mut self, frame: FrameView<'_>) -> Result<(), NoMemory>
        requires frame { IsFrame side.ToServers (frame_of frame) }
        requires accepted { self.old.world.frames < MAX_FRAMES }
        requires few { self.old.tally.frames < 2 ^ 126 }
        requires small { self.old.tally.bytes < 2 ^ 126 }
        ensures metered { (start : TheStart) (journal : Journal) → Metered start journal self.old.world self.old.tally →
            OnOk result (Metered start (steps start self.old.mode journal (frame_of frame.entry)) self.new.world self.new.tally) }
        ensures mode { self.new.mode ≡ self.old.mode }
        ensures frames { OnOk result (self.new.world.frames ≡ self.old.world.frames + 1) }
        ensures few { OnOk result (self.new.tally.frames ≤ self.old.tally.frames + 2 ^ 63) }
        ensures small { OnOk result (self.new.tally.bytes ≤ self.old.tally.bytes + 2 ^ 63) }
    {
        self.outbox.clear();
        self.world.hear(self.mode, frame, &mut self.outbox)?;
        self.tally.take(self.outbox.as_bytes());
        Ok(())
    }

    /// Serves all that waits, and tells what was written from the beginning on.
    fn end(&mut self) -> Result<Measured, NoMemory>
        requires few { self.old.tally.frames < 2 ^ 126 }
        requires small { self.old.tally.bytes < 2 ^ 126 }
        ensures { (start : TheStart) (journal : Journal) → Metered start journal self.old.world self.old.tally →
            IfOk result (Measures (frames_behind start (drained start journal))) }
    {
        self.outbox.clear();
        self.world.drain(&mut self.outbox)?;
        self.tally.take(self.outbox.as_bytes());
        Ok(self.tally.finish())
    }
}
