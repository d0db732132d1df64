ghost use Rattle.std.specs.Prelude.{◌≡◌, ◌<◌, ◌+◌, List, [], ◌∷◌, IfOk, OnOk};
ghost use Rattle.link_frames.specs.Frames.{Frame, IsFrame};
ghost use Rattle.link_frames.specs.Views.{frame_of};
ghost use Rattle.link_frames.specs.declared.kinds.Side.TheVariants as side;
ghost use Rattle.session_start.specs.Accepted.{HasFilesOfBytes};
ghost use Rattle.vfs_journal.specs.Starts.{Start as TheStart, start_of};
ghost use Rattle.run_status.specs.Causes.{AfterNames};
ghost use Rattle.run_status.specs.Outside.{files_told, streams_told};
ghost use Rattle.run_status.specs.Reads.{ReadsOnly};
ghost use Rattle.link_session.specs.Serving.{HeardOne};
ghost use Rattle.link_session.specs.Session.{SessionAnswers};
ghost use Rattle.run_status.specs.FileCauses.{AfterTree};
ghost use Rattle.vfs_program.specs.TreeSession.{tree_course, StandsBehind};

use fidl_names::{MAX_FRAMES, NoMemory};
use fidl_wire::Ordinals;
use host_io::{Files, Sink, Source};
use link_frames::{FrameView, Mode, Outbox, Side};
use link_session::{Input, Session, run};
use run_status::{Status, ordinals, read_start};
use session_start::Start;
use std::alloc::Global;
use vfs_world::World;

/// Serves the tree of this name over source and sink, in this mode.
pub(crate) fn serve_tree<F: Files, S: Source, K: Sink>(
    alloc: Global,
    tree: &str,
    mode: Mode,
    files: &mut F,
    source: &mut S,
    sink: &mut K,
) -> Status
    ensures answers { let told = files_told F.told F.faults F.overlong in
        let streams = streams_told S.left S.last S.faults K.written K.flushed K.faults in
        let untouched = (source.new ≡ source.old) × (sink.new ≡ sink.old) in
        AfterNames untouched (AfterTree tree.now (told files.old) (told files.new) untouched
        (λ lists. SessionAnswers side.ToServers (tree_course (start_of lists) mode)
        (streams source.old sink.old) (streams source.new sink.new) (sink.new ≡ sink.old))) result }
    ensures reads { ReadsOnly F.reads (tree.now ∷ []) files.old files.new }
{
    let ordinals = match ordinals() {
        Ok(ordinals) => ordinals,
        Err(collision) => return collision,
    };
    let start = match read_start(alloc, tree, files) {
        Ok(start) => start,
        Err(status) => return status,
    };
    let Ok(mut input) = Input::new(alloc) else {
        return Status::NoMemory;
    };
    let Ok(mut session) = TreeSession::new(alloc, ordinals, &start, mode) else {
        return Status::NoMemory;
    };
    run(&mut session, &mut input, source, sink)
}

/// The session over a tree: its world, its mode, and the frames that are to be written.
#[derive(Drop)]
struct TreeSession {
    world: World,
    mode: Mode,
    outbox: Outbox,
}

impl TreeSession {
    /// The session of an accepted start, before its first frame.
    fn new(
        alloc: Global,
        ordinals: Ordinals,
        start: &Start,
        mode: Mode,
    ) -> Result<TreeSession, NoMemory>
        ensures bytes { HasFilesOfBytes start.now }
        ensures mode { IfOk result (λ s. s.mode ≡ mode) }
        ensures stands { IfOk result (λ s. StandsBehind (start_of start.now) mode s.world []) }
        ensures empty { IfOk result (λ s. s.outbox ≡ []) }
        ensures frames { IfOk result (λ s. s.world.frames ≡ 0) }
    {
        let world = World::new(alloc, ordinals, start)?;
        Ok(TreeSession {
            world,
            mode,
            outbox: Outbox::new(alloc),
        })
    }
}

impl Session for TreeSession {
    ghost use Rattle.std.specs.Prelude.{◌≡◌};
    ghost use Rattle.link_frames.specs.declared.kinds.Side.TheVariants as side;
    ghost use Rattle.vfs_journal.specs.Starts.{Start as TheStart};
    ghost use Rattle.vfs_program.specs.TreeSession.{tree_course, StandsBehind};

    ghost side = { side.ToServers };

    ghost stands = { λ s course frames.
        (start : TheStart) × (course ≡ tree_course start s.mode) × StandsBehind start s.mode s.world frames };

    ghost holds = { λ s. s.outbox };

    ghost heard = { λ s. s.world.frames };

    ghost ready = { λ s. Unit {0} };

    fn side(&self) -> Side {
        Side::ToServers
    }

    fn hear(&mut self, frame: FrameView<'_>) -> Result<(), NoMemory> {
        hear(&mut self.world, self.mode, frame, &mut self.outbox)
    }

    fn finish(&mut self) -> Result<(), NoMemory> {
        self.world.drain(&mut self.outbox)?;
        Ok(())
    }

    fn held(&self) -> &[u8] {
        self.outbox.as_bytes()
    }

    fn clear(&mut self) {
        self.outbox.clear();
    }
}

/// Hears one frame.
fn hear(
    world: &mut World,
    mode: Mode,
    frame: FrameView<'_>,
    outbox: &mut Outbox,
) -> Result<(), NoMemory>
    requires frame { IsFrame side.ToServers (frame_of frame) }
    requires few { world.old.frames < MAX_FRAMES }
    ensures heard { (start : TheStart) (before : List Frame) → StandsBehind start mode world.old before →
        OnOk result (HeardOne (tree_course start mode) (StandsBehind start mode world.new) before (frame_of frame.entry) outbox.old outbox.new) }
    ensures frames { OnOk result (world.new.frames ≡ world.old.frames + 1) }
{
    world.hear(mode, frame, outbox)?;
    Ok(())
}
