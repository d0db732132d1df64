//! A frame that arrives: a refused one is answered, and for an admitted one what it asks is done.

ghost use Rattle.std.specs.Prelude.{◌≡◌, ◌-◌};
ghost use Rattle.fidl_names.specs.declared.limits.TheConstants as limit;
ghost use Rattle.link_frames.specs.Frames.{IsFrame};
ghost use Rattle.link_frames.specs.Numbers.{word_in};
ghost use Rattle.link_frames.specs.Views.{frame_of, handle_numbers};
ghost use Rattle.link_frames.specs.declared.kinds.Side.TheVariants as side;
ghost use Rattle.vfs_journal.specs.Handles.{AreByNumber, numbers_of};
ghost use Rattle.vfs_journal.specs.Output.{Begins};
ghost use Rattle.vfs_journal.specs.Session.{arrives, drained, steps};
ghost use Rattle.vfs_world.specs.Running.{IsRunning, RunsOnByAFrame, whole};
ghost use Rattle.vfs_world.specs.World.{World};
ghost use Rattle.vfs_world.specs.Arrivals.{Hears, IsAdmitted, IsFree, LeadsOn, LeavesNothing, ReachesOn, RunsOnAdmitted};

use crate::session::Session;
use fidl_names::{Handle, NoMemory};
use link_admission::AdmitFault;
use link_frames::{FrameKind, FrameView, Mode, Outbox, word_in};
use message_queues::{Lent, Parcel, handles_in};

/// Accepts a frame.
fn arrive(session: &mut Session, frame: FrameView<'_>, outbox: &mut Outbox) -> Result<(), NoMemory>
    requires frame { IsFrame side.ToServers (frame_of frame) }
    requires running { IsRunning limit.MAX_PLACES (whole session.old) }
    ensures arrived { LeadsOn result (whole session.old) (λ start journal. arrives start journal (frame_of frame.entry)) (whole session.new) outbox.old outbox.new }
    ensures running { RunsOnByAFrame result (whole session.old) (whole session.new) }
    ensures begins { Begins outbox.old outbox.new }
{
    match session.admit(frame) {
        Ok(()) => perform(session, frame, outbox),
        Err(AdmitFault::Refused(why)) => session.refuse(frame.endpoint, why, outbox),
        Err(AdmitFault::NoMemory) => Err(NoMemory),
    }
}

/// Hears a frame: accepts it, and in mode auto serves all that can be served then.
pub(crate) fn hear(
    session: &mut Session,
    mode: Mode,
    frame: FrameView<'_>,
    outbox: &mut Outbox,
) -> Result<(), NoMemory>
    requires frame { IsFrame side.ToServers (frame_of frame) }
    requires running { IsRunning (limit.MAX_PLACES - limit.FRAME_PLACES) (whole session.old) }
    ensures heard { LeadsOn result (whole session.old) (λ start journal. steps start mode journal (frame_of frame.entry)) (whole session.new) outbox.old outbox.new }
    ensures none { mode ≡ Mode.Auto → LeavesNothing result (whole session.old) (λ start journal. steps start mode journal (frame_of frame.entry)) }
    ensures running { RunsOnByAFrame result (whole session.old) (whole session.new) }
    ensures begins { Begins outbox.old outbox.new }
{
    match mode {
        // Most frames ask for parts of files, and have a way of their own.
        Mode::Auto => match session.hear_read(frame, outbox) {
            Some(heard) => heard,
            None => hear_out(session, frame, outbox),
        },
        Mode::Given => arrive(session, frame, outbox),
    }
}

/// Accepts a frame, and serves all that can be served then.
fn hear_out(
    session: &mut Session,
    frame: FrameView<'_>,
    outbox: &mut Outbox,
) -> Result<(), NoMemory>
    requires frame { IsFrame side.ToServers (frame_of frame) }
    requires running { IsRunning (limit.MAX_PLACES - limit.FRAME_PLACES) (whole session.old) }
    ensures heard { LeadsOn result (whole session.old) (λ start journal. drained start (arrives start journal (frame_of frame.entry))) (whole session.new) outbox.old outbox.new }
    ensures none { LeavesNothing result (whole session.old) (λ start journal. drained start (arrives start journal (frame_of frame.entry))) }
    ensures running { RunsOnByAFrame result (whole session.old) (whole session.new) }
    ensures begins { Begins outbox.old outbox.new }
{
    reach(session, frame, outbox)?;
    session.drain(outbox)
}

/// Accepts a frame, on the way to a drain: what can be served at once doesn't wait.
fn reach(session: &mut Session, frame: FrameView<'_>, outbox: &mut Outbox) -> Result<(), NoMemory>
    requires frame { IsFrame side.ToServers (frame_of frame) }
    requires running { IsRunning (limit.MAX_PLACES - limit.FRAME_PLACES) (whole session.old) }
    ensures reached { ReachesOn result (whole session.old) (λ start journal. arrives start journal (frame_of frame.entry)) (whole session.new) outbox.old outbox.new }
    ensures running { RunsOnByAFrame result (whole session.old) (whole session.new) }
    ensures begins { Begins outbox.old outbox.new }
{
    match session.free_server(frame) {
        Some(server) => serve_at_once(session, server, frame, outbox),
        None => arrive(session, frame, outbox),
    }
}

/// Serves what a frame sends, which waits nowhere, or answers that it is refused. It takes a place.
fn serve_at_once(
    session: &mut Session,
    server: u32,
    frame: FrameView<'_>,
    outbox: &mut Outbox,
) -> Result<(), NoMemory>
    requires frame { IsFrame side.ToServers (frame_of frame) }
    requires running { IsRunning (limit.MAX_PLACES - limit.FRAME_PLACES) (whole session.old) }
    requires free { IsFree (frame_of frame) server (whole session.old) }
    ensures reached { ReachesOn result (whole session.old) (λ start journal. arrives start journal (frame_of frame.entry)) (whole session.new) outbox.old outbox.new }
    ensures running { RunsOnByAFrame result (whole session.old) (whole session.new) }
    ensures begins { Begins outbox.old outbox.new }
{
    match session.admit_free(server, frame) {
        Ok(()) => serve_admitted(session, server, frame, outbox),
        Err(AdmitFault::Refused(why)) => session.refuse(frame.endpoint, why, outbox),
        Err(AdmitFault::NoMemory) => Err(NoMemory),
    }
}

/// Serves what an admitted frame sends, which waits nowhere. It takes a place. A list of at most one handle, as
/// most frames have, takes no memory.
fn serve_admitted(
    session: &mut Session,
    server: u32,
    frame: FrameView<'_>,
    outbox: &mut Outbox,
) -> Result<(), NoMemory>
    requires frame { IsFrame side.ToServers (frame_of frame) }
    requires heard { Hears (limit.MAX_PLACES - limit.FRAME_PLACES) (frame_of frame) (whole session.old) }
    requires free { IsFree (frame_of frame) server (whole session.old) }
    ensures reached { (before : World) → IsAdmitted before (frame_of frame.entry) (whole session.old) →
        ReachesOn result before (λ start journal. arrives start journal (frame_of frame.entry)) (whole session.new) outbox.old outbox.new }
    ensures running { RunsOnAdmitted result (frame_of frame.entry) (whole session.old) (whole session.new) }
    ensures begins { Begins outbox.old outbox.new }
{
    match frame.handles.len() {
        0 => serve_with(session, server, frame, &[], outbox),
        1 => {
            let handle = Handle::with_number(frame.handles.at(0));
            serve_with(session, server, frame, &[handle], outbox)
        }
        _ => {
            let handles = handles_in(session.alloc(), frame.handles)?;
            serve_with(session, server, frame, &handles, outbox)
        }
    }
}

/// Serves what an admitted frame with these handles sends, which waits nowhere. It takes a place.
#[inline(always)]
fn serve_with(
    session: &mut Session,
    server: u32,
    frame: FrameView<'_>,
    handles: &[Handle],
    outbox: &mut Outbox,
) -> Result<(), NoMemory>
    requires frame { IsFrame side.ToServers (frame_of frame) }
    requires heard { Hears (limit.MAX_PLACES - limit.FRAME_PLACES) (frame_of frame) (whole session.old) }
    requires free { IsFree (frame_of frame) server (whole session.old) }
    requires handles { numbers_of handles.now ≡ handle_numbers frame.handles }
    requires by_number { AreByNumber handles.now }
    ensures reached { (before : World) → IsAdmitted before (frame_of frame.entry) (whole session.old) →
        ReachesOn result before (λ start journal. arrives start journal (frame_of frame.entry)) (whole session.new) outbox.old outbox.new }
    ensures running { RunsOnAdmitted result (frame_of frame.entry) (whole session.old) (whole session.new) }
    ensures begins { Begins outbox.old outbox.new }
{
    let sent = Lent::of_frame(session.take_place(), frame, handles);
    session.serve_taken(frame.endpoint, server, &sent, outbox)
}

/// Does what an admitted frame asks, behind its admission.
fn perform(session: &mut Session, frame: FrameView<'_>, outbox: &mut Outbox) -> Result<(), NoMemory>
    requires frame { IsFrame side.ToServers (frame_of frame) }
    requires heard { Hears limit.MAX_PLACES (frame_of frame) (whole session.old) }
    ensures arrived { (before : World) → IsAdmitted before (frame_of frame.entry) (whole session.old) →
        LeadsOn result before (λ start journal. arrives start journal (frame_of frame.entry)) (whole session.new) outbox.old outbox.new }
    ensures running { RunsOnAdmitted result (frame_of frame.entry) (whole session.old) (whole session.new) }
    ensures begins { Begins outbox.old outbox.new }
{
    match frame.kind {
        FrameKind::Message => session.send_message(frame),
        FrameKind::Close => session.send(frame.endpoint, Parcel::hang_up()),
        FrameKind::Turn => {
            session.turn(frame.endpoint, word_in(frame.bytes), outbox)?;
            Ok(())
        }
        FrameKind::Pick => {
            session.pick(frame.endpoint, outbox)?;
            Ok(())
        }
        FrameKind::Refused => unreachable!(),
    }
}
