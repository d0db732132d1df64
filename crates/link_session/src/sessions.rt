ghost use Rattle.std.specs.Prelude.{◌≡◌, ◌≤◌, ◌<◌, ◌+◌, ◌⊎◌, ℕ, IsTrue, List, [], length, IfOk, OnOk, OnErr};
ghost use Rattle.fidl_names.specs.declared.limits.TheConstants as limit;
ghost use Rattle.host_io.specs.Causes.{HasCause};
ghost use Rattle.host_io.specs.Streams.{AppendsPart, IsFlushed};
ghost use Rattle.link_frames.specs.Frames.{Frame, IsFrame};
ghost use Rattle.link_frames.specs.Views.{frame_of};
ghost use Rattle.link_frames.specs.declared.kinds.Side.{Side};
ghost use Rattle.run_status.specs.Outside.{streams_told};
ghost use Rattle.run_status.specs.Texts.{PassedOn};
ghost use Rattle.link_session.specs.Serving.{IsGrowing, Passes, HeardOne, HeardEnd, HeardPart, IsServing, HasWriteCause, Leaves, Finishes};
ghost use Rattle.link_session.specs.Session.{Course, SessionAnswers};

use crate::input::Input;
use crate::pump::{Ended, next_piece};
use fidl_names::{MAX_PIECE, NoMemory};
use host_io::{Failed, Sink, Source, write_whole};
use link_frames::{FrameReason, FrameView, Reading, Side, frame_at};
use run_status::Status;

/// A session, frame by frame. What is written for its frames is held back, until it is passed on.
pub trait Session {
    /// The side that its frames come to.
    ghost side: { Side };

    /// It stands behind these frames of a session of this course.
    ghost stands: { Self → Course → List Frame → Type 0 };

    /// What is held back.
    ghost holds: { Self → List ℕ };

    /// How many frames were heard, at least.
    ghost heard: { Self → ℕ };

    /// It can hear a frame.
    ghost ready: { Self → Type 0 };

    /// The side that its frames come to.
    fn side(&self) -> Side
        ensures { result ≡ side };

    /// Hears one frame.
    fn hear(&mut self, frame: FrameView<'_>) -> Result<(), NoMemory>
        requires frame { IsFrame side (frame_of frame) }
        requires ready { ready self.old }
        requires room { length (holds self.old) < limit.MAX_PIECE }
        requires few { heard self.old < limit.MAX_INPUT }
        ensures heard { (course : Course) (before : List Frame) → stands self.old course before →
            OnOk result (HeardOne course (stands self.new course) before (frame_of frame.entry) (holds self.old) (holds self.new)) }
        ensures count { OnOk result (heard self.new ≤ heard self.old + 1) }
        ensures ready { OnOk result (ready self.new) }
        ensures memory { (course : Course) (before : List Frame) → stands self.old course before → OnErr result (IsTrue course.starves) };

    /// Hears that no more frames come.
    fn finish(&mut self) -> Result<(), NoMemory>
        ensures heard { (course : Course) (frames : List Frame) → stands self.old course frames →
            OnOk result (HeardEnd course frames (holds self.old) (holds self.new)) }
        ensures memory { (course : Course) (frames : List Frame) → stands self.old course frames → OnErr result (IsTrue course.starves) };

    /// What is held back.
    fn held(&self) -> &[u8]
        ensures { result.now ≡ holds self.now };

    /// Forgets what was held back, since it was written.
    fn clear(&mut self)
        ensures empty { holds self.new ≡ [] }
        ensures stands { (course : Course) (frames : List Frame) → stands self.old course frames → stands self.new course frames }
        ensures count { heard self.new ≡ heard self.old }
        ensures ready { ready self.old → ready self.new };
}

/// What a piece of the input led to.
pub enum Served {
    /// Each whole frame was heard; so many bytes these were, and what follows has begun a frame.
    Rest(usize),
    /// Behind so many bytes stands a bad fixed part.
    Bad(usize, FrameReason),
    /// The output couldn't be written.
    Failed,
}

/// Reads frames until the input ends or something stops the session. What is written for the whole
/// frames of a piece is passed on before the next is read.
pub fn run<H: Session, S: Source, K: Sink>(
    session: &mut H,
    input: &mut Input,
    source: &mut S,
    sink: &mut K,
) -> Status
    requires input { input.old ≡ [] }
    requires ready { H.ready session.old }
    requires empty { H.holds session.old ≡ [] }
    requires count { H.heard session.old ≡ 0 }
    ensures { (course : Course) → IsGrowing course → H.stands session.old course [] → SessionAnswers H.side course
        (streams_told S.left S.last S.faults K.written K.flushed K.faults source.old sink.old)
        (streams_told S.left S.last S.faults K.written K.flushed K.faults source.new sink.new)
        (sink.new ≡ sink.old) result }
{
    let mut taken = 0;
    loop {
        match next_piece(input, source, taken) {
            Ok(now) => taken = now,
            Err(Ended::Failed) => return Status::ReadFault,
            Err(Ended::Whole) => return finish(session, sink, Status::Done),
            Err(Ended::Inside { at }) => return finish(session, sink, Status::Truncated { at }),
            Err(Ended::TooLong) => return finish(session, sink, Status::InputTooLong),
        }
        match serve(session, input.bytes(), sink) {
            Ok(Served::Rest(at)) => {
                if let Err(Failed) = pass_on(session, sink) {
                    return Status::WriteFault;
                }
                input.drop_front(at);
            }
            Ok(Served::Bad(at, reason)) => {
                let rest = input.bytes().len() - at;
                let at = taken - rest as u64;
                return finish(session, sink, Status::BadFrame { at, reason });
            }
            Ok(Served::Failed) => return Status::WriteFault,
            Err(NoMemory) => return Status::NoMemory,
        }
    }
}

/// Hears each whole frame at the front of the bytes, in order. What is written for them goes to the
/// sink, or is held back.
fn serve<H: Session, K: Sink>(
    session: &mut H,
    bytes: &[u8],
    sink: &mut K,
) -> Result<Served, NoMemory>
    requires ready { H.ready session.old }
    requires empty { H.holds session.old ≡ [] }
    requires few { H.heard session.old + length bytes.now ≤ limit.MAX_INPUT }
    ensures served { (course : Course) (before : List Frame) → H.stands session.old course before →
        IfOk result (IsServing H.side course (H.stands session.new course) before bytes.now
        (K.written sink.old) (K.written sink.new) (H.holds session.new)) }
    ensures starved { (course : Course) (before : List Frame) → H.stands session.old course before →
        OnErr result (IsTrue course.starves × HeardPart H.side course before bytes.now (K.written sink.old) (K.written sink.new)) }
    ensures leaves { IfOk result (Leaves H.side bytes.now (H.heard session.old) (H.heard session.new)) }
    ensures ready { OnOk result (H.ready session.new) }
    ensures unflushed { K.flushed sink.new ≡ K.flushed sink.old }
    ensures cause { IfOk result (HasWriteCause (K.faults sink.old) (K.faults sink.new)) }
    ensures stays { OnErr result (K.faults sink.new ≡ K.faults sink.old) }
{
    let mut at = 0;
    loop {
        match frame_at(session.side(), &bytes[at..]) {
            Reading::Whole { frame, size } => {
                if let Err(NoMemory) = session.hear(frame) {
                    return Err(NoMemory);
                }
                if let Err(Failed) = make_room(session, sink) {
                    return Ok(Served::Failed);
                }
                at += size;
            }
            Reading::NotWhole => return Ok(Served::Rest(at)),
            Reading::Bad(reason) => return Ok(Served::Bad(at, reason)),
        }
    }
}

/// Where a large piece is held back all of it is written, so that no more than that is held behind
/// a frame.
fn make_room<H: Session, K: Sink>(session: &mut H, sink: &mut K) -> Result<(), Failed>
    ensures passed { OnOk result (Passes (K.written sink.old) (K.written sink.new) (H.holds session.old) (H.holds session.new)) }
    ensures bounded { OnOk result (length (H.holds session.new) < limit.MAX_PIECE) }
    ensures part { OnErr result (AppendsPart (K.written sink.old) (K.written sink.new) (H.holds session.old)) }
    ensures unflushed { K.flushed sink.new ≡ K.flushed sink.old }
    ensures stands { (course : Course) (frames : List Frame) → H.stands session.old course frames → H.stands session.new course frames }
    ensures count { H.heard session.new ≡ H.heard session.old }
    ensures ready { H.ready session.old → H.ready session.new }
    ensures cause { HasCause (K.faults sink.old) (K.faults sink.new) result }
{
    if session.held().len() < MAX_PIECE {
        return Ok(());
    }
    write_whole(sink, session.held())?;
    session.clear();
    Ok(())
}

/// Writes what is held back, and passes on all output.
fn pass_on<H: Session, K: Sink>(session: &mut H, sink: &mut K) -> Result<(), Failed>
    ensures whole { OnOk result (PassedOn (K.written sink.old) (K.written sink.new) (H.holds session.old) (K.flushed sink.new)) }
    ensures empty { OnOk result (H.holds session.new ≡ []) }
    ensures part { OnErr result (AppendsPart (K.written sink.old) (K.written sink.new) (H.holds session.old)) }
    ensures flushed { K.flushed sink.old ≤ K.flushed sink.new }
    ensures stands { (course : Course) (frames : List Frame) → H.stands session.old course frames → H.stands session.new course frames }
    ensures count { H.heard session.new ≡ H.heard session.old }
    ensures ready { H.ready session.old → H.ready session.new }
    ensures cause { HasCause (K.faults sink.old) (K.faults sink.new) result }
{
    write_whole(sink, session.held())?;
    sink.flush()?;
    session.clear();
    Ok(())
}

/// Ends the session, passes on all output, and answers the status; another one where that fails.
fn finish<H: Session, K: Sink>(session: &mut H, sink: &mut K, status: Status) -> Status
    ensures finished { (course : Course) (frames : List Frame) → H.stands session.old course frames →
        Finishes course frames status (H.holds session.old)
        (K.written sink.old) (K.written sink.new) (K.flushed sink.new) (K.faults sink.old) (K.faults sink.new) result }
    ensures flushed { K.flushed sink.old ≤ K.flushed sink.new }
{
    let Ok(()) = session.finish() else {
        return Status::NoMemory;
    };
    match pass_on(session, sink) {
        Ok(()) => status,
        Err(Failed) => Status::WriteFault,
    }
}
