//! The frames of the input, one after the other.

ghost use Rattle.std.specs.Prelude.{◌≡◌, [], length, List, IfErr, OnErr, OnOk};
ghost use Rattle.link_frames.specs.Frames.{Frame};
ghost use Rattle.mirror_program.specs.Answers.{ReadsAll, Stops};
ghost use Rattle.mirror_program.specs.Steps.{IsCopyOf, IsTaking};

use crate::statuses::MirrorStatus;
use dir_mirror::{Mirror, MirrorFault};
use host_io::Source;
use link_frames::{FrameReason, Reading, Side, frame_at};
use link_session::{Ended, Input, next_piece};

/// What the frames of a piece led to.
pub(crate) enum Taken {
    /// Each whole frame was taken; so many bytes these were, and what follows has begun a frame.
    Rest(usize),
    /// Behind so many bytes stands a bad fixed part.
    Bad(usize, FrameReason),
    /// Behind so many bytes stands a message on the endpoint that isn't good events.
    BadEvents(usize),
    NoMemory,
}

/// Takes the frames of the input until that ends between frames; or answers why it stopped before.
pub(crate) fn take_all<S: Source>(
    mirror: &mut Mirror,
    input: &mut Input,
    source: &mut S,
) -> Result<(), MirrorStatus>
    requires input { input.old ≡ [] }
    requires copy { IsCopyOf mirror.old.endpoint mirror.old [] }
    ensures whole { OnOk result (ReadsAll mirror.old.endpoint (S.left source.old) (S.left source.new) mirror.new) }
    ensures calm { OnOk result (S.faults source.new ≡ S.faults source.old) }
    ensures stops { IfErr result (Stops mirror.old.endpoint (S.left source.old) (S.left source.new) (S.faults source.old) (S.faults source.new)) }
{
    let mut taken = 0;
    loop {
        match next_piece(input, source, taken) {
            Ok(now) => taken = now,
            Err(Ended::Whole) => return Ok(()),
            Err(Ended::Inside { at }) => return Err(MirrorStatus::Truncated { at }),
            Err(Ended::TooLong) => return Err(MirrorStatus::InputTooLong),
            Err(Ended::Failed) => return Err(MirrorStatus::ReadFault),
        }
        let before = taken - input.bytes().len() as u64;
        match take_frames(mirror, input.bytes()) {
            Taken::Rest(at) => input.drop_front(at),
            Taken::Bad(at, reason) => {
                let at = before + at as u64;
                return Err(MirrorStatus::BadFrame { at, reason });
            }
            Taken::BadEvents(at) => {
                let at = before + at as u64;
                return Err(MirrorStatus::BadEvents { at });
            }
            Taken::NoMemory => return Err(MirrorStatus::NoMemory),
        }
    }
}

/// Takes each whole frame at the front of the bytes, in order.
fn take_frames(mirror: &mut Mirror, bytes: &[u8]) -> Taken
    ensures { (before : List Frame) → IsCopyOf mirror.old.endpoint mirror.old before → IsTaking mirror.old.endpoint mirror.new before bytes.now result }
{
    let mut at = 0;
    loop {
        match frame_at(Side::Any, &bytes[at..]) {
            Reading::Whole { frame, size } => match mirror.take(frame) {
                Ok(()) => at += size,
                Err(MirrorFault::BadEvents) => return Taken::BadEvents(at),
                Err(MirrorFault::NoMemory) => return Taken::NoMemory,
            },
            Reading::NotWhole => return Taken::Rest(at),
            Reading::Bad(reason) => return Taken::Bad(at, reason),
        }
    }
}
