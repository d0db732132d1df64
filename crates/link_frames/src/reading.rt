// What stands in front of some bytes.

ghost use Rattle.std.specs.Prelude.{◌≡◌, ◌≤◌, length, take, slice_index, Some, None};
ghost use Rattle.link_frames.specs.Frames.{IsFrame, spelling, kind_of, first_reason, size_of};
ghost use Rattle.link_frames.specs.Views.{Reads, frame_of};

use crate::fixed::{FIXED_LEN, kind_of, reason_in, size_of, word_in};
use crate::frame::{FrameView, HandleBytes, Reading};
use crate::kinds::{FrameKind, FrameReason, Side};

/// The frame of this kind whose sound fixed part stands in front of its other bytes.
#[inline(always)]
fn view_of(kind: FrameKind, bytes: &[u8]) -> FrameView<'_>
    requires long { FIXED_LEN ≤ length bytes.now }
    requires whole { size_of bytes.now ≤ length bytes.now }
    ensures { (side : Side) → kind_of side (slice_index bytes.now 4) ≡ Some kind → first_reason side bytes.now ≡ None →
        IsFrame side (frame_of result) × (spelling (frame_of result) ≡ take (size_of bytes.now) bytes.now) }
{
    let (handles, rest) = bytes[FIXED_LEN..].split_at(4 * usize::from(bytes[5]));
    let count = word_in(&bytes[8..]);
    FrameView {
        endpoint: word_in(bytes),
        kind,
        handles: HandleBytes::new(handles),
        bytes: &rest[..count as usize],
    }
}

/// What stands in front of these bytes, whose fixed part is of this kind.
#[inline(always)]
fn front_of(kind: FrameKind, bytes: &[u8]) -> Reading<'_>
    requires long { FIXED_LEN ≤ length bytes.now }
    ensures { (side : Side) → kind_of side (slice_index bytes.now 4) ≡ Some kind → Reads side bytes.now result }
{
    if let Some(reason) = reason_in(Some(kind), bytes) {
        return Reading::Bad(reason);
    }
    let size = size_of(bytes);
    if bytes.len() < size {
        return Reading::NotWhole;
    }
    Reading::Whole {
        frame: view_of(kind, bytes),
        size,
    }
}

/// What stands in front of these bytes: a whole frame that may go this way, the beginning of one, or a bad fixed part.
#[tactic(auto, unfolding(crate::specs::Frames::first_reason))]
#[inline(always)]
pub fn frame_at(side: Side, bytes: &[u8]) -> Reading<'_>
    ensures { Reads side bytes.now result }
{
    if bytes.len() < FIXED_LEN {
        return Reading::NotWhole;
    }
    match kind_of(side, bytes[4]) {
        None => Reading::Bad(FrameReason::Kind),
        // Nearly every frame is a message, and is read by code of its own.
        Some(FrameKind::Message) => front_of(FrameKind::Message, bytes),
        Some(kind) => front_of(kind, bytes),
    }
}
