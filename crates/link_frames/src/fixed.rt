// The fixed part of a frame: endpoint u32, kind u8, handle count u8, zero u16, byte count u32.

ghost use Rattle.std.specs.Prelude.{◌≡◌, ◌≤◌, length, drop, slice_index};
ghost use Rattle.link_frames.specs.Frames.{number_of, kind_of, goes_to, keeps_shape, reason_of, first_reason, size_of};
ghost use Rattle.link_frames.specs.Numbers.{half_in, word_in};

use crate::kinds::{FrameKind, FrameReason, Side};
use byteorder::{ByteOrder, LittleEndian};
use fidl_names::{MAX_BYTES, MAX_HANDLES};

/// The bytes that every frame begins with.
pub const FIXED_LEN: usize = 12;

/// The bytes of a whole frame at most.
pub const MAX_FRAME_LEN: usize = FIXED_LEN + 4 * MAX_HANDLES + MAX_BYTES;

/// The number that stands for a kind.
pub(crate) fn number_of(kind: FrameKind) -> u8
    ensures { result ≡ number_of kind }
{
    match kind {
        FrameKind::Message => 1,
        FrameKind::Close => 2,
        FrameKind::Turn => 3,
        FrameKind::Pick => 4,
        FrameKind::Refused => 5,
    }
}

fn goes_refused(side: Side) -> bool
    ensures { result ≡ goes_to side FrameKind.Refused }
{
    match side {
        Side::ToServers => false,
        Side::Any => true,
    }
}

pub(crate) fn kind_of(side: Side, number: u8) -> Option<FrameKind>
    ensures { result ≡ kind_of side number }
{
    if number == 1 {
        return Some(FrameKind::Message);
    }
    if number == 2 {
        return Some(FrameKind::Close);
    }
    if number == 3 {
        return Some(FrameKind::Turn);
    }
    if number == 4 {
        return Some(FrameKind::Pick);
    }
    if number == 5 && goes_refused(side) {
        return Some(FrameKind::Refused);
    }
    None
}

fn keeps_shape(kind: FrameKind, handles: usize, bytes: usize) -> bool
    ensures { result ≡ keeps_shape kind handles bytes }
{
    match kind {
        FrameKind::Message => true,
        FrameKind::Close | FrameKind::Pick => handles == 0 && bytes == 0,
        FrameKind::Turn | FrameKind::Refused => handles == 0 && bytes == 4,
    }
}

fn reason_of(
    kind: Option<FrameKind>,
    zero: u16,
    handles: usize,
    bytes: usize,
) -> Option<FrameReason>
    ensures { result ≡ reason_of kind zero handles bytes }
{
    let Some(kind) = kind else {
        return Some(FrameReason::Kind);
    };
    let is_zero = zero == 0;
    if !is_zero {
        return Some(FrameReason::Zero);
    }
    if handles > MAX_HANDLES {
        return Some(FrameReason::Handles);
    }
    if bytes > MAX_BYTES {
        return Some(FrameReason::Bytes);
    }
    if !keeps_shape(kind, handles, bytes) {
        return Some(FrameReason::Shape);
    }
    None
}

/// The number of 32 bits in front, the low byte first.
#[tactic(auto, unfolding(fidl_names::specs::Numbers::number_at))]
pub fn word_in(bytes: &[u8]) -> u32
    requires { 4 ≤ length bytes.now }
    ensures { result ≡ word_in bytes.now }
{
    LittleEndian::read_u32(bytes)
}

/// The first reason for which the fixed part in front is bad, if there is one.
#[tactic(auto, unfolding(crate::specs::Frames::first_reason))]
pub(crate) fn first_reason(side: Side, bytes: &[u8]) -> Option<FrameReason>
    requires { FIXED_LEN ≤ length bytes.now }
    ensures { result ≡ first_reason side bytes.now }
{
    reason_in(kind_of(side, bytes[4]), bytes)
}

/// The first reason for which the fixed part in front, which is of this kind, is bad, if there is one.
#[tactic(auto, unfolding(fidl_names::specs::Numbers::number_at))]
#[inline(always)]
pub(crate) fn reason_in(kind: Option<FrameKind>, bytes: &[u8]) -> Option<FrameReason>
    requires { FIXED_LEN ≤ length bytes.now }
    ensures { result ≡ reason_of kind (half_in (drop 6 bytes.now)) (slice_index bytes.now 5) (word_in (drop 8 bytes.now)) }
{
    let zero = LittleEndian::read_u16(&bytes[6..]);
    let handles = usize::from(bytes[5]);
    let count = word_in(&bytes[8..]);
    reason_of(kind, zero, handles, count as usize)
}

/// How long the frame is whose fixed part stands in front.
#[tactic(auto, unfolding(crate::specs::Frames::size_of))]
pub(crate) fn size_of(bytes: &[u8]) -> usize
    requires { FIXED_LEN ≤ length bytes.now }
    ensures { result ≡ size_of bytes.now }
{
    let handles = usize::from(bytes[5]);
    let count = word_in(&bytes[8..]);
    FIXED_LEN + 4 * handles + count as usize
}
