//! Outside values of the link, read row by row, and the largest frame.
ghost use Rattle.std.specs.Prelude.{◌≡◌, [], length};

mod rows;
mod streams;

use crate::link::rows::ROWS;
use link_admission::{AdmitFault, Endpoints};
use link_frames::{
    FrameKind, FrameReason, FrameRoom, MAX_FRAME_LEN, Outbox, Reading, Refusal, Side, frame_at,
    spelled_len, write_frame,
};
use std::alloc::{AllocError, Global};
use std::test::Fail;
use test_rows::{Row, Table, all_hold};

/// The frame in front, or why it is none.
fn front(side: Side, bytes: &[u8]) -> Result<(u32, FrameKind, usize, usize), Option<FrameReason>> {
    match frame_at(side, bytes) {
        Reading::Whole { frame, .. } => {
            let (handles, bytes) = (frame.handles.len(), frame.bytes.len());
            Ok((frame.endpoint, frame.kind, handles, bytes))
        }
        Reading::Bad(reason) => Err(Some(reason)),
        Reading::NotWhole => Err(None),
    }
}

/// Puts messages that bring 65,472 endpoints, from 2 on, 64 each, and these frames behind them.
fn put_crowd(all: &mut Vec<u8>, frames: &[u8]) -> Result<(), AllocError> {
    for number in 2_u32..65_474 {
        if number % 64 == 2 {
            all.extend_from_slice(b"\x01\x00\x00\x00\x01\x40\x00\x00\x00\x00\x00\x00")?;
        }
        all.extend_from_slice(&number.to_le_bytes())?;
    }
    all.extend_from_slice(frames)
}

/// What was refused: the number of a frame, its endpoint, and why.
type Refusals = Vec<(usize, u32, Refusal)>;

/// Admits frames, and puts those that are refused. No where they are none, or memory is wanting.
fn are_admitted(endpoints: &mut Endpoints, refused: &mut Refusals, frames: &[u8]) -> bool {
    let mut rest = frames;
    for place in 0..frames.len() {
        if !rest.is_empty() {
            match admit_front(endpoints, refused, place, rest) {
                Some(behind) => rest = behind,
                None => return false,
            }
        }
    }
    true
}

/// Admits the frame in front, and gives what is behind it.
fn admit_front<'a>(
    endpoints: &mut Endpoints,
    refused: &mut Refusals,
    place: usize,
    frames: &'a [u8],
) -> Option<&'a [u8]> {
    let Reading::Whole { frame, size } = frame_at(Side::ToServers, frames) else {
        return None;
    };
    match endpoints.admit(frame) {
        Ok(()) => {}
        Err(AdmitFault::Refused(why)) => refused.push((place, frame.endpoint, why)).ok()?,
        Err(AdmitFault::NoMemory) => return None,
    }
    frames.get(size..)
}

#[derive(Drop)]
struct Link;

impl Table for Link {
    fn holds(&mut self, alloc: Global, row: &Row<'_>) -> bool {
        let Some(mut bytes) = row.bytes(alloc, 2) else {
            return false;
        };
        if row.is(1, "fixed") {
            are_fronts(alloc, row, &mut bytes)
        } else if row.is(1, "frames") {
            are_refused(alloc, row, &bytes)
        } else {
            row.is(1, "crowd") && are_refused_behind_crowd(alloc, row, &bytes)
        }
    }
}

/// Whether these bytes, and zeros behind them, begin with the frames that the row says, on each
/// side.
fn are_fronts(alloc: Global, row: &Row<'_>, bytes: &mut Vec<u8>) -> bool {
    bytes.resize(MAX_FRAME_LEN, 0).is_ok()
        && row.says(alloc, 3, &front(Side::ToServers, bytes))
        && row.says(alloc, 4, &front(Side::Any, bytes))
}

fn are_refused_behind_crowd(alloc: Global, row: &Row<'_>, frames: &[u8]) -> bool {
    let mut all = Vec::new(alloc);
    put_crowd(&mut all, frames).is_ok() && are_refused(alloc, row, &all)
}

/// Whether what is refused of these frames is what the row says.
fn are_refused(alloc: Global, row: &Row<'_>, frames: &[u8]) -> bool {
    match Endpoints::new(alloc, &[1], 3, 2) {
        Ok(mut endpoints) => {
            let mut refused = Vec::new(alloc);
            are_admitted(&mut endpoints, &mut refused, frames) && row.says(alloc, 3, &refused)
        }
        Err(_) => false,
    }
}

#[test]
fn the_link_is_what_its_rows_say(rt: HostRuntime) -> Result<(), Fail> {
    all_hold(rt.alloc(), ROWS, &mut Link)
}

/// Whether the largest frame, 64 handles and these bytes, and a Close frame behind it fill a room,
/// and are what was written.
fn fill(room: &mut FrameRoom, bytes: &[u8], written: &[u8]) -> bool
    requires bytes { length bytes.now ≡ 65_536 }
    requires empty { room.old.bytes ≡ [] }
    requires size { room.old.size ≡ 65_816 }
{
    room.put_frame(1, FrameKind::Message, &[7; 64], bytes);
    let rest = room.room();
    room.put_frame(1, FrameKind::Close, &[], &[]);
    let same = room.as_bytes() == written;
    room.clear();
    same && rest == spelled_len(0, 0) && room.room() == 65_816
}

/// Whether these frames, written to an outbox, are what a room has. Want of memory says no.
fn are_gathered(alloc: Global, outbox: &mut Outbox) -> bool {
    let bytes = [0x61; 65_536];
    if write_frame(outbox, 1, FrameKind::Message, &[7; 64], &bytes).is_err()
        || write_frame(outbox, 1, FrameKind::Close, &[], &[]).is_err()
    {
        return false;
    }
    match FrameRoom::new(alloc, 65_816) {
        Ok(mut room) => fill(&mut room, &bytes, outbox.as_bytes()),
        Err(_) => false,
    }
}

/// Whether the largest frame is read, and is what is left where the Close frame is cut off.
fn is_read_and_cut(outbox: &mut Outbox) -> bool {
    let read = front(Side::ToServers, outbox.as_bytes());
    outbox.truncate(65_804);
    let cut = outbox.len() == 65_804;
    outbox.clear();
    matches!(read, Ok((1, FrameKind::Message, 64, 65_536))) && cut && outbox.is_empty()
}

#[test]
fn the_largest_frame_passes(rt: HostRuntime) {
    let mut outbox = Outbox::new(rt.alloc());
    assert!(rt; are_gathered(rt.alloc(), &mut outbox) && is_read_and_cut(&mut outbox));
}
