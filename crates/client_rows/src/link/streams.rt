//! Streams that a deframer is fed in pieces of three sizes.
use link_frames::{Deframer, FrameKind, FrameReason, Side};
use std::alloc::Global;
use std::test::Fail;
use test_rows::{Row, Table, all_hold};

/// A name, a stream on its way to the servers, and what a deframer makes of it in whatever pieces:
/// the frames, each with its endpoint, its kind, and how many handles and bytes it has; where the
/// unfinished frame begins; how many bytes were taken; and the fault.
const STREAMS: &[u8] = b"
nothing | - | ([], None, 0, None)
a message | 010000000100000003000000616263 | ([(1, Message, 0, 3)], None, 15, None)
a message with handles, a Close, a Turn and a Pick | 010000000102000001000000050000000600000061020000000200000000000000000000000300000004000000010000000300000004[00*7] | ([(1, Message, 2, 1), (2, Close, 0, 0), (0, Turn, 0, 4), (3, Pick, 0, 0)], None, 61, None)
an end inside a fixed part | 0200000002[00*7]01000000010000 | ([(2, Close, 0, 0)], Some(12), 19, None)
an end inside the bytes | 0200000002[00*7]01000000010000000300000061 | ([(2, Close, 0, 0)], Some(12), 25, None)
a bad frame behind a good one | 0200000002[00*7]0100000006[00*7]0200000002[00*7] | ([(2, Close, 0, 0)], Some(12), 24, Some((12, Kind)))
a Refused frame, which only servers send | 010000000500000004000000f5ffffff | ([], Some(0), 12, Some((0, Kind)))
";

/// A frame's endpoint and kind, and how many handles and bytes it has.
type Shape = (u32, FrameKind, usize, usize);

/// What was made of a stream.
type Made = (Vec<Shape>, Option<u64>, u64, Option<(u64, FrameReason)>);

/// The shape of the whole frame that is kept, which is dropped.
fn take_frame(deframer: &mut Deframer) -> Option<Shape> {
    let frame = deframer.next_frame()?;
    let shape = (
        frame.endpoint,
        frame.kind,
        frame.handles.len(),
        frame.bytes.len(),
    );
    deframer.discard();
    Some(shape)
}

/// No stream here is longer.
const LONGEST: u64 = 1_000;

/// Feeds a piece, and puts the frames that are whole then. No where they are too many, or memory is
/// wanting; else the fault, if there is one.
fn feed(
    deframer: &mut Deframer,
    piece: &[u8],
    frames: &mut Vec<Shape>,
) -> Option<Option<(u64, FrameReason)>> {
    let mut rest = piece;
    for _ in 0..piece.len() {
        if rest.is_empty() {
            break;
        }
        if deframer.taken() > LONGEST || rest.len() as u64 > LONGEST {
            return None;
        }
        match deframer.feed(rest) {
            Ok(count) => rest = rest.get(count..)?,
            Err(fault) => return Some(Some((fault.at, fault.reason))),
        }
        if let Some(shape) = take_frame(deframer) {
            frames.push(shape).ok()?;
        }
    }
    Some(None)
}

/// What a deframer makes of a stream in pieces of this size, if that isn't 0.
fn made(alloc: Global, stream: &[u8], size: usize) -> Option<Made> {
    if size == 0 {
        return None;
    }
    let mut deframer = Deframer::new(alloc, Side::ToServers).ok()?;
    let mut frames = Vec::new(alloc);
    let mut fault = None;
    for piece in stream.chunks(size) {
        if fault.is_none() {
            fault = feed(&mut deframer, piece, &mut frames)?;
        }
    }
    Some((frames, deframer.begun(), deframer.taken(), fault))
}

#[derive(Drop)]
struct Streams;

impl Table for Streams {
    fn holds(&mut self, alloc: Global, row: &Row<'_>) -> bool {
        let Some(stream) = row.bytes(alloc, 1) else {
            return false;
        };
        for size in [1, 7, 13] {
            match made(alloc, &stream, size) {
                Some(made) if row.says(alloc, 2, &made) => {}
                _ => return false,
            }
        }
        true
    }
}

#[test]
fn a_deframer_makes_of_streams_what_rows_say(rt: HostRuntime) -> Result<(), Fail> {
    all_hold(rt.alloc(), STREAMS, &mut Streams)
}
