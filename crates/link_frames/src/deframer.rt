// A stream of frames, in whatever pieces it comes: for users of this library that get a stream so. The programs here
// look for frames in one buffer, by `frame_at`.

ghost use Rattle.std.specs.Prelude.{◌≡◌, ◌≤◌, ◌+◌, ◌-◌, ◌^◌, ◌++◌, length, take, drop, min, vec_len, vec_capacity, IfOk, IfSome, IfNone};

use crate::fixed::{FIXED_LEN, MAX_FRAME_LEN, first_reason, size_of};
use crate::frame::{FrameView, Reading};
use crate::kinds::{FrameReason, Side};
use crate::reading::frame_at;
use fidl_names::NoMemory;
use std::alloc::Global;
use std::marker::Model;

/// A bad fixed part: the offset of its first byte in the stream, and the first reason against it.
#[derive(Clone, Copy)]
pub struct LinkFault {
    pub at: u64,
    pub reason: FrameReason,
}

/// Cuts a stream of bytes into frames. It reserves one frame when it is made, and takes no memory afterwards.
#[derive(Drop)]
pub struct Deframer {
    side: Side,
    start: u64,
    kept: Vec<u8>,
}

impl Model for Deframer {
    ghost use Rattle.std.specs.Prelude.{vec_capacity};
    ghost use Rattle.link_frames.specs.Deframing.{Deframing, KeepsFrame};

    ghost Value = { Deframing };

    ghost view = { λ d. record { side = d.side; start = d.start; kept = d.kept.items } };

    ghost invariant = { λ d. KeepsFrame (record { side = d.side; start = d.start; kept = d.kept.items }) (vec_capacity d.kept) };
}

/// Appends bytes of the piece until `end` bytes are kept, and answers their number.
fn top_up(kept: &mut Vec<u8>, end: usize, piece: &[u8]) -> usize
    requires { end ≤ vec_capacity kept.old }
    ensures count { result ≡ min (end - vec_len kept.old) (length piece.now) }
    ensures kept { kept.new.items ≡ kept.old.items ++ take result piece.now }
    ensures room { vec_capacity kept.old ≤ vec_capacity kept.new }
{
    let count = end.saturating_sub(kept.len()).min(piece.len());
    if count > 0 && kept.extend_from_slice(&piece[..count]).is_err() {
        unreachable!();
    }
    count
}

impl Deframer {
    ghost use Rattle.link_frames.specs.Frames.{Frame};
    ghost use Rattle.link_frames.specs.Deframing.{fresh, taken_by, Fed, IsKept, KeepsNone, IsBetween, IsInside, dropped};
    ghost use Rattle.link_frames.specs.Views.{frame_of};

    /// A deframer for a stream that goes this way.
    pub fn new(alloc: Global, side: Side) -> Result<Deframer, NoMemory>
        ensures { IfOk result (λ d. d ≡ fresh side) }
    {
        let kept = Vec::with_capacity(alloc, MAX_FRAME_LEN)?;
        Ok(Deframer {
            side,
            start: 0,
            kept,
        })
    }

    /// Takes as many bytes as the piece has or as the frame in hand lacks, whichever is fewer, and answers their number.
    /// The fault comes when the last byte of a bad fixed part is in, and again at each later feed: nothing past that byte
    /// is taken.
    pub fn feed(&mut self, piece: &[u8]) -> Result<usize, LinkFault>
        requires { taken_by self.old + length piece.now ≤ 2 ^ 63 }
        ensures { let n = length self.new.kept - length self.old.kept in
            Fed self.old (take n piece.now) (drop n piece.now) result self.new }
    {
        let first = top_up(&mut self.kept, FIXED_LEN, piece);
        if self.kept.len() < FIXED_LEN {
            return Ok(first);
        }
        if let Some(reason) = first_reason(self.side, &self.kept) {
            return Err(LinkFault {
                at: self.start,
                reason,
            });
        }
        let size = size_of(&self.kept);
        let rest = top_up(&mut self.kept, size, &piece[first..]);
        Ok(first + rest)
    }

    /// The whole frame that is kept.
    pub fn next_frame(&self) -> Option<FrameView<'_>>
        ensures shown { IfSome result (λ v. IsKept self.now (frame_of v)) }
        ensures none { IfNone result (KeepsNone self.now) }
    {
        match frame_at(self.side, &self.kept) {
            Reading::Whole { frame, size: _ } => Some(frame),
            Reading::NotWhole | Reading::Bad(_) => None,
        }
    }

    /// Drops the whole frame that is kept.
    pub fn discard(&mut self)
        requires { (f : Frame) × IsKept self.old f }
        ensures { self.new ≡ dropped self.old }
    {
        let count = self.kept.len();
        self.start += count as u64;
        self.kept.clear();
    }

    /// The offset of the unfinished frame, if there is one.
    pub fn begun(&self) -> Option<u64>
        ensures between { IfNone result (IsBetween self.now) }
        ensures inside { IfSome result (λ at. (at ≡ self.now.start) × IsInside self.now) }
    {
        if self.kept.is_empty() || self.next_frame().is_some() {
            return None;
        }
        Some(self.start)
    }

    /// The number of bytes taken so far.
    pub fn taken(&self) -> u64
        ensures { result ≡ taken_by self.now }
    {
        self.start + self.kept.len() as u64
    }
}
