//! A tally of frames: how many there are, how many bytes they have, and the hash of these.

ghost use Rattle.std.specs.Prelude.{◌≡◌, ◌≤◌, ◌<◌, ◌+◌, ◌++◌, ◌^◌, [], List, All, length};
ghost use Rattle.link_frames.specs.Frames.{Frame, IsFrame, spellings};
ghost use Rattle.link_frames.specs.declared.kinds.Side.TheVariants as side;
ghost use Rattle.script_session.specs.Measured.{Measures};
ghost use Rattle.script_session.specs.Tallies.{Tallies};

use crate::measuring::Measured;
use link_frames::{Reading, Side, frame_at};
use sha2::{Digest, Sha256};

/// The frames that came so far.
#[derive(Drop)]
pub(crate) struct Tally {
    pub(crate) frames: u128,
    pub(crate) bytes: u128,
    pub(crate) hasher: Sha256,
}

impl Tally {
    /// None came yet.
    pub(crate) fn new() -> Tally
        ensures { Tallies [] result }
    {
        Tally {
            frames: 0,
            bytes: 0,
            hasher: Sha256::new(),
        }
    }

    /// These frames come, one after the other.
    ///
    /// The caller sees to it that the sums stay below `2 ^ 127`.
    pub(crate) fn take(&mut self, frames: &[u8])
        requires few { self.old.frames < 2 ^ 126 }
        requires small { self.old.bytes < 2 ^ 126 }
        ensures tallied { (before more : List Frame) → Tallies before self.old → All (IsFrame side.Any) more → frames.now ≡ spellings more →
            Tallies (before ++ more) self.new }
        ensures few { self.new.frames ≤ self.old.frames + 2 ^ 63 }
        ensures small { self.new.bytes ≤ self.old.bytes + 2 ^ 63 }
    {
        self.frames += count_frames(frames) as u128;
        self.bytes += frames.len() as u128;
        self.hasher.update(frames);
    }

    /// What is told of them. The hash begins anew.
    pub(crate) fn finish(&mut self) -> Measured
        ensures { (frames : List Frame) → Tallies frames self.old → Measures frames result }
    {
        Measured {
            frames: self.frames,
            bytes: self.bytes,
            hash: self.hasher.finalize_reset(),
        }
    }
}

/// How many frames these bytes spell.
fn count_frames(frames: &[u8]) -> usize
    ensures count { (all : List Frame) → All (IsFrame side.Any) all → frames.now ≡ spellings all → result ≡ length all }
    ensures few { result ≤ length frames.now }
{
    let mut count = 0;
    let mut rest = frames;
    while let Reading::Whole { size, .. } = frame_at(Side::Any, rest) {
        count += 1;
        rest = &rest[size..];
    }
    count
}
