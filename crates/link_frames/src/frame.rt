// Frames, lent from the bytes where they stand.

ghost use Rattle.std.specs.Prelude.{◌≡◌, ◌≤◌, ◌<◌, ◌%◌, ◌/◌, ◌↔◌, IsTrue, [], length, take, drop, slice_index};

use crate::fixed::word_in;
use crate::kinds::{FrameKind, FrameReason};

/// The handles of a frame, four bytes each with the low one first, lent from where the frame stands.
#[derive(Clone, Copy)]
pub struct HandleBytes<'a> {
    bytes: &'a [u8],
    ghost whole: { length bytes.now % 4 ≡ 0 },
}

impl<'a> HandleBytes<'a> {
    ghost use Rattle.link_frames.specs.Numbers.{words_in};
    ghost use Rattle.link_frames.specs.Views.{handle_numbers};

    /// The handles that these bytes are.
    pub fn new(bytes: &'a [u8]) -> HandleBytes<'a>
        requires { length bytes.now % 4 ≡ 0 }
        ensures { handle_numbers result ≡ words_in (length bytes.now / 4) bytes.now }
    {
        HandleBytes { bytes }
    }

    /// How many handles there are.
    pub fn len(self) -> usize
        ensures { result ≡ length (handle_numbers self.entry) }
    {
        self.bytes.len() / 4
    }

    /// Whether there is none.
    pub fn is_empty(self) -> bool
        ensures { IsTrue result ↔ (handle_numbers self.entry ≡ []) }
    {
        self.bytes.is_empty()
    }

    /// The handle at a place.
    pub fn at(self, i: usize) -> u32
        requires { i < length (handle_numbers self) }
        ensures { result ≡ slice_index (handle_numbers self.entry) i }
    {
        word_in(&self.bytes[4 * i..])
    }
}

/// A frame, lent from where it stands.
#[derive(Clone, Copy)]
pub struct FrameView<'a> {
    pub endpoint: u32,
    pub kind: FrameKind,
    pub handles: HandleBytes<'a>,
    pub bytes: &'a [u8],
}

/// What stands in front of some bytes.
#[derive(Clone, Copy)]
pub enum Reading<'a> {
    /// A whole frame, and how many bytes it takes.
    Whole { frame: FrameView<'a>, size: usize },
    /// Too few bytes for a fixed part, or the beginning of a frame.
    NotWhole,
    /// A fixed part that is bad.
    Bad(FrameReason),
}
