//! Frames: what a stream of bytes is for one side of a link, however it is cut, and how frames are written.
#![tactic(auto)]

mod any_cut;
mod deframer;
mod fixed;
mod frame;
mod kinds;
mod laws;
mod outbox;
mod reading;

pub use any_cut::in_any_cut;
pub use deframer::{Deframer, LinkFault};
pub use fixed::{FIXED_LEN, MAX_FRAME_LEN, word_in};
pub use frame::{FrameView, HandleBytes, Reading};
pub use kinds::{FrameKind, FrameReason, Mode, Refusal, Side};
pub use laws::{joined_streams, one_reading, sound_fixed_parts};
pub use outbox::{FrameRoom, Outbox, spelled_len, write_frame, write_message, write_refused};
pub use reading::frame_at;
