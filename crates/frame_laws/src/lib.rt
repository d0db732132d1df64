//! Laws of frames: whatever a session writes is frames, so that who reads its output has them again. The laws compute nothing: what they
//! say is in their clauses.
#![tactic(auto)]

mod frames;

pub use frames::{parts_are_read_back, sessions_are_read_back};
