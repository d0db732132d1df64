//! A session over a source and a sink: frames are read piece by piece and heard one by one, and
//! what is written for them is passed on before the next read. What a frame leads to is the
//! session's own.
#![tactic(auto)]

mod input;
mod pump;
mod sessions;

pub use input::Input;
pub use pump::{Ended, next_piece};
pub use sessions::{Session, run};
