//! What the program `mirror` does: it keeps a client's copy of a watched directory by the frames that a server writes, and writes
//! the names that it has at the end.
#![tactic(auto)]

mod reading;
mod run;
mod statuses;
mod texts;
mod words;

pub use run::mirror_words;
pub use statuses::MirrorStatus;
