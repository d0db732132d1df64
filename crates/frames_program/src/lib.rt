//! What the program `frames` does: it writes the frames that a script stands for, as `vfs serve` reads them.
#![tactic(auto)]

mod laws;
mod notes;
mod run;
mod words;

pub use laws::{pipes_write_transcripts, scripts_can_be_served, sessions_can_be_shown};
pub use run::frames_words;
