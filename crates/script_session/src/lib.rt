//! Scripts that are played over a tree: their frames are heard one by one in a session, and a
//! transcript is written, or the output is measured. `run_script` plays one that is named, and
//! `make` a generated one.
#![tactic(auto)]

mod faults;
mod laws;
mod makes;
mod measuring;
mod meter;
mod playing;
mod scribe;
mod scripts;
mod tally;

pub use faults::TranscriptFault;
pub use laws::transcripts_show_the_output;
pub use makes::make;
pub use measuring::{Measured, measure};
pub use playing::play;
pub use scripts::{read_script, run_script};
