//! Scripts: texts that stand for the frames of a session, and frames as lines of text.
#![tactic(auto)]

mod calls;
mod digits;
mod faults;
mod forms;
mod frames;
mod laws;
mod numbers;
mod outtext;
mod printing;
mod script;
mod verbs;

pub use calls::Call;
pub use faults::ScriptFault;
pub use laws::{calls_are_apart, frames_go_to_servers};
pub use outtext::Outtext;
pub use printing::{print_counts, print_frame};
pub use script::{Script, script_of};
