//! The auditor of recorded sessions: whether what a recording says is a run that the definitions of the journal allow.
#![tactic(auto)]

mod auditing;
mod auditor;
mod laws;
mod records;
mod verdicts;

pub use auditing::{MAX_RECORDING, audit};
pub use laws::{limit_has_its_number, one_verdict};
pub use verdicts::{Verdict, Why};
