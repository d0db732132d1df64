//! The program `audit`, but for what the system hands it: whether a recording is lawful over a tree, and where it first isn't.
#![tactic(auto)]

mod notes;
mod run;
mod statuses;

pub use run::audit_words;
pub use statuses::AuditStatus;
