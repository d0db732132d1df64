//! The tree file: the nodes, mounts and first connections that a session starts with, as TOML.
#![tactic(auto)]

mod faults;
mod fields;
mod generated;
mod lists;
mod reading;
mod rules;
mod start;

pub use faults::TreeFault;
pub use generated::generated_start;
pub use start::start_of;
