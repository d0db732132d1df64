//! The generated workload: a script of so many rounds, which opens, writes, reads, lists and
//! unlinks files over the generated start.
#![tactic(auto)]

mod draws;
mod generating;
mod laws;
mod rounds;

pub use generating::{MAX_ROUNDS, generated};
pub use laws::workloads_are_scripts;
