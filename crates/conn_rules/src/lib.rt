//! What serving one request does, as definitions that every connection cites: the walk over names,
//! the refusals of each method in their order, and what each method does. Beside them stands what
//! the connections of all nodes do alike: the refusals before a method's row, replies and failures
//! in a method's form, and the five methods that every node has.
#![tactic(auto)]

mod births;
mod changes;
mod faults;
mod laws;
mod mounts;
mod node_attributes;
mod onward;
mod refusals;
mod rows;
mod served;

pub use births::{Birth, Room};
pub use changes::{At, Changes};
pub use faults::fault_status;
pub use laws::{handles_are_tokens, kept_nodes_are_rows, opens_grant, opens_only_narrow};
pub use mounts::{MountTarget, Mounts};
pub use onward::forward;
pub use refusals::method_refusal;
pub use rows::{fail, reply, reply_with, serve_node};
pub use served::Served;
