//! The tree of one server: nodes that stay as long as a name leads to them or someone holds them.
#![tactic(auto)]

mod changes;
mod creating;
mod cuts;
mod edges;
mod faults;
mod graph;
mod index;
mod keys;
mod laws;
mod links;
mod listing;
mod makes;
mod moves;
mod names;
mod nodes;
mod rows;
mod short;

pub use faults::GraphFault;
pub use graph::Graph;
pub use laws::{changes_keep_trees_sound, climbing_finds_what_is_above};
pub use listing::{NameView, Names};
pub use moves::Moved;
pub use names::NameBuf;
pub use nodes::{Entry, NodeKind, NodeRef};
