//! The namespace of a component, by which a client knows over which endpoint it reaches a path: a table from prefixes of absolute paths to endpoints.
#![tactic(auto)]

mod checks;
mod cleaning;
mod edges;
mod faults;
mod laws;
mod namespace;
mod resolved;

pub use checks::is_absolute;
pub use faults::NameFault;
pub use laws::{clean_laws, resolving_laws};
pub use namespace::Namespace;
pub use resolved::{PathText, Resolved};
