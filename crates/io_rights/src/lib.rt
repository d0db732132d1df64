// The rights of a connection: sets of the nine operations of `fuchsia.io`.
#![tactic(auto)]

mod operations;
mod sets;
mod table;
mod texts;

pub use operations::Operation;
pub use sets::{Rights, laws_of_rights};
pub use table::needed;
pub use texts::{Letters, read_rights};
