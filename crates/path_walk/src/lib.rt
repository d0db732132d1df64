// Paths of `fuchsia.io`: lists of names, joined by slashes.
#![tactic(auto)]

mod faults;
mod names;
mod parts;
mod walk;

pub use faults::PathFault;
pub use names::check_name;
pub use parts::{is_dot, last_name, parent_of};
pub use walk::{Path, path_laws};
