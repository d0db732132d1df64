//! What the program `ns` does: it rewrites the absolute paths that a script opens by a component's namespace.
#![tactic(auto)]

mod rewriting;
mod run;
mod statuses;
mod tables;
mod words;

pub use run::ns_words;
pub use statuses::NsStatus;
