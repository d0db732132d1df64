//! The session over one file, which is bound to endpoint 1.
#![tactic(auto)]

mod binding;
mod laws;
mod messages;
mod one_file;
mod serving;

pub use laws::each_read_is_answered_once;
pub use serving::serve_file;
