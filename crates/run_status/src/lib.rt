//! What programs share around their work: how a run ends, its status with its exit number, and the note that is told of it; the words of the
//! process; the files that words name, and the start that a tree file stands for; a text that is written as one.
#![tactic(auto)]

mod checks;
mod files;
mod names;
mod notes;
mod statuses;
mod texts;
mod trees;
mod words;

pub use checks::check_tree;
pub use files::{read_file, read_within};
pub use names::ordinals;
pub use notes::{Note, tell, tell_note};
pub use statuses::Status;
pub use texts::{pass_on, put_number};
pub use trees::read_start;
pub use words::{NoWords, words_of};
