//! What the program `vfs` does: the words, the notes, the exit statuses, and what each command
//! does.
#![tactic(auto)]

mod lines;
mod run;
mod serving;
mod words;

pub use run::run_words;
pub use run_status::Status;
