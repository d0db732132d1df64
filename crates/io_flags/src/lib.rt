// The flags of an Open: which words are right, and which rights they ask for and get.
#![tactic(auto)]

mod check;
mod faults;
mod grants;
mod names;
mod words;

pub use check::OpenFlags;
pub use faults::FlagFault;
pub use grants::{asked, explicit, forwarded, grant, laws_of_flags, words_are_sets};
pub use names::Flag;
