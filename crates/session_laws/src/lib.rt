//! The laws of every session in one place: that rights never widen, and nothing is changed, given or answered without the right to it;
//! that trees stay sound, and what is bound, given or on its way has its place in them; that a client may send on without waiting, and has
//! its replies in the order in which it sent; what watchers are told, and what they know by it; and that all that is written is frames.
#![tactic(auto)]

mod laws;

pub use laws::{lawful_journals_keep_laws, lineages_name_each_set};
