//! Watching a directory: who watches, what a watcher is told, and the bytes of its messages read back. Events
//! and masks have the numbers of `WatchEvent` and `WatchMask` of `fuchsia.io`; a message has one event or more.
#![tactic(auto)]

mod laws;
mod messages;
mod reading;
mod row;
mod watchers;

pub use laws::events_are_read_once;
pub use messages::snapshot;
pub use reading::{Events, Seen, read_events};
pub use watchers::{WatchEvent, Watchers};
