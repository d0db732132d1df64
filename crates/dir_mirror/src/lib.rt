//! A client's live copy of a watched directory: its names, by what a watcher of it is told. Messages to watchers are those of
//! `Directory.Watch` of `fuchsia.io`, as `watch_events` reads them.
#![tactic(auto)]

mod mirror;
mod seats;

pub use mirror::{Mirror, MirrorFault, MirrorNames};
