//! A session over all servers of a start: frames are accepted and served, and what is written is what the session's journal stands for.
#![tactic(auto)]

mod arriving;
mod beginning;
mod closing;
mod deaths;
mod forgetting;
mod session;
mod settling;
mod world;

pub use world::{Picked, World, WorldFault};
