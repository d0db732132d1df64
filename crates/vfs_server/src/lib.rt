//! One server: its tree as a graph, the connections to it and its watchers, and the serving of what is sent to them.
#![tactic(auto)]

mod answers;
mod asking;
mod beginning;
mod conn;
mod connection;
mod connections;
mod deed;
mod fate;
mod firsts;
mod frames;
mod message;
mod server;
mod telling;
mod tokens;
mod watching;

pub use fate::Fate;
pub use message::Message;
pub use server::Server;
