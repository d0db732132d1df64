//! A connection to a directory: what it answers to each request.
#![tactic(auto)]

mod arrive;
mod conn;
mod entry;
mod link;
mod listing;
mod make;
mod open;
mod rename;
mod served;
mod steps;
mod token;
mod two_names;
mod unlink;
mod walk;
mod watch;

pub use conn::DirConn;
pub use served::DirServed;
