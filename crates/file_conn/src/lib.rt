//! A connection to a file: what it is bound with, where it reads and writes next, and what it
//! answers.
#![tactic(auto)]

mod connection;
mod echoing;
mod filling;
mod reading;
mod reference;
mod seeking;
mod writing;

pub use connection::FileConn;
pub use echoing::echo;
pub use reference::NodeConn;
