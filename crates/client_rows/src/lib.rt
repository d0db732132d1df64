//! Outside values of the link, of the client, of messages to watchers, of the frames of scripts,
//! and of generated scripts, and the tests that read them. They stand in a crate of their own,
//! since a crate with tests is proved a second time with them.
#![tactic(auto)]

#[cfg(test)]
mod client;
#[cfg(test)]
mod events;
#[cfg(test)]
mod link;
#[cfg(test)]
mod scripts;
