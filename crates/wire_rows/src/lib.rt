//! Outside values of the wire format, of the methods' messages, and of reads and writes, and the tests that read them.
//! They stand in a crate of their own, since a crate with tests is proved a second time with them.
#![tactic(auto)]

#[cfg(test)]
mod messages;
#[cfg(test)]
mod streams;
