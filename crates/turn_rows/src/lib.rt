//! A worked row of what endpoints are told: Opens over three servers, and each message that comes of them.
#![tactic(auto)]

mod rows;

pub use rows::each_message_is_told;
