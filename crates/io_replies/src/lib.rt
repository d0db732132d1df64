//! The replies and the event of `fuchsia.io`, read. What they say and how they are written stands in
//! `io_messages`.
#![tactic(auto)]

mod laws;
mod reply_fields;
mod reply_reader;

pub use laws::{
    event_is_read_once, framework_error_is_no_reply, reply_is_read_once, written_event_is_read,
    written_reply_is_read,
};
pub use reply_reader::{read_event, read_reply};
