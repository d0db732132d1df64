//! Requests of `fuchsia.io` are read.
#![tactic(auto)]

mod fields;
mod laws;
mod parts;
mod reader;

pub use laws::{
    carried_endpoint_is_a_handle, request_is_read_once, requests_are_found,
    written_request_is_read, written_request_is_shortest,
};
pub use parts::read_part;
pub use reader::read_request;
