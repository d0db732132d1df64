//! Laws of the FIDL wire format, version 2: for every layout, reading, grammar and spelling belong together.
#![tactic(auto)]

mod laws;

pub use laws::{
    body_fault_is_meant, body_is_read_where_spelled, body_is_spelled_once, epitaph_is_read_once,
    names_have_their_own, spelling_is_read, spelling_is_shortest, written_epitaph_is_read,
    written_header_is_read,
};
