//! The listing of a directory: its entries from a place on, how many of them fit into so many bytes, and the bytes read back.
#![tactic(auto)]

mod dirent;
mod entries;
mod laws;
mod listing;
mod packing;
mod place;

pub use dirent::Dirent;
pub use entries::Entries;
pub use laws::{
    bytes_have_entries, entries_are_given_in_order, entries_are_read_once, written_entries_are_read,
};
pub use node_graph::NameBuf;
pub use packing::{Packed, measure, pack};
pub use place::Place;
