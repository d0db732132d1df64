// Rows of outside values as texts, for tests: a test reads a constant of lines, and what fails names its row.
#![tactic(auto)]

mod cells;
mod words;

pub use cells::{Row, Table, all_hold};
pub use words::bytes;
