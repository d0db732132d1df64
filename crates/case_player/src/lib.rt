//! Plays runs of the program and calls of a world that stand in files as text, over objects in
//! memory, and says which of them don't end as they should: runs by any cuts, with calls that fail
//! and outputs that fill up, which the built program can't be given, and what no frame of a session
//! shows. Each kind of file has its form:
//!
//! - `.runs`: a row for each run, as `rows` says;
//! - `.courses`: runs frame by frame, each of whose calls fails once, as `courses` says;
//! - `.worlds`: a row for each call of a world, as `worlds` says;
//! - `.spent`: a row for each world for which memory may be wanting, as `spent` says.
//!
//! Before they are read `repeats` writes out what they say once for many times. Empty lines, and
//! those that begin with `#`, are skipped.
#![tactic(auto)]

mod counted;
mod courses;
mod files;
mod numbers;
mod outside;
mod repeats;
mod rows;
mod spelling;
mod spent;
mod tally;
mod worlds;

pub use files::play_file;
pub use tally::Tally;
