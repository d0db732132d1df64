//! Outside values that no session shows: what becomes of names and nodes in a graph, the faults of flags, paths and names, the texts of
//! rights, what an Open is granted, the entries that bytes are, and what the cells of rows say; and the tests that read them. They stand
//! in a crate of their own, since a crate with tests is proved a second time with them.
#![tactic(auto)]

#[cfg(test)]
mod cells;
#[cfg(test)]
mod entries;
#[cfg(test)]
mod flags;
#[cfg(test)]
mod mounts;
#[cfg(test)]
mod names;
#[cfg(test)]
mod nodes;
#[cfg(test)]
mod texts;
