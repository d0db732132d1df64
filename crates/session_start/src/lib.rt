//! What a session starts with: servers, nodes, mounts and first connections, and what holds of them.
#![tactic(auto)]

mod growing;
mod items;
mod laws;
mod lent;
mod lists;
mod making;
mod places;
mod start;

pub use growing::{Grown, grow};
pub use items::{Bytes, Client, Mount, Node};
pub use laws::starts_are_sound;
pub use lent::{StartClient, StartMount, StartNode};
pub use lists::StartLists;
pub use places::{Places, node_at};
pub use start::Start;
