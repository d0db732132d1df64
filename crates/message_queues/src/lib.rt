//! What waits until it is served, endpoint by endpoint, and at which server each endpoint is bound.
#![tactic(auto)]

mod dying;
mod heads;
mod laws;
mod lent;
mod mailbox;
mod parcel;
mod queues;

pub use dying::Buried;
pub use laws::queues_count_their_list;
pub use lent::{Lent, handles_in};
pub use parcel::{Parcel, Sent};
pub use queues::Queues;
