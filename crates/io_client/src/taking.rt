use fidl_wire::WireFault;
use io_messages::{Protocol, Reply};
use watch_events::Events;

/// What a frame from the servers is, with the parts of the frame that it lends.
#[derive(Clone, Copy, Debug)]
pub enum Taken<'a> {
    /// The reply to a call, and the call's transaction id.
    Reply(u32, Reply<'a>),
    /// What a new connection is bound to: a directory, a file, or else a node.
    Event(Protocol),
    /// What happened in a directory that is watched.
    Watch(Events<'a>),
    /// The status that the endpoint ended with; a Close frame follows.
    Epitaph(i32),
    /// The endpoint is closed.
    Closed,
    /// A frame of the client was refused, with this status.
    Refused(i32),
    /// A message that answers no call that waits.
    Unmatched { endpoint: u32, txid: u32 },
    /// A message that is none of the rest: its first fault.
    Bad(WireFault),
}
