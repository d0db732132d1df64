use crate::births::Birth;
use fidl_names::Status;

/// What a connection makes of a request.
#[derive(Clone, Copy)]
pub enum Served {
    /// The reply stands in the output.
    Reply,
    /// The reply to Close stands in the output, and the endpoint ends behind it.
    ReplyEnd,
    /// The endpoint that the request carries is to be bound.
    Bind(Birth),
    /// The endpoint that the request carries ends with this status.
    Refused(Status),
    /// The connection's own endpoint ends with this status.
    End(Status),
    /// Memory is wanting, and nothing was done.
    NoMemory,
}
