//! Laws of replies and of the event. They compute nothing: what they say is in their clauses.

ghost use Rattle.fidl_wire.specs.Names.{MethodsHaveTheirOwn};
ghost use Rattle.io_replies.specs.Laws.{RepliesAreReadOnce, FrameworkErrorIsNoReply, EventsAreReadOnce, WrittenRepliesAreRead, WrittenEventsAreRead};

use wire_laws::{body_is_read_where_spelled, spelling_is_read, written_header_is_read};

/// Bytes and handles are at most one reply, where each method has an ordinal of its own.
pub fn reply_is_read_once()
    ensures { MethodsHaveTheirOwn → RepliesAreReadOnce }
{
    body_is_read_where_spelled();
}

/// The framework's error is no method's reply.
pub fn framework_error_is_no_reply()
    ensures { FrameworkErrorIsNoReply }
{
    body_is_read_where_spelled();
}

/// Bytes are at most one event.
pub fn event_is_read_once()
    ensures { EventsAreReadOnce }
{
    body_is_read_where_spelled();
}

/// What is written for a reply is that reply, under the conditions of `write_reply`.
pub fn written_reply_is_read()
    ensures { WrittenRepliesAreRead }
{
    spelling_is_read();
    written_header_is_read();
}

/// What is written for a kind of node is an event that tells it; a service is told as node.
pub fn written_event_is_read()
    ensures { WrittenEventsAreRead }
{
    spelling_is_read();
    written_header_is_read();
}
