//! Laws of requests. They compute nothing: what they say is in their clauses.

ghost use Rattle.fidl_wire.specs.Names.{MethodsHaveTheirOwn};
ghost use Rattle.request_reader.specs.Laws.{RequestsAreAskedOnce, RequestsAreReadOnce, RequestsAreFound, FoundRequestsAreRead, RequestsAreShortest, RequestsCarryTheirEndpoints, WrittenRequestsAreRead};

use wire_laws::{
    body_is_read_where_spelled, spelling_is_read, spelling_is_shortest, written_header_is_read,
};

/// Bytes and handles are at most one request, whatever their endpoint speaks, where each method has
/// an ordinal of its own.
pub fn request_is_read_once()
    ensures asked { MethodsHaveTheirOwn → RequestsAreAskedOnce }
    ensures read { MethodsHaveTheirOwn → RequestsAreReadOnce }
{
    body_is_read_where_spelled();
}

/// Reading bytes and handles finds the request that they are, and no other, where each method has an ordinal of its own.
pub fn requests_are_found()
    ensures found { MethodsHaveTheirOwn → RequestsAreFound }
    ensures read { FoundRequestsAreRead }
{
    body_is_read_where_spelled();
}

/// The endpoint that a Clone, an Open or a Watch carries is among the message's handles.
pub fn carried_endpoint_is_a_handle()
    ensures { RequestsCarryTheirEndpoints }
{}

/// What is written for a request is that request, to each protocol that has its method.
pub fn written_request_is_read()
    ensures { WrittenRequestsAreRead }
{
    spelling_is_read();
    written_header_is_read();
}

/// What is written for a request is no longer than any bytes that are that request.
pub fn written_request_is_shortest()
    ensures { RequestsAreShortest }
{
    spelling_is_shortest();
}
