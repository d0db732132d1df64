ghost use Rattle.std.specs.Prelude.{◌≡◌, [], ◌∷◌, Ok, Err, IfOk, IfErr, ℕ};
ghost use Rattle.fidl_wire.specs.Layout.{struct, fields, branch, num, members};
ghost use Rattle.fidl_wire.specs.Reading.{body_of, variant_items};
ghost use Rattle.io_messages.specs.declared.protocols.Protocol.{Protocol};
ghost use Rattle.io_messages.specs.Replies.{Answered, answered, method_with, an_empty_table, event_layout, framework_cells};
ghost use Rattle.io_replies.specs.Reading.{IsPayloadOf, ReadsReply, ReadsEvent, is_framework_error, reply_of, reply_told, event_of, kind_in};

use crate::reply_fields::read_fields;
use fidl_names::{Handle, Method};
use fidl_wire::{Body, Header, Ordinals, WireFault, WireWhat};
use io_messages::{
    FRAMEWORK_ENVELOPE, FRAMEWORK_ORDINAL, ORDINAL_PLACE, Protocol, Reply, kind_with, shape_of,
};

/// The reply that bytes and handles are, and its transaction id.
///
/// The framework's error is a reply for every ordinal, `Unknown`. Otherwise the faults are tried in
/// this order: the header's first flaw; `Ordinal` at 8 where no method with a reply has it; `Txid` at
/// 0; the first fault of the fields; `Value`, for a status or an error's number that may not stand
/// there.
pub fn read_reply<'a>(
    ordinals: &Ordinals,
    bytes: &'a [u8],
    handles: &[Handle],
) -> Result<(u32, Reply<'a>), WireFault>
    // Bytes and handles are the reply that is read.
    ensures found { IfOk result (λ r. ReadsReply bytes.now handles.now r.0 (answered r.1)) }
    // The reply that bytes and handles are is read.
    ensures only { (txid : ℕ) (a : Answered) → ReadsReply bytes.now handles.now txid a → reply_told result ≡ Ok (txid, a) }
    // It is the reply, or the first fault.
    ensures exact { reply_told result ≡ reply_of bytes.now handles.now }
    // What the reply lends is where its payload stands.
    ensures parts { IfOk result (λ r. IsPayloadOf bytes.now (answered r.1)) }
{
    reply_in(ordinals, bytes, handles)
}

/// The reply, or the first fault.
fn reply_in<'a>(
    ordinals: &Ordinals,
    bytes: &'a [u8],
    handles: &[Handle],
) -> Result<(u32, Reply<'a>), WireFault>
    ensures { reply_told result ≡ reply_of bytes.now handles.now }
{
    let header = Header::read(bytes)?;
    if header.txid != 0 && is_framework_error(bytes, handles) {
        return Ok((header.txid, Reply::Unknown(header.ordinal)));
    }
    let unknown = WireFault::new(ORDINAL_PLACE, WireWhat::Ordinal);
    let Some(method) = method_with(ordinals, header.ordinal) else {
        return Err(unknown);
    };
    let Some(shape) = shape_of(method) else {
        return Err(unknown);
    };
    if header.txid == 0 {
        return Err(WireFault::new(0, WireWhat::Txid));
    }
    let reply = read_fields(shape, method, bytes, handles)?;
    Ok((header.txid, reply))
}

/// The method with this ordinal.
fn method_with(ordinals: &Ordinals, ordinal: u64) -> Option<Method>
    ensures { result ≡ method_with ordinal }
{
    ordinals.method(ordinal)
}

/// The body is the framework's error, that a method is not known.
#[tactic(auto, unfolding(crate::specs::Reading::is_framework_error))]
fn is_framework_error(bytes: &[u8], handles: &[Handle]) -> bool
    ensures { result ≡ is_framework_error bytes.now handles.now }
{
    match two_words(bytes, handles) {
        Ok((ordinal, envelope)) => ordinal == FRAMEWORK_ORDINAL && envelope == FRAMEWORK_ENVELOPE,
        Err(_) => false,
    }
}

/// A body of two numbers of eight bytes.
fn two_words(bytes: &[u8], handles: &[Handle]) -> Result<(u64, u64), WireFault>
    ensures value { IfOk result (λ r. body_of (struct framework_cells) bytes.now handles.now ≡ Ok (fields (num r.0 ∷ num r.1 ∷ []))) }
    ensures fault { IfErr result (λ e. body_of (struct framework_cells) bytes.now handles.now ≡ Err e) }
{
    let mut body = Body::new(bytes, handles, 16)?;
    let first = body.get_u64()?;
    let second = body.get_u64()?;
    body.finish()?;
    Ok((first, second))
}

/// The kind of node that an event `OnRepresentation` tells: `Directory`, `File`, or `Node` for a
/// service and for a reference to a node.
///
/// The faults are tried in this order: the header's first flaw; `Ordinal` at 8; `Txid` at 0 where the
/// transaction id is not 0; the first fault of the fields.
pub fn read_event(ordinals: &Ordinals, bytes: &[u8]) -> Result<Protocol, WireFault>
    // The bytes are the event that is read.
    ensures found { IfOk result (λ kind. ReadsEvent bytes.now kind) }
    // The event that the bytes are is read.
    ensures only { (kind : Protocol) → ReadsEvent bytes.now kind → result ≡ Ok kind }
    // It is the event, or the first fault.
    ensures exact { result ≡ event_of bytes.now }
{
    event_in(ordinals, bytes)
}

/// The kind that an event tells, or the first fault.
fn event_in(ordinals: &Ordinals, bytes: &[u8]) -> Result<Protocol, WireFault>
    ensures { result ≡ event_of bytes.now }
{
    let header = Header::read(bytes)?;
    if header.ordinal != ordinals.event() {
        return Err(WireFault::new(ORDINAL_PLACE, WireWhat::Ordinal));
    }
    if header.txid != 0 {
        return Err(WireFault::new(0, WireWhat::Txid));
    }
    read_kind(bytes)
}

/// The kind that the branch of an event's union tells.
fn read_kind(bytes: &[u8]) -> Result<Protocol, WireFault>
    ensures { result ≡ kind_in (body_of event_layout bytes.now []) }
{
    let body = Body::new(bytes, &[], 16)?;
    let ordinal = body.peek()?;
    let Some(kind) = kind_with(ordinal) else {
        return Err(WireFault::new(16, WireWhat::Ordinal));
    };
    read_empty_table(body)?;
    Ok(kind)
}

/// A branch that is an empty table, with which the message ends.
fn read_empty_table(mut body: Body<'_, '_>) -> Result<(), WireFault>
    requires { body.opened ≡ None }
    ensures value { IfOk result (λ _.
        variant_items an_empty_table body.entry ≡ Ok (members [] ∷ [])) }
    ensures fault { IfErr result (λ e. variant_items an_empty_table body.entry ≡ Err e) }
{
    body.branch(16)?;
    body.table(&[], &mut [])?;
    body.finish()
}
