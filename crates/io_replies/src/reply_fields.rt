ghost use Rattle.std.specs.Prelude.{◌≡◌, ℕ, List, Option, length, Ok, Err, Some, None, [], ◌∷◌, option_map, IfOk, IfErr};
ghost use Rattle.fidl_wire.specs.Layout.{Member as MemberOf, members};
ghost use Rattle.fidl_wire.specs.Told.{told};
ghost use Rattle.io_messages.specs.Members.{number_of};
ghost use Rattle.fidl_wire.specs.Reading.{cells_at};
ghost use Rattle.io_messages.specs.Replies.{attribute_cells};
ghost use Rattle.io_replies.specs.Reading.{status_with, failed, answer_told, reply_fields, error_in, attributes_from};

use fidl_names::{Handle, Method, Status};
use fidl_wire::{Body, Member, MemberKind, WireFault, WireWhat};
use io_messages::{Attributes, ERROR, Reply, SUCCESS, Shape};

/// Where the union of a result, or a reply's status, stands.
const STATUS_PLACE: usize = 16;

/// Where the number of a result's error stands.
const ERROR_PLACE: usize = 24;

/// Protocols, abilities, the content's size, not the storage's, the count of links, and the id.
const KNOWN_ATTRIBUTES: [MemberKind; 6] = [
    NUMBER,
    NUMBER,
    NUMBER,
    MemberKind::Unknown,
    NUMBER,
    NUMBER,
];

/// A number that may be absent.
const NUMBER: MemberKind = MemberKind::Number { required: false };

/// The fields of a method's reply of this shape, or their first fault. `Value` comes last.
pub fn read_fields<'a>(
    shape: Shape,
    method: Method,
    bytes: &'a [u8],
    handles: &[Handle],
) -> Result<Reply<'a>, WireFault>
    ensures { answer_told result ≡ reply_fields shape method bytes.now handles.now }
{
    match shape {
        Shape::Done => read_done(method, bytes, handles),
        Shape::Number => read_number(method, bytes, handles),
        Shape::Bytes => read_bytes(method, bytes, handles),
        Shape::Attributes => read_attributes(method, bytes, handles),
        Shape::Vector => read_vector(method, bytes, handles),
        Shape::Text => read_text(method, bytes, handles),
        Shape::Listing => read_listing(method, bytes, handles),
        Shape::Settled => read_settled(method, bytes, handles),
        Shape::Token => read_token(method, bytes, handles),
    }
}

/// The failure with the status of this number, which stands at `place`.
#[tactic(auto, unfolding(crate::specs::Reading::failed))]
fn failed<'a>(method: Method, place: usize, number: u32) -> Result<Reply<'a>, WireFault>
    ensures { answer_told result ≡ failed method place number }
{
    if number == 0 {
        return Err(WireFault::new(place, WireWhat::Value));
    }
    match status_with(number.cast_signed()) {
        None => Err(WireFault::new(place, WireWhat::Value)),
        Some(status) => Ok(Reply::Fails(method, status)),
    }
}

/// The status with this number.
fn status_with(number: i32) -> Option<Status>
    ensures { result ≡ status_with number }
{
    Status::from_number(number)
}

/// The error of a result.
fn read_error<'a>(method: Method, mut body: Body<'_, '_>) -> Result<Reply<'a>, WireFault>
    requires { body.opened ≡ None }
    ensures { answer_told result ≡ error_in method body.entry }
{
    let branch = body.branch(4)?;
    body.finish()?;
    match branch.inlined {
        None => unreachable!(),
        Some(number) => failed(method, ERROR_PLACE, number),
    }
}

#[tactic(auto, unfolding(crate::specs::Reading::reply_fields))]
fn read_done<'a>(
    method: Method,
    bytes: &'a [u8],
    handles: &[Handle],
) -> Result<Reply<'a>, WireFault>
    ensures { answer_told result ≡ reply_fields Shape.Done method bytes.now handles.now }
{
    let mut body = Body::new(bytes, handles, 16)?;
    match body.peek()? {
        SUCCESS => {
            body.branch(0)?;
            body.finish()?;
            Ok(Reply::Done(method))
        }
        ERROR => read_error(method, body),
        _ => Err(WireFault::new(STATUS_PLACE, WireWhat::Ordinal)),
    }
}

#[tactic(auto, unfolding(crate::specs::Reading::reply_fields))]
fn read_number<'a>(
    method: Method,
    bytes: &'a [u8],
    handles: &[Handle],
) -> Result<Reply<'a>, WireFault>
    ensures { answer_told result ≡ reply_fields Shape.Number method bytes.now handles.now }
{
    let mut body = Body::new(bytes, handles, 16)?;
    match body.peek()? {
        SUCCESS => {
            body.branch(8)?;
            let number = body.get_u64()?;
            body.finish()?;
            Ok(Reply::Number(method, number))
        }
        ERROR => read_error(method, body),
        _ => Err(WireFault::new(STATUS_PLACE, WireWhat::Ordinal)),
    }
}

#[tactic(auto, unfolding(crate::specs::Reading::reply_fields))]
fn read_bytes<'a>(
    method: Method,
    bytes: &'a [u8],
    handles: &[Handle],
) -> Result<Reply<'a>, WireFault>
    ensures { answer_told result ≡ reply_fields Shape.Bytes method bytes.now handles.now }
{
    let mut body = Body::new(bytes, handles, 16)?;
    match body.peek()? {
        SUCCESS => {
            body.branch(16)?;
            let part = body.bytes()?;
            body.finish()?;
            Ok(Reply::Payload(method, part))
        }
        ERROR => read_error(method, body),
        _ => Err(WireFault::new(STATUS_PLACE, WireWhat::Ordinal)),
    }
}

#[tactic(auto, unfolding(crate::specs::Reading::reply_fields))]
fn read_attributes<'a>(
    method: Method,
    bytes: &'a [u8],
    handles: &[Handle],
) -> Result<Reply<'a>, WireFault>
    ensures { answer_told result ≡ reply_fields Shape.Attributes method bytes.now handles.now }
{
    let mut body = Body::new(bytes, handles, 16)?;
    match body.peek()? {
        SUCCESS => {
            body.branch(32)?;
            let attributes = read_tables(&mut body)?;
            body.finish()?;
            Ok(Reply::Attributes(attributes))
        }
        ERROR => read_error(method, body),
        _ => Err(WireFault::new(STATUS_PLACE, WireWhat::Ordinal)),
    }
}

/// The two tables of the attributes.
fn read_tables(body: &mut Body<'_, '_>) -> Result<Attributes, WireFault>
    ensures value { IfOk result (λ a. (values : List (Option MemberOf)) × (length values ≡ 6) × (a ≡ attributes_from values) × (cells_at attribute_cells body.old ≡ Ok (members [] ∷ members values ∷ [], body.new))) }
    ensures fault { IfErr result (λ e. cells_at attribute_cells body.old ≡ Err e) }
{
    body.table(&[], &mut [])?;
    let mut values = [None; 6];
    body.table(&KNOWN_ATTRIBUTES, &mut values)?;
    Ok(Attributes {
        protocols: number_in(values[0]),
        abilities: number_in(values[1]),
        content_size: number_in(values[2]),
        link_count: number_in(values[4]),
        id: number_in(values[5]),
    })
}

/// The number that a member is.
fn number_in(member: Option<Member<'_>>) -> Option<u64>
    ensures { result ≡ number_of (option_map told member.entry) }
{
    match member {
        Some(Member::Number(number)) => Some(number),
        Some(Member::Bytes(_)) => None,
        None => None,
    }
}

#[tactic(auto, unfolding(crate::specs::Reading::reply_fields))]
fn read_vector<'a>(
    method: Method,
    bytes: &'a [u8],
    handles: &[Handle],
) -> Result<Reply<'a>, WireFault>
    ensures { answer_told result ≡ reply_fields Shape.Vector method bytes.now handles.now }
{
    let mut body = Body::new(bytes, handles, 16)?;
    let part = body.bytes()?;
    body.finish()?;
    Ok(Reply::Payload(method, part))
}

#[tactic(auto, unfolding(crate::specs::Reading::reply_fields))]
fn read_text<'a>(
    method: Method,
    bytes: &'a [u8],
    handles: &[Handle],
) -> Result<Reply<'a>, WireFault>
    ensures { answer_told result ≡ reply_fields Shape.Text method bytes.now handles.now }
{
    let mut body = Body::new(bytes, handles, 16)?;
    let part = body.string()?;
    body.finish()?;
    Ok(Reply::Payload(method, part))
}

#[tactic(auto, unfolding(crate::specs::Reading::reply_fields))]
fn read_listing<'a>(
    method: Method,
    bytes: &'a [u8],
    handles: &[Handle],
) -> Result<Reply<'a>, WireFault>
    ensures { answer_told result ≡ reply_fields Shape.Listing method bytes.now handles.now }
{
    let mut body = Body::new(bytes, handles, 24)?;
    let status = body.get_u32()?;
    body.pad(4)?;
    let part = body.bytes()?;
    body.finish()?;
    if status == 0 {
        return Ok(Reply::Payload(method, part));
    }
    if !part.is_empty() {
        return Err(WireFault::new(STATUS_PLACE, WireWhat::Value));
    }
    failed(method, STATUS_PLACE, status)
}

#[tactic(auto, unfolding(crate::specs::Reading::reply_fields))]
fn read_settled<'a>(
    method: Method,
    bytes: &'a [u8],
    handles: &[Handle],
) -> Result<Reply<'a>, WireFault>
    ensures { answer_told result ≡ reply_fields Shape.Settled method bytes.now handles.now }
{
    let mut body = Body::new(bytes, handles, 4)?;
    let status = body.get_u32()?;
    body.finish()?;
    if status == 0 {
        return Ok(Reply::Settled(method));
    }
    failed(method, STATUS_PLACE, status)
}

#[tactic(auto, unfolding(crate::specs::Reading::reply_fields))]
fn read_token<'a>(
    method: Method,
    bytes: &'a [u8],
    handles: &[Handle],
) -> Result<Reply<'a>, WireFault>
    ensures { answer_told result ≡ reply_fields Shape.Token method bytes.now handles.now }
{
    let mut body = Body::new(bytes, handles, 8)?;
    let status = body.get_u32()?;
    let token = body.token(true)?;
    body.finish()?;
    match (status, token) {
        (0, Some(token)) => Ok(Reply::Token(token)),
        (0, None) | (_, Some(_)) => Err(WireFault::new(STATUS_PLACE, WireWhat::Value)),
        (status, None) => failed(method, STATUS_PLACE, status),
    }
}
