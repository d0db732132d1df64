ghost use Rattle.std.specs.Prelude.{◌≡◌, ◌≢◌, ℕ, ◌+◌, ◌%◌, ◌<◌, ◌≤◌, List, ◌++◌, [], Some, None, length};
ghost use Rattle.fidl_wire.specs.Headers.{header_bytes};
ghost use Rattle.fidl_names.specs.Numbers.{number_bytes};
ghost use Rattle.fidl_wire.specs.Numbers.{padded, padding_after};
ghost use Rattle.fidl_wire.specs.Written.{padded_bytes};
ghost use Rattle.fidl_wire.specs.Spelling.{object_bytes, count_bytes, envelope_bytes, body_bytes, body_handles};
ghost use Rattle.io_messages.specs.Fields.{list_object, parts_of, tables_object};
ghost use Rattle.fidl_wire.specs.Told.{all_told};
ghost use Rattle.io_messages.specs.Shapes.{shape_of};
ghost use Rattle.io_messages.specs.Replies.{answered, attributes, beside_payload, payload};
ghost use Rattle.io_messages.specs.ReplyWriting.{HasReply, PayloadFits, CanFail, CanCarry, reply_bytes, reply_body, reply_handles, reply_header, layout_of, failure, carried, event_bytes, status_word};

use crate::fields::{Field, number_member, put_count, put_object, put_padded, size_of};
use crate::kinds::branch_of_kind;
use crate::protocols::Protocol;
use crate::replies::{
    Attributes, ERROR, FRAMEWORK_ENVELOPE, FRAMEWORK_ORDINAL, Reply, SUCCESS, Shape, shape_of,
};
use fidl_names::{Handle, MAX_BYTES, Method, Status, long_array, word_array};
use fidl_wire::{Header, Member, Ordinals, Out, padding_after};

/// Behind the value in an envelope: no handle, and the flag that the value stands there.
const INLINED: u32 = 0x0001_0000;

/// Writes a reply into an empty output, in its one spelling. The caller sees to it that the
/// transaction id is not 0, that the reply is one that its method has, that a failure's status is not
/// `Ok`, and that a payload leaves the message at most `MAX_BYTES` bytes.
pub fn write_reply(ordinals: &Ordinals, txid: u32, reply: Reply<'_>, out: &mut Out)
    requires empty { out.old ≡ record { bytes = []; handles = [] } }
    requires way { 0 < txid }
    requires has { HasReply (answered reply) }
    requires fits { PayloadFits (answered reply) }
    ensures bytes { out.new.bytes ≡ reply_bytes txid (answered reply.entry) }
    ensures handles { out.new.handles ≡ reply_handles (answered reply.entry) }
{
    out.begin(header_of(ordinals, txid, &reply));
    put_reply(reply, out);
}

/// Writes the reply of Read or ReadAt into an empty output: a success with these bytes, spelled as
/// `write_reply` spells their payload. The caller sees to it that the transaction id is not 0, and that
/// the message has at most `MAX_BYTES` bytes.
#[inline(always)]
pub fn write_bytes(ordinals: &Ordinals, txid: u32, method: Method, bytes: &[u8], out: &mut Out)
    requires empty { out.old ≡ record { bytes = []; handles = [] } }
    requires way { 0 < txid }
    requires shape { shape_of method ≡ Some Shape.Bytes }
    requires fits { PayloadFits (payload method bytes.now) }
    ensures bytes { out.new.bytes ≡ reply_bytes txid (payload method bytes.now) }
    ensures handles { out.new.handles ≡ reply_handles (payload method bytes.now) }
{
    out.begin(Header {
        txid,
        flexible: false,
        ordinal: ordinals.of(method),
    });
    put_success(bytes, out);
}

/// Begins the reply of ReadDirents in an empty output, for a listing of so many bytes. The caller
/// sees to it that the transaction id is not 0, appends these bytes behind it, as they are, and then
/// pads.
pub fn begin_listing(ordinals: &Ordinals, txid: u32, bytes: u32, out: &mut Out)
    requires empty { out.old ≡ record { bytes = []; handles = [] } }
    requires way { 0 < txid }
    ensures bytes { (listed : List ℕ) → length listed ≡ bytes → padded_bytes (out.new.bytes ++ listed) ≡ reply_bytes txid (payload Method.ReadDirents listed) }
    ensures len { length out.new.bytes ≡ 40 }
    ensures handles { (listed : List ℕ) → out.new.handles ≡ reply_handles (payload Method.ReadDirents listed) }
{
    out.begin(Header {
        txid,
        flexible: false,
        ordinal: ordinals.of(Method::ReadDirents),
    });
    out.put_u64(0);
    put_count(out, bytes as usize);
}

/// The header of a reply.
#[inline(always)]
fn header_of(ordinals: &Ordinals, txid: u32, reply: &Reply<'_>) -> Header
    ensures { result ≡ reply_header txid (answered reply.now) }
{
    let (flexible, ordinal) = match reply {
        Reply::Done(method) => (false, ordinals.of(*method)),
        Reply::Fails(method, _) => (false, ordinals.of(*method)),
        Reply::Number(method, _) => (false, ordinals.of(*method)),
        Reply::Payload(method, _) => (false, ordinals.of(*method)),
        Reply::Settled(method) => (false, ordinals.of(*method)),
        Reply::Token(_) => (false, ordinals.of(Method::GetToken)),
        Reply::Attributes(_) => (false, ordinals.of(Method::GetAttributes)),
        Reply::Unknown(ordinal) => (true, *ordinal),
    };
    Header {
        txid,
        flexible,
        ordinal,
    }
}

/// Appends a reply's fields.
#[inline(always)]
fn put_reply(reply: Reply<'_>, out: &mut Out)
    requires has { HasReply (answered reply) }
    requires head { length out.old.bytes ≡ 16 }
    requires free { out.old.handles ≡ [] }
    requires fits { PayloadFits (answered reply) }
    ensures bytes { out.new.bytes ≡ out.old.bytes ++ reply_body (answered reply.entry) }
    ensures handles { out.new.handles ≡ reply_handles (answered reply.entry) }
{
    match reply {
        Reply::Done(_) => put_inlined(SUCCESS, 0, out),
        Reply::Fails(method, status) => put_failure(shape_of(method), status, out),
        Reply::Number(_, number) => put_branch(SUCCESS, &[Field::Long(number)], out),
        Reply::Payload(method, bytes) => put_payload(shape_of(method), bytes, out),
        Reply::Settled(_) => put_object(out, &[Field::Word(0)]),
        Reply::Token(token) => {
            put_object(out, &[Field::Word(0), Field::Held(Handle::Token(token))])
        }
        Reply::Attributes(attributes) => put_attributes(&attributes, out),
        Reply::Unknown(_) => put_object(
            out,
            &[
                Field::Long(FRAMEWORK_ORDINAL),
                Field::Long(FRAMEWORK_ENVELOPE),
            ],
        ),
    }
}

/// Appends a union whose value stands in its envelope.
fn put_inlined(ordinal: u64, value: u32, out: &mut Out)
    requires { length out.old.bytes + 16 ≤ MAX_BYTES }
    ensures bytes { out.new.bytes ≡ out.old.bytes ++ (number_bytes 8 ordinal ++ envelope_bytes value 0 1) }
    ensures handles { out.new.handles ≡ out.old.handles }
{
    out.put_u64(ordinal);
    out.put_u32(value);
    out.put_u32(INLINED);
}

/// Appends a union whose branch is an object without handles.
fn put_branch(ordinal: u64, fields: &[Field<'_, '_>], out: &mut Out)
    requires aligned { length (parts_of fields.now).inline % 8 ≡ 0 }
    requires free { (parts_of fields.now).handles ≡ [] }
    requires room { 32 + length (object_bytes (parts_of fields.now)) ≤ MAX_BYTES }
    requires head { length out.old.bytes ≡ 16 }
    requires handles { out.old.handles ≡ [] }
    ensures bytes { out.new.bytes ≡ out.old.bytes ++ (number_bytes 8 ordinal ++ envelope_bytes (length (object_bytes (parts_of fields.now))) 0 0 ++ object_bytes (parts_of fields.now)) }
    ensures handles { out.new.handles ≡ [] }
{
    let size = size_of(fields).unwrap();
    out.put_u64(ordinal);
    out.put_u32(size as u32);
    out.put_u32(0);
    put_object(out, fields);
}

/// Appends the failure of a method whose reply has this shape.
fn put_failure(shape: Option<Shape>, status: Status, out: &mut Out)
    requires can { CanFail shape }
    requires head { length out.old.bytes ≡ 16 }
    requires free { out.old.handles ≡ [] }
    ensures bytes { out.new.bytes ≡ out.old.bytes ++ body_bytes (layout_of shape) (failure shape (status_word status)) }
    ensures handles { out.new.handles ≡ body_handles (layout_of shape) (failure shape (status_word status)) }
{
    let number = status.number().cast_unsigned();
    match shape {
        Some(Shape::Listing) => put_object(
            out,
            &[Field::Word(number), Field::Blank, Field::Bytes(b"")],
        ),
        Some(Shape::Settled) => put_object(out, &[Field::Word(number)]),
        Some(Shape::Token) => put_object(out, &[Field::Word(number), Field::Absent]),
        Some(Shape::Done) => put_inlined(ERROR, number, out),
        Some(Shape::Number) => put_inlined(ERROR, number, out),
        Some(Shape::Bytes) => put_inlined(ERROR, number, out),
        Some(Shape::Attributes) => put_inlined(ERROR, number, out),
        Some(Shape::Vector) | Some(Shape::Text) | None => unreachable!(),
    }
}

/// Appends the bytes that a method answers whose reply has this shape.
#[inline(always)]
fn put_payload(shape: Option<Shape>, bytes: &[u8], out: &mut Out)
    requires can { CanCarry shape bytes.now }
    requires head { length out.old.bytes ≡ 16 }
    requires free { out.old.handles ≡ [] }
    requires fits { beside_payload shape + padded (length bytes.now) ≤ MAX_BYTES }
    ensures bytes { out.new.bytes ≡ out.old.bytes ++ body_bytes (layout_of shape) (carried shape bytes.now) }
    ensures handles { out.new.handles ≡ body_handles (layout_of shape) (carried shape bytes.now) }
{
    match shape {
        Some(Shape::Bytes) => put_success(bytes, out),
        Some(Shape::Vector) => put_object(out, &[Field::Bytes(bytes)]),
        Some(Shape::Text) => put_object(out, &[Field::Bytes(bytes)]),
        Some(Shape::Listing) => {
            put_object(out, &[Field::Word(0), Field::Blank, Field::Bytes(bytes)])
        }
        _ => unreachable!(),
    }
}

/// Appends the success of a method that answers a list of bytes.
#[inline(always)]
fn put_success(bytes: &[u8], out: &mut Out)
    requires head { length out.old.bytes ≡ 16 }
    requires free { out.old.handles ≡ [] }
    requires fits { 48 + padded (length bytes.now) ≤ MAX_BYTES }
    ensures bytes { out.new.bytes ≡ out.old.bytes ++ (number_bytes 8 1 ++ envelope_bytes (length (list_object bytes.now)) 0 0 ++ list_object bytes.now) }
    ensures handles { out.new.handles ≡ [] }
{
    out.put_bytes(&success_head(bytes.len()));
    put_padded(out, bytes);
}

/// What stands before so many bytes of a success: the first branch, the size of its list, and the list's
/// count.
#[tactic(auto, unfolding(fidl_names::specs::Numbers::number_bytes))]
#[inline(always)]
fn success_head(len: usize) -> [u8; 32]
    requires { len ≤ MAX_BYTES }
    ensures { result ≡ number_bytes 8 1 ++ envelope_bytes (16 + len + padding_after len) 0 0 ++ count_bytes len }
{
    let size = 16 + len + padding_after(len);
    let s = word_array(size as u32);
    let c = long_array(len as u64);
    [
        1, 0, 0, 0, 0, 0, 0, 0, s[0], s[1], s[2], s[3], 0, 0, 0, 0, c[0], c[1], c[2], c[3], c[4],
        c[5], c[6], c[7], 255, 255, 255, 255, 255, 255, 255, 255,
    ]
}

/// Appends the attributes: no mutable ones, and the immutable ones that are given.
fn put_attributes(a: &Attributes, out: &mut Out)
    requires head { length out.old.bytes ≡ 16 }
    requires free { out.old.handles ≡ [] }
    ensures bytes { out.new.bytes ≡ out.old.bytes ++ reply_body (attributes a.now) }
    ensures handles { out.new.handles ≡ [] }
{
    let members = [
        number_member(a.protocols),
        number_member(a.abilities),
        number_member(a.content_size),
        None,
        number_member(a.link_count),
        number_member(a.id),
    ];
    put_tables(&[], &members, out);
}

/// Appends a result with two tables.
fn put_tables<'a, 'b>(
    first: &'b [Option<Member<'a>>],
    second: &'b [Option<Member<'a>>],
    out: &mut Out,
)
    requires head { length out.old.bytes ≡ 16 }
    requires free { out.old.handles ≡ [] }
    requires room { 32 + length (tables_object (all_told first.now) (all_told second.now)) ≤ MAX_BYTES }
    ensures bytes { out.new.bytes ≡ out.old.bytes ++ (number_bytes 8 1 ++ envelope_bytes (length (tables_object (all_told first.now) (all_told second.now))) 0 0 ++ tables_object (all_told first.now) (all_told second.now)) }
    ensures handles { out.new.handles ≡ [] }
{
    put_branch(SUCCESS, &[Field::Table(first), Field::Table(second)], out);
}

/// Writes the event `OnRepresentation` into an empty output: the kind of node that was opened. A
/// service is told as node.
pub fn write_event(ordinals: &Ordinals, kind: Protocol, out: &mut Out)
    requires empty { out.old ≡ record { bytes = []; handles = [] } }
    requires kind { kind ≢ Protocol.Watcher }
    ensures bytes { out.new.bytes ≡ event_bytes kind }
    ensures handles { out.new.handles ≡ [] }
{
    out.begin(Header {
        txid: 0,
        flexible: false,
        ordinal: ordinals.event(),
    });
    put_branch(branch_of_kind(kind), &[Field::Table(&[])], out);
}
