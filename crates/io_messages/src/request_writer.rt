ghost use Rattle.std.specs.Prelude.{◌≡◌, ◌≤◌, ◌<◌, ◌++◌, [], ◌∷◌, true, length, None, OnOk, OnErr, MatchResult};
ghost use Rattle.fidl_names.specs.Numbers.{number_bytes};
ghost use Rattle.fidl_wire.specs.Headers.{header_bytes};
ghost use Rattle.fidl_wire.specs.Spelling.{count_bytes, object_bytes};
ghost use Rattle.io_messages.specs.Asked.{asked, method_of, open_path, rename, unlink};
ghost use Rattle.io_messages.specs.Fields.{parts_of};
ghost use Rattle.io_messages.specs.Requests.{has_txid};
ghost use Rattle.io_messages.specs.Shapes.{is_one_way};
ghost use Rattle.io_messages.specs.Writing.{request_bytes, request_body, request_handles, HasTexts, Wrote};

use crate::fields::{Field, number_member, put_object, put_padded, size_of};
use crate::requests::{Request, TooLong};
use fidl_names::{Handle, MAX_BYTES, MAX_HANDLES, long_array};
use fidl_wire::{Header, Ordinals, Out};

/// The most bytes of the path of an Open without options: its message has a header and 48 bytes more.
const MOST_PATH: usize = MAX_BYTES - 64;

/// Writes a request into an empty output, in its one spelling: no other header bit, no unknown
/// member, no absent one at a table's end, and none for Unlink's flags where they are 0. `TooLong`
/// exactly where the message would have more than `MAX_BYTES` bytes; the output stays empty then.
///
/// The caller sees to it that texts are UTF-8, and that the transaction id is 0 exactly where the
/// request is Clone or OpenPath.
pub fn write_request(
    ordinals: &Ordinals,
    txid: u32,
    request: Request<'_>,
    out: &mut Out,
) -> Result<(), TooLong>
    requires empty { out.old ≡ record { bytes = []; handles = [] } }
    requires texts { HasTexts (asked request) }
    requires way { has_txid (is_one_way (method_of (asked request))) txid ≡ true }
    ensures bytes { OnOk result (out.new.bytes ≡ request_bytes txid (asked request.entry)) }
    ensures handles { OnOk result (out.new.handles ≡ request_handles (asked request.entry)) }
    ensures fits { OnOk result (length (request_bytes txid (asked request.entry)) ≤ MAX_BYTES) }
    ensures long { OnErr result (MAX_BYTES < length (request_bytes txid (asked request.entry))) }
    ensures unchanged { OnErr result (out.new ≡ out.old) }
{
    let header = Header {
        txid,
        flexible: false,
        ordinal: ordinals.of(request.method()),
    };
    write_body(header, request, out)
}

/// Writes a request's fields behind a header.
fn write_body(header: Header, request: Request<'_>, out: &mut Out) -> Result<(), TooLong>
    requires { out.old ≡ record { bytes = []; handles = [] } }
    ensures { Wrote (header_bytes header ++ request_body (asked request.entry)) (request_handles (asked request.entry)) result out.old out.new }
{
    match request {
        Request::Clone { request } => write_fields(
            header,
            &[Field::Held(Handle::Endpoint(request))],
            out,
        ),
        Request::Close | Request::Query | Request::Sync | Request::Rewind | Request::GetToken =>
            write_fields(header, &[], out),
        Request::GetAttributes { query: number }
        | Request::ReadDirents { max_bytes: number }
        | Request::Read { count: number }
        | Request::Resize { length: number } => write_long(header, number, out),
        Request::OpenPath {
            path,
            flags,
            attributes,
            object,
        } => write_open(header, path, flags, attributes, object, out),
        Request::Rename { src, token, dst } | Request::Link { src, token, dst } => {
            write_names(header, src, token, dst, out)
        }
        Request::Unlink { name, flags } => write_unlink(header, name, flags, out),
        Request::Watch {
            mask,
            options,
            watcher,
        } => {
            let fields = [
                Field::Word(mask),
                Field::Word(options),
                Field::Held(Handle::Endpoint(watcher)),
            ];
            write_fields(header, &fields, out)
        }
        Request::ReadAt { count, offset } => {
            write_fields(header, &[Field::Long(count), Field::Long(offset)], out)
        }
        Request::Write { bytes } | Request::EchoString { value: bytes } => {
            write_fields(header, &[Field::Bytes(bytes)], out)
        }
        Request::WriteAt { bytes, offset } => {
            write_fields(header, &[Field::Bytes(bytes), Field::Long(offset)], out)
        }
        Request::Seek { origin, offset } => {
            let fields = [
                Field::Word(origin),
                Field::Blank,
                Field::Long(offset.cast_unsigned()),
            ];
            write_fields(header, &fields, out)
        }
    }
}

/// A path, flags, options, and the endpoint that the node is opened for.
fn write_open(
    header: Header,
    path: &[u8],
    flags: u64,
    attributes: Option<u64>,
    object: u32,
    out: &mut Out,
) -> Result<(), TooLong>
    requires { out.old ≡ record { bytes = []; handles = [] } }
    ensures { Wrote (header_bytes header ++ request_body (open_path path.now flags attributes object)) (request_handles (open_path path.now flags attributes object)) result out.old out.new }
{
    match attributes {
        None => write_plain_open(header, path, flags, object, out),
        Some(_) => write_fields(
            header,
            &[
                Field::Bytes(path),
                Field::Long(flags),
                Field::Table(&[number_member(attributes)]),
                Field::Held(Handle::Endpoint(object)),
                Field::Blank,
            ],
            out,
        ),
    }
}

/// An Open without options: what stands in front of its path is put at once.
fn write_plain_open(
    header: Header,
    path: &[u8],
    flags: u64,
    object: u32,
    out: &mut Out,
) -> Result<(), TooLong>
    requires { out.old ≡ record { bytes = []; handles = [] } }
    ensures { Wrote (header_bytes header ++ request_body (open_path path.now flags None object)) (request_handles (open_path path.now flags None object)) result out.old out.new }
{
    if path.len() > MOST_PATH {
        return Err(TooLong);
    }
    out.begin(header);
    out.put_bytes(&open_head(path.len(), flags));
    put_padded(out, path);
    out.put_handle(Handle::Endpoint(object));
    Ok(())
}

/// What stands in front of the path of an Open without options: how many bytes it has, the flags, a table
/// without members, and the mark of the endpoint.
#[tactic(auto, unfolding(fidl_names::specs::Numbers::number_bytes))]
#[inline(always)]
fn open_head(len: usize, flags: u64) -> [u8; 48]
    requires { len ≤ MAX_BYTES }
    ensures { result ≡ count_bytes len ++ number_bytes 8 flags ++ count_bytes 0 ++ number_bytes 4 0xffff_ffff ++ number_bytes 4 0 }
{
    let c = long_array(len as u64);
    let f = long_array(flags);
    [
        c[0], c[1], c[2], c[3], c[4], c[5], c[6], c[7], 255, 255, 255, 255, 255, 255, 255, 255,
        f[0], f[1], f[2], f[3], f[4], f[5], f[6], f[7], 0, 0, 0, 0, 0, 0, 0, 0, 255, 255, 255, 255,
        255, 255, 255, 255, 255, 255, 255, 255, 0, 0, 0, 0,
    ]
}

/// Two names, and between them a token.
fn write_names<'a>(
    header: Header,
    src: &'a [u8],
    token: u32,
    dst: &'a [u8],
    out: &mut Out,
) -> Result<(), TooLong>
    requires { out.old ≡ record { bytes = []; handles = [] } }
    ensures { Wrote (header_bytes header ++ request_body (rename src.now token dst.now)) (request_handles (rename src.now token dst.now)) result out.old out.new }
{
    let fields = [
        Field::Bytes(src),
        Field::Held(Handle::Token(token)),
        Field::Blank,
        Field::Bytes(dst),
    ];
    write_fields(header, &fields, out)
}

/// A name, and flags where they are not 0.
fn write_unlink(header: Header, name: &[u8], flags: u64, out: &mut Out) -> Result<(), TooLong>
    requires { out.old ≡ record { bytes = []; handles = [] } }
    ensures { Wrote (header_bytes header ++ request_body (unlink name.now flags)) (request_handles (unlink name.now flags)) result out.old out.new }
{
    let flags = if flags == 0 { None } else { Some(flags) };
    let options = [number_member(flags)];
    write_fields(header, &[Field::Bytes(name), Field::Table(&options)], out)
}

/// Writes a message whose one field is a number of eight bytes.
#[inline(always)]
fn write_long(header: Header, number: u64, out: &mut Out) -> Result<(), TooLong>
    requires { out.old ≡ record { bytes = []; handles = [] } }
    ensures { Wrote (header_bytes header ++ object_bytes (parts_of (Field.Long number ∷ []))) [] result out.old out.new }
{
    out.begin(header);
    out.put_u64(number);
    Ok(())
}

/// Writes a message, unless it is too long.
fn write_fields(header: Header, fields: &[Field<'_, '_>], out: &mut Out) -> Result<(), TooLong>
    requires empty { out.old ≡ record { bytes = []; handles = [] } }
    requires few { length (parts_of fields.now).handles ≤ MAX_HANDLES }
    ensures { Wrote (header_bytes header ++ object_bytes (parts_of fields.now)) (parts_of fields.now).handles result out.old out.new }
{
    match size_of(fields) {
        None => Err(TooLong),
        Some(_) => {
            out.begin(header);
            put_object(out, fields);
            Ok(())
        }
    }
}
