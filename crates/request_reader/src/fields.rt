ghost use Rattle.std.specs.Prelude.{◌≡◌, ◌+◌, [], ◌∷◌, length, Ok, Err, IfOk, IfErr};
ghost use Rattle.fidl_wire.specs.Layout.{blank, seq, sizes_of};
ghost use Rattle.fidl_wire.specs.Numbers.{padded};
ghost use Rattle.fidl_wire.specs.Reading.{cells_at};
ghost use Rattle.io_messages.specs.Asked.{asked};
ghost use Rattle.io_messages.specs.Requests.{request_cells, two_names, held_token, IsPartAt, fields_of, fields_told, ArePartsOf};
ghost use Rattle.request_reader.specs.Steps.{asked_at, Begins, IsBefore};

use fidl_names::{Handle, Method};
use fidl_wire::{Body, WireFault};
use io_messages::Request;

/// The fields of a method's request, or their first fault.
pub fn read_fields<'a>(
    method: Method,
    bytes: &'a [u8],
    handles: &[Handle],
) -> Result<Request<'a>, WireFault>
    ensures value { fields_told result ≡ fields_of method bytes.now handles.now }
    ensures parts { IfOk result (λ r. ArePartsOf bytes.now (asked r)) }
{
    let mut body = Body::new(bytes, handles, inline_size(method))?;
    let request = take_fields(method, &mut body)?;
    body.finish()?;
    Ok(request)
}

/// How many bytes the fields of a method's request have, without what stands out of line.
#[inline(always)]
fn inline_size(method: Method) -> usize
    ensures { result ≡ sizes_of (request_cells method) }
{
    match method {
        Method::Clone => 4,
        Method::Close => 0,
        Method::Query => 0,
        Method::GetAttributes => 8,
        Method::Sync => 0,
        Method::OpenPath => 48,
        Method::ReadDirents => 8,
        Method::Rewind => 0,
        Method::GetToken => 0,
        Method::Rename => 40,
        Method::Link => 40,
        Method::Unlink => 32,
        Method::Watch => 12,
        Method::Read => 8,
        Method::ReadAt => 16,
        Method::Write => 16,
        Method::WriteAt => 24,
        Method::Seek => 16,
        Method::Resize => 8,
        Method::EchoString => 16,
    }
}

/// Reads the fields of a method's request, and stands behind them.
#[inline(always)]
#[tactic(auto, unfolding(crate::specs::Steps::asked_at))]
fn take_fields<'a>(method: Method, body: &mut Body<'a, '_>) -> Result<Request<'a>, WireFault>
    requires { IsBefore method body.old }
    ensures value { IfOk result (λ r. asked_at method body.old ≡ Ok (asked r, body.new)) }
    ensures fault { IfErr result (λ e. asked_at method body.old ≡ Err e) }
    ensures parts { IfOk result (λ r. ArePartsOf body.old.message (asked r)) }
{
    match method {
        Method::Clone => {
            let request = body.endpoint()?;
            Ok(Request::Clone { request })
        }
        Method::Close => Ok(Request::Close),
        Method::Query => Ok(Request::Query),
        Method::GetAttributes => {
            let query = body.get_u64()?;
            Ok(Request::GetAttributes { query })
        }
        Method::Sync => Ok(Request::Sync),
        Method::OpenPath => take_open(body),
        Method::ReadDirents => {
            let max_bytes = body.get_u64()?;
            Ok(Request::ReadDirents { max_bytes })
        }
        Method::Rewind => Ok(Request::Rewind),
        Method::GetToken => Ok(Request::GetToken),
        Method::Rename => {
            let (src, token, dst) = take_names(body)?;
            Ok(Request::Rename { src, token, dst })
        }
        Method::Link => {
            let (src, token, dst) = take_names(body)?;
            Ok(Request::Link { src, token, dst })
        }
        Method::Unlink => take_unlink(body),
        Method::Watch => take_watch(body),
        Method::Read => {
            let count = body.get_u64()?;
            Ok(Request::Read { count })
        }
        Method::ReadAt => take_read_at(body),
        Method::Write => take_write(body),
        Method::WriteAt => take_write_at(body),
        Method::Seek => take_seek(body),
        Method::Resize => {
            let length = body.get_u64()?;
            Ok(Request::Resize { length })
        }
        Method::EchoString => take_echo_string(body),
    }
}

/// Two names, and between them a token's number.
fn take_names<'a>(body: &mut Body<'a, '_>) -> Result<(&'a [u8], u32, &'a [u8]), WireFault>
    requires { Begins 56 body.old }
    ensures value { IfOk result (λ r. cells_at two_names body.old
        ≡ Ok (seq r.0.now ∷ held_token r.1 ∷ blank ∷ seq r.2.now ∷ [], body.new)) }
    ensures fault { IfErr result (λ e. cells_at two_names body.old ≡ Err e) }
    ensures first { IfOk result (λ r. IsPartAt body.old.message 56 r.0.now) }
    ensures second { IfOk result (λ r. IsPartAt body.old.message (56 + padded (length r.0.now)) r.2.now) }
{
    let src = body.string()?;
    let token = body.token(false)?.unwrap();
    body.pad(4)?;
    let dst = body.string()?;
    Ok((src, token, dst))
}

#[tactic(auto, using(io_messages::proofs::Known::number_again), unfolding(crate::specs::Steps::asked_at))]
fn take_open<'a>(body: &mut Body<'a, '_>) -> Result<Request<'a>, WireFault>
    requires { Begins 64 body.old }
    ensures value { IfOk result (λ r. asked_at Method.OpenPath body.old ≡ Ok (asked r, body.new)) }
    ensures fault { IfErr result (λ e. asked_at Method.OpenPath body.old ≡ Err e) }
    ensures parts { IfOk result (λ r. ArePartsOf body.old.message (asked r)) }
{
    let path = body.string()?;
    let flags = body.get_u64()?;
    let attributes = body.table_u64()?;
    let object = body.endpoint()?;
    body.pad(4)?;
    Ok(Request::OpenPath {
        path,
        flags,
        attributes,
        object,
    })
}

#[tactic(auto, using(io_messages::proofs::Known::number_again), unfolding(crate::specs::Steps::asked_at))]
fn take_unlink<'a>(body: &mut Body<'a, '_>) -> Result<Request<'a>, WireFault>
    requires { Begins 48 body.old }
    ensures value { IfOk result (λ r. asked_at Method.Unlink body.old ≡ Ok (asked r, body.new)) }
    ensures fault { IfErr result (λ e. asked_at Method.Unlink body.old ≡ Err e) }
    ensures parts { IfOk result (λ r. ArePartsOf body.old.message (asked r)) }
{
    let name = body.string()?;
    let flags = body.table_u64()?.unwrap_or(0);
    Ok(Request::Unlink { name, flags })
}

#[tactic(auto, unfolding(crate::specs::Steps::asked_at))]
fn take_watch<'a>(body: &mut Body<'_, '_>) -> Result<Request<'a>, WireFault>
    ensures value { IfOk result (λ r. asked_at Method.Watch body.old ≡ Ok (asked r, body.new)) }
    ensures fault { IfErr result (λ e. asked_at Method.Watch body.old ≡ Err e) }
    ensures parts { IfOk result (λ r. ArePartsOf body.old.message (asked r)) }
{
    let mask = body.get_u32()?;
    let options = body.get_u32()?;
    let watcher = body.endpoint()?;
    Ok(Request::Watch {
        mask,
        options,
        watcher,
    })
}

#[tactic(auto, unfolding(crate::specs::Steps::asked_at))]
fn take_read_at<'a>(body: &mut Body<'_, '_>) -> Result<Request<'a>, WireFault>
    ensures value { IfOk result (λ r. asked_at Method.ReadAt body.old ≡ Ok (asked r, body.new)) }
    ensures fault { IfErr result (λ e. asked_at Method.ReadAt body.old ≡ Err e) }
    ensures parts { IfOk result (λ r. ArePartsOf body.old.message (asked r)) }
{
    let count = body.get_u64()?;
    let offset = body.get_u64()?;
    Ok(Request::ReadAt { count, offset })
}

#[tactic(auto, unfolding(crate::specs::Steps::asked_at))]
fn take_write<'a>(body: &mut Body<'a, '_>) -> Result<Request<'a>, WireFault>
    requires { Begins 32 body.old }
    ensures value { IfOk result (λ r. asked_at Method.Write body.old ≡ Ok (asked r, body.new)) }
    ensures fault { IfErr result (λ e. asked_at Method.Write body.old ≡ Err e) }
    ensures parts { IfOk result (λ r. ArePartsOf body.old.message (asked r)) }
{
    let bytes = body.bytes()?;
    Ok(Request::Write { bytes })
}

#[tactic(auto, unfolding(crate::specs::Steps::asked_at))]
fn take_write_at<'a>(body: &mut Body<'a, '_>) -> Result<Request<'a>, WireFault>
    requires { Begins 40 body.old }
    ensures value { IfOk result (λ r. asked_at Method.WriteAt body.old ≡ Ok (asked r, body.new)) }
    ensures fault { IfErr result (λ e. asked_at Method.WriteAt body.old ≡ Err e) }
    ensures parts { IfOk result (λ r. ArePartsOf body.old.message (asked r)) }
{
    let bytes = body.bytes()?;
    let offset = body.get_u64()?;
    Ok(Request::WriteAt { bytes, offset })
}

#[tactic(auto, unfolding(crate::specs::Steps::asked_at))]
fn take_seek<'a>(body: &mut Body<'_, '_>) -> Result<Request<'a>, WireFault>
    ensures value { IfOk result (λ r. asked_at Method.Seek body.old ≡ Ok (asked r, body.new)) }
    ensures fault { IfErr result (λ e. asked_at Method.Seek body.old ≡ Err e) }
    ensures parts { IfOk result (λ r. ArePartsOf body.old.message (asked r)) }
{
    let origin = body.get_u32()?;
    body.pad(4)?;
    let offset = body.get_i64()?;
    Ok(Request::Seek { origin, offset })
}

#[tactic(auto, unfolding(crate::specs::Steps::asked_at))]
fn take_echo_string<'a>(body: &mut Body<'a, '_>) -> Result<Request<'a>, WireFault>
    requires { Begins 32 body.old }
    ensures value { IfOk result (λ r. asked_at Method.EchoString body.old ≡ Ok (asked r, body.new)) }
    ensures fault { IfErr result (λ e. asked_at Method.EchoString body.old ≡ Err e) }
    ensures parts { IfOk result (λ r. ArePartsOf body.old.message (asked r)) }
{
    let value = body.string()?;
    Ok(Request::EchoString { value })
}
