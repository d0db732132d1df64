//! Requests for a part of a file's bytes. There are more of them than of all others, so that they
//! have a reader of their own, which tries no other method.

ghost use Rattle.std.specs.Prelude.{◌≡◌, ◌<◌, ℕ, [], IfSome, IsSome, Ok};
ghost use Rattle.io_messages.specs.Asked.{Asked, asked, read, read_at};
ghost use Rattle.io_messages.specs.Requests.{fields_of, request_of};
ghost use Rattle.request_reader.specs.Parts.{AsksPart};

use fidl_names::Method;
use fidl_wire::{Body, Header, Ordinals};
use io_messages::{Protocol, Request};

/// The request of a message without handles that asks a file for a part of its bytes, a Read or a
/// ReadAt, and its transaction id, which is not 0. `None` where the message asks for another thing,
/// or for none.
// In line with its parts, so that a caller that takes it apart builds no `Request`.
#[inline(always)]
pub fn read_part<'a>(ordinals: &Ordinals, bytes: &'a [u8]) -> Option<(u32, Request<'a>)>
    // It is what a file reads in the bytes, without handles.
    ensures read { IfSome result (λ r.
        request_of Protocol.File bytes.now [] ≡ Ok (r.0, asked r.1)) }
    ensures part { IfSome result (λ r. AsksPart (asked r.1)) }
    // Each request for a part is read.
    ensures each { (txid : ℕ) (a : Asked) → AsksPart a →
        request_of Protocol.File bytes.now [] ≡ Ok (txid, a) → IsSome result }
    ensures txid { IfSome result (λ r. 0 < r.0) }
{
    let Ok(header) = Header::read(bytes) else {
        return None;
    };
    if header.txid == 0 {
        return None;
    }
    let method = ordinals.method(header.ordinal)?;
    let request = part_behind(method, bytes)?;
    Some((header.txid, request))
}

/// What a message of a method, without handles, asks for behind its header, where that is a Read or
/// a ReadAt.
#[inline(always)]
fn part_behind<'a>(method: Method, bytes: &'a [u8]) -> Option<Request<'a>>
    ensures fields { IfSome result (λ request. fields_of method bytes.now [] ≡ Ok (asked request)) }
    ensures part { IfSome result (λ request. AsksPart (asked request)) }
    ensures each { (a : Asked) → AsksPart a → fields_of method bytes.now [] ≡ Ok a → IsSome result }
{
    match method {
        Method::Read => {
            let count = count_in(bytes)?;
            Some(Request::Read { count })
        }
        Method::ReadAt => {
            let (count, offset) = count_and_offset_in(bytes)?;
            Some(Request::ReadAt { count, offset })
        }
        _ => None,
    }
}

/// The count of a Read, which is all that follows the header.
#[tactic(auto, unfolding(io_messages::specs::Requests::fields_of))]
#[inline(always)]
fn count_in(bytes: &[u8]) -> Option<u64>
    ensures count { IfSome result (λ count. fields_of Method.Read bytes.now [] ≡ Ok (read count)) }
    ensures each { (count : ℕ) →
        fields_of Method.Read bytes.now [] ≡ Ok (read count) → IsSome result }
{
    let Ok(mut body) = Body::new(bytes, &[], 8) else {
        return None;
    };
    let Ok(count) = body.get_u64() else {
        return None;
    };
    match body.finish() {
        Ok(()) => Some(count),
        Err(_) => None,
    }
}

/// The count and the offset of a ReadAt, which are all that follows the header.
#[tactic(auto, unfolding(io_messages::specs::Requests::fields_of))]
#[inline(always)]
fn count_and_offset_in(bytes: &[u8]) -> Option<(u64, u64)>
    ensures fields { IfSome result (λ fields.
        fields_of Method.ReadAt bytes.now [] ≡ Ok (read_at fields.0 fields.1)) }
    ensures each { (count offset : ℕ) →
        fields_of Method.ReadAt bytes.now [] ≡ Ok (read_at count offset) → IsSome result }
{
    let Ok(mut body) = Body::new(bytes, &[], 16) else {
        return None;
    };
    let Ok(count) = body.get_u64() else {
        return None;
    };
    let Ok(offset) = body.get_u64() else {
        return None;
    };
    match body.finish() {
        Ok(()) => Some((count, offset)),
        Err(_) => None,
    }
}
