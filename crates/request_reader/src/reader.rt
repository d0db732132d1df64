ghost use Rattle.std.specs.Prelude.{◌≡◌, ℕ, IfOk, Ok};
ghost use Rattle.fidl_wire.specs.Headers.{fault};
ghost use Rattle.fidl_wire.specs.Reading.{check};
ghost use Rattle.io_messages.specs.Asked.{Asked, asked};
ghost use Rattle.io_messages.specs.Requests.{has_txid, method_in, unknown_of, request_of, told, Reads, ArePartsOf};

use crate::fields::read_fields;
use fidl_names::{Handle, Method};
use fidl_wire::{Header, Ordinals, WireFault, WireWhat};
use io_messages::{Protocol, Request, RequestFault, has_method, is_one_way};

/// The request that bytes and handles are, and its transaction id.
///
/// The reasons why they are none are tried in this order: the header's first flaw (`Malformed`); an
/// ordinal that the protocol does not have; a transaction id that is 0 where the method has a reply,
/// or is not where it has none (`Txid` at 0); the first fault of the fields.
pub fn read_request<'a>(
    ordinals: &Ordinals,
    protocol: Protocol,
    bytes: &'a [u8],
    handles: &[Handle],
) -> Result<(u32, Request<'a>), RequestFault>
    // Bytes and handles are the request that is read.
    ensures found { IfOk result (λ r. Reads protocol bytes.now handles.now r.0 (asked r.1)) }
    // The request that bytes and handles are is read.
    ensures only { (txid : ℕ) (a : Asked) → Reads protocol bytes.now handles.now txid a → told result ≡ Ok (txid, a) }
    // It is the request, or the first reason why there is none.
    ensures exact { told result ≡ request_of protocol bytes.now handles.now }
    // What the request lends is where its fields say.
    ensures parts { IfOk result (λ r. ArePartsOf bytes.now (asked r.1)) }
{
    request_in(ordinals, protocol, bytes, handles)
}

/// The request, or the first reason why there is none.
fn request_in<'a>(
    ordinals: &Ordinals,
    protocol: Protocol,
    bytes: &'a [u8],
    handles: &[Handle],
) -> Result<(u32, Request<'a>), RequestFault>
    ensures exact { told result ≡ request_of protocol bytes.now handles.now }
    ensures parts { IfOk result (λ r. ArePartsOf bytes.now (asked r.1)) }
{
    let header = Header::read(bytes)?;
    match known(ordinals, protocol, header.ordinal) {
        None => Err(unknown(header)),
        Some(method) => {
            check_txid(is_one_way(method), header.txid)?;
            let request = read_fields(method, bytes, handles)?;
            Ok((header.txid, request))
        }
    }
}

/// The method of the protocol with this ordinal.
fn known(ordinals: &Ordinals, protocol: Protocol, ordinal: u64) -> Option<Method>
    ensures { result ≡ method_in protocol ordinal }
{
    let method = ordinals.method(ordinal)?;
    if has_method(protocol, method) {
        Some(method)
    } else {
        None
    }
}

/// Why a message is refused whose ordinal the protocol does not have.
fn unknown(header: Header) -> RequestFault
    ensures { result ≡ unknown_of header }
{
    if !header.flexible {
        RequestFault::UnknownStrict
    } else if header.txid == 0 {
        RequestFault::UnknownOneWay
    } else {
        let (txid, ordinal) = (header.txid, header.ordinal);
        RequestFault::UnknownTwoWay { txid, ordinal }
    }
}

/// A one-way message has the transaction id 0, and every other message another one.
fn check_txid(one_way: bool, txid: u32) -> Result<(), WireFault>
    ensures { result ≡ check (has_txid one_way txid) (fault 0 WireWhat.Txid) }
{
    if (txid == 0) == one_way {
        return Ok(());
    }
    Err(WireFault::new(0, WireWhat::Txid))
}
