ghost use Rattle.std.specs.Prelude.{◌≡◌, true, [], length};
ghost use Rattle.fidl_names.specs.StatusNumber.{number_of};
ghost use Rattle.fidl_wire.specs.Epitaphs.{epitaph_bytes, epitaph_of, heads_epitaph, is_epitaph};
ghost use Rattle.fidl_wire.specs.Headers.{header_of};

use crate::headers::Header;
use crate::output::Out;
use fidl_names::{Status, u32_at};

/// The ordinal of an epitaph, which no method has.
pub const EPITAPH_ORDINAL: u64 = u64::MAX;

const EPITAPH_SIZE: usize = 24;

/// Writes the message that says with which status its channel is closed.
pub fn epitaph(status: Status, out: &mut Out)
    requires { out.old ≡ record { bytes = []; handles = [] } }
    ensures bytes { out.new.bytes ≡ epitaph_bytes (number_of status) }
    ensures len { length out.new.bytes ≡ 24 }
    ensures handles { out.new.handles ≡ [] }
{
    out.begin(Header {
        txid: 0,
        flexible: false,
        ordinal: EPITAPH_ORDINAL,
    });
    out.put_i32(status.number());
    out.put_u32(0);
}

/// The status of an epitaph; `None` exactly where the bytes are none.
pub fn read_epitaph(bytes: &[u8]) -> Option<i32>
    ensures { result ≡ epitaph_of bytes.now }
{
    if !is_epitaph(bytes) {
        return None;
    }
    Some(u32_at(bytes, 16).cast_signed())
}

/// 24 bytes, with the header of an epitaph in front and four zeros behind the status.
fn is_epitaph(bytes: &[u8]) -> bool
    ensures value { result ≡ is_epitaph bytes.now }
    ensures size { result ≡ true → length bytes.now ≡ 24 }
{
    let size = bytes.len();
    if size != EPITAPH_SIZE {
        return false;
    }
    heads_epitaph(bytes) && u32_at(bytes, 20) == 0
}

/// A header without a flaw stands in front, with the transaction id 0 and the epitaph's ordinal.
fn heads_epitaph(bytes: &[u8]) -> bool
    ensures { result ≡ heads_epitaph (header_of bytes.now) }
{
    match Header::read(bytes) {
        Ok(header) => header.txid == 0 && header.ordinal == EPITAPH_ORDINAL,
        Err(_) => false,
    }
}
