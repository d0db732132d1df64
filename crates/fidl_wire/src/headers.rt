ghost use Rattle.std.specs.Prelude.{◌≡◌};
ghost use Rattle.fidl_wire.specs.Headers.{header_of};

use crate::faults::{WireFault, WireWhat};
use byteorder::{ByteOrder, LittleEndian};

/// How many bytes a header has.
pub const HEADER_SIZE: usize = 16;

/// The last of the magic bytes, for the version of the format that is compatible.
pub const MAGIC: u8 = 0x01;

/// In the first byte of the at-rest flags: version 2 of the format.
pub const VERSION_BIT: u8 = 0x02;

/// In the dynamic flags: the receiver may ignore the message.
pub const FLEXIBLE_BIT: u8 = 0x80;

/// In the dynamic flags: the message's bytes stand in a handle of their own.
pub const OVERFLOW_BIT: u8 = 0x40;

/// The header of a transactional message.
#[derive(Clone, Copy, Debug)]
pub struct Header {
    /// What ties a reply to its request; 0 for a one-way message.
    pub txid: u32,
    /// A receiver that does not know the method may go on.
    pub flexible: bool,
    pub ordinal: u64,
}

impl Header {
    /// The header at the front of a message, by the FIDL wire format, version 2. The checks come
    /// in the order `Short`, `Magic`, `Version`, `Overflow`; other bits are ignored.
    #[tactic(auto, unfolding(fidl_names::specs::Numbers::number_at))]
    pub fn read(bytes: &[u8]) -> Result<Header, WireFault>
        ensures { result ≡ header_of bytes.now }
    {
        if bytes.len() < HEADER_SIZE {
            return Err(WireFault::new(bytes.len(), WireWhat::Short));
        }
        let is_magic = bytes[7] == MAGIC;
        if !is_magic {
            return Err(WireFault::new(7, WireWhat::Magic));
        }
        if bytes[4] & VERSION_BIT == 0 {
            return Err(WireFault::new(4, WireWhat::Version));
        }
        if bytes[6] & OVERFLOW_BIT != 0 {
            return Err(WireFault::new(6, WireWhat::Overflow));
        }
        Ok(Header {
            txid: LittleEndian::read_u32(bytes),
            flexible: bytes[6] & FLEXIBLE_BIT != 0,
            ordinal: LittleEndian::read_u64(&bytes[8..]),
        })
    }
}
