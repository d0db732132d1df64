ghost use Rattle.std.specs.Prelude.{◌≡◌, ◌%◌, ◌^◌};
ghost use Rattle.fidl_wire.specs.Names.{ordinal_of};

use byteorder::{ByteOrder, LittleEndian};
use sha2::{Digest, Sha256};

/// All bits but the top one.
const LOW_BITS: u64 = 0x7fff_ffff_ffff_ffff;

/// The ordinal of a method by its full name, as `library/Protocol.Method`: the first eight bytes
/// of the name's SHA-256, little-endian, with the top bit cleared. It takes no memory.
#[tactic(auto, unfolding(fidl_names::specs::Numbers::number_at))]
pub fn ordinal(name: &[u8]) -> u64
    ensures { result ≡ ordinal_of name.now }
{
    let digest = Sha256::digest(name);
    low_bits(LittleEndian::read_u64(&digest))
}

/// The number with the top bit cleared.
fn low_bits(number: u64) -> u64
    ensures { result ≡ number % 2 ^ 63 }
{
    number & LOW_BITS
}
