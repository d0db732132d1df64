ghost use Rattle.std.specs.Prelude.{◌≡◌, ◌+◌, ◌≤◌, length};
ghost use Rattle.fidl_names.specs.Numbers.{number_at, number_bytes};

use byteorder::{ByteOrder, LittleEndian};

/// The number in the two bytes from offset `at` on, the low byte first.
#[tactic(auto, unfolding(crate::specs::Numbers::number_at))]
pub fn u16_at(bytes: &[u8], at: usize) -> u16
    requires { at + 2 ≤ length bytes.now }
    ensures { result ≡ number_at 2 at bytes.now }
{
    LittleEndian::read_u16(&bytes[at..])
}

/// The number in the four bytes from offset `at` on, the low byte first.
#[tactic(auto, unfolding(crate::specs::Numbers::number_at))]
pub fn u32_at(bytes: &[u8], at: usize) -> u32
    requires { at + 4 ≤ length bytes.now }
    ensures { result ≡ number_at 4 at bytes.now }
{
    LittleEndian::read_u32(&bytes[at..])
}

/// The number in the eight bytes from offset `at` on, the low byte first.
#[tactic(auto, unfolding(crate::specs::Numbers::number_at))]
pub fn u64_at(bytes: &[u8], at: usize) -> u64
    requires { at + 8 ≤ length bytes.now }
    ensures { result ≡ number_at 8 at bytes.now }
{
    LittleEndian::read_u64(&bytes[at..])
}

/// A number in four bytes, the low byte first.
#[tactic(auto, unfolding(crate::specs::Numbers::number_bytes))]
#[inline]
pub fn word_array(v: u32) -> [u8; 4]
    ensures { result ≡ number_bytes 4 v }
{
    let mut word = [0; 4];
    LittleEndian::write_u32(&mut word, v);
    word
}

/// A number in eight bytes, the low byte first.
#[tactic(auto, unfolding(crate::specs::Numbers::number_bytes))]
#[inline]
pub fn long_array(v: u64) -> [u8; 8]
    ensures { result ≡ number_bytes 8 v }
{
    let mut long = [0; 8];
    LittleEndian::write_u64(&mut long, v);
    long
}
