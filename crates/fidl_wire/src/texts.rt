ghost use Rattle.std.specs.Prelude.{◌≡◌, ◌<◌, ◌≤◌, ◌||◌, ℕ, IsTrue, length, not, slice_index};
ghost use Rattle.std.specs.Str.{IsUtf8, is_utf8};

// The greatest of some bytes, or 0. No byte ends the loop, so that many are read at once.
fn greatest(bytes: &[u8]) -> u8
    ensures { (k : ℕ) → k < length bytes.now → slice_index bytes.now k ≤ result }
{
    let mut greatest = 0;
    for i in 0..bytes.len() {
        greatest = bytes[i].max(greatest);
    }
    greatest
}

/// The bytes are UTF-8. Bytes of ASCII are, and the greatest of them tells that they are of ASCII.
pub fn is_utf8(bytes: &[u8]) -> bool
    ensures value { result ≡ is_utf8 bytes.now }
    ensures text { IsTrue result → IsUtf8 bytes.now }
{
    if greatest(bytes) < 0x80 {
        return true;
    }
    str::from_utf8(bytes).is_ok()
}

/// The bytes are UTF-8, where they are a text.
pub(crate) fn may_stand(is_text: bool, bytes: &[u8]) -> bool
    ensures { result ≡ (not is_text || is_utf8 bytes.now) }
{
    if is_text { is_utf8(bytes) } else { true }
}
