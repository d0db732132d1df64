// Bytes as hexadecimal digits.

ghost use Rattle.std.specs.Prelude.{◌≡◌, ◌*◌, ◌<◌, length, slice_index};
ghost use Rattle.hex.specs.Hex.{encode_lower, lower_digits};

// The digit of a number below 16. It is computed and not looked up, so that many digits are written
// at once.
#[inline(always)]
fn digit_of(value: u8) -> u8
    requires { value < 16 }
    ensures { result ≡ slice_index lower_digits value }
{
    if value < 10 {
        b'0' + value
    } else {
        b'a' - 10 + value
    }
}

/// Writes each byte as two digits, the high four bits first.
pub(crate) fn write_digits(bytes: &[u8], to: &mut [u8])
    requires { length to.old ≡ 2 * length bytes.now }
    ensures { to.new ≡ encode_lower bytes.now }
{
    'bytes: for i in 0..bytes.len() {
        let byte = bytes[i];
        to[2 * i] = digit_of(byte >> 4);
        to[2 * i + 1] = digit_of(byte & 0x0f);
    }
}
