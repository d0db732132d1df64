// The words of a line: numbers, bytes as hexadecimal digits, handles.

ghost use Rattle.std.specs.Prelude.{◌≡◌, ◌^◌, ◌<◌, ◌≤◌, ◌&&◌, true, length, nat_lt, Some, IfOk, IfSome};
ghost use Rattle.std.specs.List.{list_all};
ghost use Rattle.std.specs.Option.{option_map};
ghost use Rattle.std.specs.Str.Parse.{IsNumeral, digits_value};
ghost use Rattle.vfs_script.specs.Words.{bytes_of, given, handles_of, has_prefix, is_decimal, is_decimal_digit, is_digit, is_hexadecimal, is_led, negative_of, number_in, numbers_of, signed_of};

use fidl_names::{MAX_HANDLES, NoMemory};
use hex::FromHexError;
use std::alloc::Global;
use text_pieces::Pieces;

const NONE: &[u8] = b"-";

/// So many decimal digits fit 64 bits, whatever they are.
const FEW_DIGITS: usize = 19;

fn is_decimal_digit(byte: u8) -> bool
    ensures { result ≡ is_decimal_digit byte }
{
    byte >= b'0' && byte <= b'9'
}

// Whether the byte is one of 0 to 9 and a to f.
fn is_digit(byte: u8) -> bool
    ensures { result ≡ is_digit byte }
{
    is_decimal_digit(byte) || (byte >= b'a' && byte <= b'f')
}

fn all_decimal(word: &[u8]) -> bool
    ensures { result ≡ list_all is_decimal_digit word.now }
{
    for byte in word {
        if !is_decimal_digit(*byte) {
            return false;
        }
    }
    true
}

// Whether the first digit is no zero in front of others.
#[tactic(auto, unfolding(crate::specs::Words::is_led))]
fn is_led(word: &[u8]) -> bool
    ensures { result ≡ is_led word.now }
{
    if word.is_empty() {
        return false;
    }
    if word.len() == 1 {
        return true;
    }
    word[0] != b'0'
}

fn all_digits(word: &[u8]) -> bool
    ensures { result ≡ list_all is_digit word.now }
{
    for byte in word {
        if !is_digit(*byte) {
            return false;
        }
    }
    true
}

// Whether the word begins with `0x`.
fn has_prefix(word: &[u8]) -> bool
    ensures { result ≡ has_prefix word.now }
{
    word.len() >= 2 && word[0] == b'0' && word[1] == b'x'
}

// The number that digits write, if it fits 64 bits.
fn digits(word: &[u8], radix: u32) -> Option<u64>
    requires low { 2 ≤ radix }
    requires high { radix ≤ 36 }
    requires numeral { IsNumeral radix word.now }
    ensures { result ≡ given (nat_lt (digits_value radix word.now) (2 ^ 64)) (digits_value radix word.now) }
{
    u64::from_str_radix(str::from_utf8(word).ok()?, radix).ok()
}

// The number that few decimal digits write, read in one pass, since most numbers are such.
fn few_decimal(word: &[u8]) -> Option<u64>
    requires { length word.now ≤ 19 }
    ensures { result ≡ given (list_all is_decimal_digit word.now) (digits_value 10 word.now) }
{
    let mut number = 0;
    for byte in word {
        if !is_decimal_digit(*byte) {
            return None;
        }
        number = 10 * number + u64::from(byte - b'0');
    }
    Some(number)
}

// The number that decimal digits write, with no zero in front of others, if it fits 64 bits.
fn decimal(word: &[u8]) -> Option<u64>
    ensures { result ≡ given (is_decimal word.now && nat_lt (digits_value 10 word.now) (2 ^ 64)) (digits_value 10 word.now) }
{
    if !is_led(word) {
        return None;
    }
    if word.len() <= FEW_DIGITS {
        return few_decimal(word);
    }
    if !all_decimal(word) {
        return None;
    }
    digits(word, 10)
}

// The number that 1 to 16 hexadecimal digits write. So few fit.
fn hexadecimal(word: &[u8]) -> Option<u64>
    ensures value { result ≡ given (is_hexadecimal word.now) (digits_value 16 word.now) }
    ensures fits { IfSome result (λ number. number < 2 ^ 64) }
{
    if word.is_empty() || word.len() > 16 || !all_digits(word) {
        return None;
    }
    digits(word, 16)
}

/// A number of 64 bits: decimal without leading zeros, or `0x` and 1 to 16 of the digits 0 to 9 and
/// a to f.
#[tactic(auto, unfolding(crate::specs::Words::number_in, crate::specs::Words::number_of))]
pub(crate) fn long(word: &[u8]) -> Option<u64>
    ensures { result ≡ number_in 64 word.now }
{
    if has_prefix(word) {
        hexadecimal(&word[2..])
    } else {
        decimal(word)
    }
}

/// The same of 32 bits.
#[tactic(auto, unfolding(crate::specs::Words::number_in))]
pub(crate) fn short(word: &[u8]) -> Option<u32>
    ensures { result ≡ number_in 32 word.now }
{
    u32::try_from(long(word)?).ok()
}

// A decimal number behind `-`.
#[tactic(auto, unfolding(crate::specs::Words::negative_of))]
fn negative(digits: &[u8]) -> Option<i64>
    ensures { result ≡ negative_of digits.now }
{
    let size = decimal(digits)?;
    if size > 1 << 63 {
        return None;
    }
    Some(0i64.wrapping_sub_unsigned(size))
}

/// A number of 64 bits with a sign: one as above, or a decimal one behind `-`.
#[tactic(auto, unfolding(crate::specs::Words::signed_of, crate::specs::Words::number_in))]
pub(crate) fn signed(word: &[u8]) -> Option<i64>
    ensures { result ≡ signed_of word.now }
{
    match word {
        [b'-', digits @ ..] => negative(digits),
        _ => i64::try_from(long(word)?).ok(),
    }
}

/// Bytes as pairs of hexadecimal digits, and `-` for none.
#[tactic(auto, unfolding(crate::specs::Words::bytes_of))]
pub(crate) fn bytes(alloc: Global, word: &[u8]) -> Result<Option<Vec<u8>>, NoMemory>
    ensures { IfOk result (λ found. option_map (λ bytes. bytes.items) found ≡ bytes_of word.now) }
{
    if word == NONE {
        return Ok(Some(Vec::new(alloc)));
    }
    if !all_digits(word) || word.is_empty() {
        return Ok(None);
    }
    match hex::decode(alloc, word) {
        Ok(bytes) => Ok(Some(bytes)),
        Err(FromHexError::OutOfMemory) => Err(NoMemory),
        Err(_) => Ok(None),
    }
}

/// At most 64 numbers of 32 bits, joined by commas, and `-` for none.
#[tactic(auto, unfolding(crate::specs::Words::handles_of))]
pub(crate) fn handles(alloc: Global, word: &[u8]) -> Result<Option<Vec<u32>>, NoMemory>
    ensures handles { IfOk result (λ found. option_map (λ numbers. numbers.items) found ≡ handles_of word.now) }
    ensures few { IfOk result (λ found. IfSome found (λ numbers. length numbers.items ≤ MAX_HANDLES)) }
{
    if word == NONE {
        return Ok(Some(Vec::new(alloc)));
    }
    let Some(numbers) = numbers(alloc, word)? else {
        return Ok(None);
    };
    if numbers.len() > MAX_HANDLES {
        return Ok(None);
    }
    Ok(Some(numbers))
}

// Numbers of 32 bits, joined by commas.
fn numbers(alloc: Global, word: &[u8]) -> Result<Option<Vec<u32>>, NoMemory>
    ensures { IfOk result (λ found. option_map (λ numbers. numbers.items) found ≡ numbers_of word.now) }
{
    let mut numbers = Vec::new(alloc);
    let mut pieces = Pieces::new(b',', word);
    while let Some(piece) = pieces.next_short() {
        let Some(number) = short(piece) else {
            return Ok(None);
        };
        numbers.push(number)?;
    }
    Ok(Some(numbers))
}
