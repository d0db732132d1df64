//! The lines of a round.

ghost use Rattle.std.specs.Prelude.{◌≡◌, ◌≤◌, ◌++◌, ◌∷◌, [], codes, decimal, OnOk};
ghost use Rattle.hex.specs.Hex.{encode_lower};
ghost use Rattle.workload.specs.Workload.{acts, asks, directory, endpoint, file, opens, path, round, texts};

use crate::generating::MAX_ROUNDS;
use fidl_names::NoMemory;
use itoa::Buffer;
use vfs_script::Outtext;

// The most digits of a number of 32 bits.
const MAX_DIGITS: usize = 10;

/// Appends the lines of round `k`, which draws `v`.
pub(crate) fn put_round(k: u32, v: u32, to: &mut Outtext) -> Result<(), NoMemory>
    requires { k ≤ MAX_ROUNDS }
    ensures { OnOk result (to.new ≡ to.old ++ texts (round k v)) }
{
    put_acts(k, v, to)?;
    put_asked(k, b"hangup", to)?;
    to.put(b"\n")
}

// What the round does with its endpoint.
#[tactic(auto, unfolding(crate::specs::Workload::acts))]
fn put_acts(k: u32, v: u32, to: &mut Outtext) -> Result<(), NoMemory>
    requires { k ≤ MAX_ROUNDS }
    ensures { OnOk result (to.new ≡ to.old ++ texts (acts k v)) }
{
    match v % 4 {
        0 => put_writing(k, v, to),
        1 => put_reading(k, v, to),
        2 => put_listing(k, v, to),
        _ => put_unlinking(k, v, to),
    }
}

fn put_writing(k: u32, v: u32, to: &mut Outtext) -> Result<(), NoMemory>
    requires { k ≤ MAX_ROUNDS }
    ensures { OnOk result (to.new ≡ to.old ++ texts (opens k (path v) (codes "0x10800000006") ∷ asks k (codes "write") (encode_lower (decimal k) ∷ []) ∷ [])) }
{
    put_file_opened(k, v, b"0x10800000006", to)?;
    put_asked(k, b"write", to)?;
    to.put(b" ")?;
    put_digits(k, to)?;
    to.put(b"\n")
}

fn put_reading(k: u32, v: u32, to: &mut Outtext) -> Result<(), NoMemory>
    requires { k ≤ MAX_ROUNDS }
    ensures { OnOk result (to.new ≡ to.old ++ texts (opens k (path v) (codes "0x2") ∷ asks k (codes "read") (codes "64" ∷ []) ∷ [])) }
{
    put_file_opened(k, v, b"0x2", to)?;
    put_asked(k, b"read", to)?;
    to.put(b" 64\n")
}

fn put_listing(k: u32, v: u32, to: &mut Outtext) -> Result<(), NoMemory>
    requires { k ≤ MAX_ROUNDS }
    ensures { OnOk result (to.new ≡ to.old ++ texts (opens k (directory v) (codes "0x40") ∷ asks k (codes "list") (codes "8192" ∷ []) ∷ [])) }
{
    put_directory_opened(k, v, b"0x40", to)?;
    put_asked(k, b"list", to)?;
    to.put(b" 8192\n")
}

fn put_unlinking(k: u32, v: u32, to: &mut Outtext) -> Result<(), NoMemory>
    requires { k ≤ MAX_ROUNDS }
    ensures { OnOk result (to.new ≡ to.old ++ texts (opens k (directory v) (codes "0x100") ∷ asks k (codes "unlink") (file v ∷ codes "0" ∷ []) ∷ [])) }
{
    put_directory_opened(k, v, b"0x100", to)?;
    put_asked(k, b"unlink", to)?;
    to.put(b" ")?;
    put_file(v, to)?;
    to.put(b" 0\n")
}

// The line that opens the file.
fn put_file_opened(k: u32, v: u32, flags: &[u8], to: &mut Outtext) -> Result<(), NoMemory>
    requires { k ≤ MAX_ROUNDS }
    ensures { OnOk result (to.new ≡ to.old ++ texts (opens k (path v) flags.now ∷ [])) }
{
    put_front(v, to)?;
    to.put(b"/")?;
    put_file(v, to)?;
    put_back(k, flags, to)
}

// The line that opens the directory.
fn put_directory_opened(k: u32, v: u32, flags: &[u8], to: &mut Outtext) -> Result<(), NoMemory>
    requires { k ≤ MAX_ROUNDS }
    ensures { OnOk result (to.new ≡ to.old ++ texts (opens k (directory v) flags.now ∷ [])) }
{
    put_front(v, to)?;
    put_back(k, flags, to)
}

// A line that opens something, up to the directory.
fn put_front(v: u32, to: &mut Outtext) -> Result<(), NoMemory>
    ensures { OnOk result (to.new ≡ to.old ++ codes "open 1 " ++ directory v) }
{
    to.put(b"open 1 ")?;
    match v / 128 % 2 {
        0 => to.put(b"d"),
        _ => to.put(b"m/d"),
    }
}

// The same from the flags on.
fn put_back(k: u32, flags: &[u8], to: &mut Outtext) -> Result<(), NoMemory>
    requires { k ≤ MAX_ROUNDS }
    ensures { OnOk result (to.new ≡ to.old ++ codes " " ++ flags.now ++ codes " " ++ endpoint k ++ codes "\n") }
{
    to.put(b" ")?;
    to.put(flags)?;
    to.put(b" ")?;
    put_number(k + 1, to)?;
    to.put(b"\n")
}

// The name of the file.
fn put_file(v: u32, to: &mut Outtext) -> Result<(), NoMemory>
    ensures { OnOk result (to.new ≡ to.old ++ file v) }
{
    to.put(b"f")?;
    put_number(v / 4 % 32, to)
}

// What the endpoint is asked for, up to the fields.
fn put_asked(k: u32, verb: &[u8], to: &mut Outtext) -> Result<(), NoMemory>
    requires { k ≤ MAX_ROUNDS }
    ensures { OnOk result (to.new ≡ to.old ++ verb.now ++ codes " " ++ endpoint k) }
{
    to.put(verb)?;
    to.put(b" ")?;
    put_number(k + 1, to)
}

fn put_number(number: u32, to: &mut Outtext) -> Result<(), NoMemory>
    ensures { OnOk result (to.new ≡ to.old ++ decimal number) }
{
    let mut digits = Buffer::new();
    to.put(digits.format(number).as_bytes())
}

// The decimal digits of a number, each as the two hexadecimal digits of its byte.
fn put_digits(number: u32, to: &mut Outtext) -> Result<(), NoMemory>
    ensures { OnOk result (to.new ≡ to.old ++ encode_lower (decimal number)) }
{
    let mut buffer = Buffer::new();
    let digits = buffer.format(number).as_bytes();
    let mut pairs = [0; 2 * MAX_DIGITS];
    let pairs = &mut pairs[..2 * digits.len()];
    if hex::encode_to_slice(digits, pairs).is_err() {
        unreachable!();
    }
    to.put(pairs)
}
