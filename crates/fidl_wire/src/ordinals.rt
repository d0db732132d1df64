ghost use Rattle.std.specs.Prelude.{◌≡◌, ◌≢◌, ◌<◌, ◌≤◌, ℕ, length, slice_index, IfSome, IsNone, IfErr, OnOk, Some, MatchOption};
ghost use Rattle.fidl_names.specs.declared.methods.Method.{Method};
ghost use Rattle.fidl_wire.specs.Names.{row_of, name_at, ordinal_at, row_count, event_row, method_ordinal, event_ordinal, AreDistinct};
ghost use Rattle.fidl_wire.specs.Faults.{IsFirst};
ghost use Rattle.fidl_wire.specs.Collisions.{IsFirstEqual, AreApart, IsEarlier};

use crate::hashing::ordinal;
use fidl_names::Method;

/// The methods and the event `OnRepresentation`.
const ROWS: usize = 21;

const EVENT_ROW: usize = 20;

/// How many values the low byte of an ordinal has.
const LOW_BYTES: usize = 256;

/// Two names have equal ordinals.
#[derive(Clone, Copy, Debug)]
pub enum OrdinalFault {
    /// The rows of the first two: of all such pairs the one with the least second row, and then
    /// the least first row.
    Collision(u32, u32),
}

/// The ordinals of the methods and of the event, no two of them equal.
#[derive(Clone, Copy)]
pub struct Ordinals {
    numbers: [u64; ROWS],
    /// For each low byte a row whose ordinal may have it: the one that is tried before all others.
    hints: [u8; LOW_BYTES],
    ghost distinct: { AreDistinct },
    ghost size: { length numbers ≡ row_count },
    ghost named: { (row : ℕ) → row < row_count → slice_index numbers row ≡ ordinal_at row },
}

impl Ordinals {
    /// Hashes the names. It takes no memory.
    pub fn new() -> Result<Ordinals, OrdinalFault>
        ensures distinct { OnOk result AreDistinct }
        ensures collision { IfErr result IsFirst }
    {
        let mut numbers = [0; ROWS];
        for row in 0..ROWS {
            numbers[row] = ordinal(full_name(row));
        }
        match first_equal(&numbers) {
            None => Ok(Ordinals {
                numbers,
                hints: hints_of(&numbers),
            }),
            Some((i, j)) => Err(OrdinalFault::Collision(i as u32, j as u32)),
        }
    }

    /// The method of an ordinal; `None` exactly where no method has it.
    pub fn method(&self, ordinal: u64) -> Option<Method>
        ensures found { IfSome result (λ m. method_ordinal m ≡ ordinal) }
        ensures only { (m : Method) → method_ordinal m ≡ ordinal → result ≡ Some m }
        ensures none { IsNone result → (m : Method) → method_ordinal m ≢ ordinal }
    {
        let row = self.row_with(ordinal)?;
        method_at(row)
    }

    /// The row that has an ordinal. One that shares its low byte with no other is found at once.
    #[inline]
    fn row_with(&self, ordinal: u64) -> Option<usize>
        ensures row { IfSome result (λ row. (row < row_count) × (ordinal_at row ≡ ordinal)) }
        ensures none { IsNone result → (row : ℕ) → row < row_count → ordinal_at row ≢ ordinal }
    {
        let hint = self.hints[low_byte(ordinal)] as usize;
        if hint < ROWS && self.numbers[hint] == ordinal {
            return Some(hint);
        }
        let row = place_of(&self.numbers, ordinal)?;
        Some(row)
    }

    /// The ordinal of a method.
    pub fn of(&self, method: Method) -> u64
        ensures { result ≡ method_ordinal method }
    {
        self.numbers[row_of(method)]
    }

    /// The ordinal of `OnRepresentation`.
    pub fn event(&self) -> u64
        ensures value { result ≡ event_ordinal }
        ensures apart { (m : Method) → method_ordinal m ≢ result }
    {
        self.numbers[EVENT_ROW]
    }
}

/// The low byte of an ordinal.
#[inline]
fn low_byte(ordinal: u64) -> usize
    ensures { result < LOW_BYTES }
{
    (ordinal % LOW_BYTES as u64) as usize
}

/// For each low byte the last row whose ordinal has it, or 0.
fn hints_of(numbers: &[u64; ROWS]) -> [u8; LOW_BYTES] {
    let mut hints = [0; LOW_BYTES];
    for row in 0..ROWS {
        hints[low_byte(numbers[row])] = row as u8;
    }
    hints
}

/// The first place of a number.
fn place_of(numbers: &[u64], number: u64) -> Option<usize>
    ensures { MatchOption result ((k : ℕ) → k < length numbers.now → slice_index numbers.now k ≢ number) (λ i. IsEarlier numbers.now number i) }
{
    for (i, other) in numbers.iter().enumerate() {
        if *other == number {
            return Some(i);
        }
    }
    None
}

/// The first two places with equal numbers, by the second and then by the first.
fn first_equal(numbers: &[u64]) -> Option<(usize, usize)>
    ensures { MatchOption result (AreApart numbers.now (length numbers.now)) (λ p. IsFirstEqual numbers.now p.0 p.1) }
{
    for row in 0..numbers.len() {
        if let Some(earlier) = place_of(&numbers[..row], numbers[row]) {
            return Some((earlier, row));
        }
    }
    None
}

/// The full name in a row.
#[tactic(auto, unfolding(crate::specs::Names::full_names))]
fn full_name(row: usize) -> &'static [u8]
    requires { row < row_count }
    ensures { result.now ≡ name_at row }
{
    match row {
        0 => b"fuchsia.unknown/Cloneable.Clone",
        1 => b"fuchsia.unknown/Closeable.Close",
        2 => b"fuchsia.unknown/Queryable.Query",
        3 => b"fuchsia.io/Node.GetAttributes",
        4 => b"fuchsia.io/Node.Sync",
        5 => b"fuchsia.io/Directory.Open",
        6 => b"fuchsia.io/Directory.ReadDirents",
        7 => b"fuchsia.io/Directory.Rewind",
        8 => b"fuchsia.io/Directory.GetToken",
        9 => b"fuchsia.io/Directory.Rename",
        10 => b"fuchsia.io/Directory.Link",
        11 => b"fuchsia.io/Directory.Unlink",
        12 => b"fuchsia.io/Directory.Watch",
        13 => b"fuchsia.io/Readable.Read",
        14 => b"fuchsia.io/File.ReadAt",
        15 => b"fuchsia.io/Writable.Write",
        16 => b"fuchsia.io/File.WriteAt",
        17 => b"fuchsia.io/File.Seek",
        18 => b"fuchsia.io/File.Resize",
        19 => b"fuchsia.examples/Echo.EchoString",
        _ => b"fuchsia.io/Node.OnRepresentation",
    }
}

/// The row of a method.
fn row_of(method: Method) -> usize
    ensures row { result ≡ row_of method }
    ensures bound { result < row_count }
{
    match method {
        Method::Clone => 0,
        Method::Close => 1,
        Method::Query => 2,
        Method::GetAttributes => 3,
        Method::Sync => 4,
        Method::OpenPath => 5,
        Method::ReadDirents => 6,
        Method::Rewind => 7,
        Method::GetToken => 8,
        Method::Rename => 9,
        Method::Link => 10,
        Method::Unlink => 11,
        Method::Watch => 12,
        Method::Read => 13,
        Method::ReadAt => 14,
        Method::Write => 15,
        Method::WriteAt => 16,
        Method::Seek => 17,
        Method::Resize => 18,
        Method::EchoString => 19,
    }
}

/// The method in a row; `None` exactly where the row is no method's.
fn method_at(row: usize) -> Option<Method>
    requires { row < row_count }
    ensures found { IfSome result (λ m. row_of m ≡ row) }
    ensures none { IsNone result → (m : Method) → row_of m ≢ row }
{
    match row {
        0 => Some(Method::Clone),
        1 => Some(Method::Close),
        2 => Some(Method::Query),
        3 => Some(Method::GetAttributes),
        4 => Some(Method::Sync),
        5 => Some(Method::OpenPath),
        6 => Some(Method::ReadDirents),
        7 => Some(Method::Rewind),
        8 => Some(Method::GetToken),
        9 => Some(Method::Rename),
        10 => Some(Method::Link),
        11 => Some(Method::Unlink),
        12 => Some(Method::Watch),
        13 => Some(Method::Read),
        14 => Some(Method::ReadAt),
        15 => Some(Method::Write),
        16 => Some(Method::WriteAt),
        17 => Some(Method::Seek),
        18 => Some(Method::Resize),
        19 => Some(Method::EchoString),
        _ => None,
    }
}
