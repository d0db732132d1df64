// The table's file.

ghost use Rattle.std.specs.Prelude.{◌≡◌, ℕ, decimal, length, ◌≤◌, List, Some, None, IfErr, IfOk, IfSome, IsNone, IsTrue, IsUtf8, ◌↔◌};
ghost use Rattle.io_namespace.specs.Kept.{table_of};
ghost use Rattle.ns_program.specs.Steps.{IsRefusal, ReadsLine};
ghost use Rattle.ns_program.specs.Tables.{IsClients, IsEntry, IsRefusedAt, Says, is_skipped, lines_of};

use fidl_names::{FIRST_MOUNT_END, MAX_TEXT, NoMemory};
use io_namespace::{NameFault, Namespace};
use itoa::Buffer;
use std::alloc::Global;
use text_pieces::Pieces;

/// Why there is no table, or no text: the first line that is refused, counted from 1.
pub(crate) enum Refusal {
    Line(u64),
    NoMemory,
}

/// The table that a text says.
pub(crate) fn read_table(alloc: Global, text: &[u8]) -> Result<Namespace, Refusal>
    requires { length text.now ≤ MAX_TEXT }
    ensures says { IfOk result (λ table. Says (lines_of text.now) (table_of table)) }
    ensures refused { IfErr result (IsRefusal (IsRefusedAt (lines_of text.now))) }
{
    let mut lines = Pieces::new(b'\n', text);
    let mut table = Namespace::new(alloc);
    let mut number = 0;
    while let Some(line) = lines.next() {
        number += 1;
        match read_line(&mut table, line) {
            Ok(true) => {}
            Ok(false) => return Err(Refusal::Line(number)),
            Err(NoMemory) => return Err(Refusal::NoMemory),
        }
    }
    Ok(table)
}

// Adds the entry of a line, if it isn't skipped; or tells that it is refused.
fn read_line(table: &mut Namespace, line: &[u8]) -> Result<bool, NoMemory>
    ensures { IfOk result (ReadsLine (table_of table.old) line.now (table_of table.new)) }
{
    if is_skipped(line) {
        return Ok(true);
    }
    let Some((prefix, endpoint)) = entry_of(line) else {
        return Ok(false);
    };
    match table.add(prefix, endpoint) {
        Ok(()) => Ok(true),
        Err(NameFault::NoMemory) => Err(NoMemory),
        Err(_) => Ok(false),
    }
}

fn is_skipped(line: &[u8]) -> bool
    ensures { result ≡ is_skipped line.now }
{
    line.is_empty() || line[0] == b'#'
}

// The prefix and the endpoint of a line.
fn entry_of(line: &[u8]) -> Option<(&[u8], u32)>
    ensures entry { IfSome result (λ entry. IsEntry line.now entry.0.now entry.1) }
    ensures none { IsNone result → (prefix : List ℕ) (endpoint : ℕ) → IsEntry line.now prefix endpoint → ⊥ }
{
    let mut words = Pieces::new(b' ', line);
    let prefix = words.next()?;
    let endpoint = endpoint_of(words.next()?)?;
    match words.next() {
        None => Some((prefix, endpoint)),
        Some(_) => None,
    }
}

// The number of an endpoint that a word says: written as it is printed.
fn endpoint_of(word: &[u8]) -> Option<u32>
    ensures said { IfSome result (λ endpoint. (word.now ≡ decimal endpoint) × IsClients endpoint) }
    ensures none { IsNone result → (endpoint : ℕ) → word.now ≡ decimal endpoint → IsClients endpoint → ⊥ }
{
    let endpoint = number_of(word)?;
    if endpoint >= 1 && endpoint < FIRST_MOUNT_END {
        Some(endpoint)
    } else {
        None
    }
}

// The number of 32 bits that is printed so.
fn number_of(word: &[u8]) -> Option<u32>
    ensures said { IfSome result (λ number. word.now ≡ decimal number) }
    ensures few { IfSome result (λ number. number ≤ 4294967295) }
    ensures none { IsNone result → (number : ℕ) → word.now ≡ decimal number → number ≤ 4294967295 → ⊥ }
{
    let text = text_of(word)?;
    let number = text.parse::<u32>().ok()?;
    let mut digits = Buffer::new();
    if is_same(digits.format(number).as_bytes(), word) {
        Some(number)
    } else {
        None
    }
}

fn text_of(word: &[u8]) -> Option<&str>
    ensures text { IfSome result (λ text. text.now ≡ word.now) }
    ensures none { IsNone result → IsUtf8 word.now → ⊥ }
{
    match str::from_utf8(word) {
        Ok(text) => Some(text),
        Err(_) => None,
    }
}

fn is_same(first: &[u8], second: &[u8]) -> bool
    ensures { IsTrue result ↔ (first.now ≡ second.now) }
{
    first == second
}
