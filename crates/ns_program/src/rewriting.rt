// The script, line by line.

ghost use Rattle.std.specs.Prelude.{◌≡◌, ◌++◌, ◌∷◌, ◌≤◌, ℕ, List, [], length, if◌then◌else◌, IfErr, IfOk, IfSome, IsNone, OnOk};
ghost use Rattle.io_namespace.specs.Kept.{table_of};
ghost use Rattle.ns_program.specs.Rewriting.{IsLostAt, IsRewritten, Opens, opening, spaced};
ghost use Rattle.ns_program.specs.Steps.{IsRefusal, PutsLine};
ghost use Rattle.ns_program.specs.Tables.{lines_of};

use crate::tables::Refusal;
use fidl_names::{MAX_TEXT, NoMemory};
use io_namespace::{NameFault, Namespace, Resolved, is_absolute};
use run_status::put_number;
use std::alloc::Global;
use text_pieces::Pieces;

/// What a script becomes over a table.
pub(crate) fn rewrite(alloc: Global, table: &Namespace, text: &[u8]) -> Result<Vec<u8>, Refusal>
    requires { length text.now ≤ MAX_TEXT }
    ensures written { IfOk result (λ out. IsRewritten (table_of table.now) (lines_of text.now) out.items) }
    ensures refused { IfErr result (IsRefusal (IsLostAt (table_of table.now) (lines_of text.now))) }
{
    let mut lines = Pieces::new(b'\n', text);
    let mut out = Vec::new(alloc);
    let mut number = 0;
    while let Some(line) = lines.next() {
        number += 1;
        match put_next(&mut out, alloc, table, line, number > 1) {
            Ok(true) => {}
            Ok(false) => return Err(Refusal::Line(number)),
            Err(NoMemory) => return Err(Refusal::NoMemory),
        }
    }
    Ok(out)
}

// Puts what a line becomes, behind the end of the line before it if there is one.
fn put_next(
    out: &mut Vec<u8>,
    alloc: Global,
    table: &Namespace,
    line: &[u8],
    is_behind: bool,
) -> Result<bool, NoMemory>
    ensures { IfOk result (PutsLine (table_of table.now) line.now
        (out.old.items ++ (if is_behind then 10 ∷ [] else [])) out.new.items) }
{
    if is_behind {
        out.push(b'\n')?;
    }
    put_line(out, alloc, table, line)
}

// Puts what a line becomes; or tells that it is refused.
fn put_line(
    out: &mut Vec<u8>,
    alloc: Global,
    table: &Namespace,
    line: &[u8],
) -> Result<bool, NoMemory>
    ensures { IfOk result (PutsLine (table_of table.now) line.now out.old.items out.new.items) }
{
    let Some(opened) = opened_of(line) else {
        out.extend_from_slice(line)?;
        return Ok(true);
    };
    match table.resolve(alloc, opened.path) {
        Ok(found) => {
            put_opening(out, &found, opened.flags, opened.object)?;
            Ok(true)
        }
        Err(NameFault::NoMemory) => Err(NoMemory),
        Err(_) => Ok(false),
    }
}

/// The words of a line that opens an absolute path.
#[derive(Drop)]
struct Opened<'a> {
    path: &'a [u8],
    flags: &'a [u8],
    object: &'a [u8],
}

fn opened_of(line: &[u8]) -> Option<Opened<'_>>
    ensures opens { IfSome result (λ o. Opens line.now o.path.now o.flags.now o.object.now) }
    ensures none { IsNone result → (path flags object : List ℕ) → Opens line.now path flags object → ⊥ }
{
    let mut words = Pieces::new(b' ', line);
    let verb = words.next()?;
    let path = words.next()?;
    let flags = words.next()?;
    let object = words.next()?;
    let is_whole = words.next().is_none();
    if is_whole && verb == b"open".as_slice() && is_absolute(path) {
        Some(Opened {
            path,
            flags,
            object,
        })
    } else {
        None
    }
}

// Puts the line over the endpoint to which a path leads.
fn put_opening(
    out: &mut Vec<u8>,
    found: &Resolved,
    flags: &[u8],
    object: &[u8],
) -> Result<(), NoMemory>
    ensures { OnOk result (out.new.items ≡ out.old.items ++ opening found.now.endpoint found.now.rest flags.now object.now) }
{
    put_number(out, "open ", u128::from(found.endpoint))?;
    put_word(out, found.rest.as_bytes())?;
    put_word(out, flags)?;
    put_word(out, object)
}

// Puts a word behind a space.
fn put_word(out: &mut Vec<u8>, word: &[u8]) -> Result<(), NoMemory>
    ensures { OnOk result (out.new.items ≡ out.old.items ++ spaced word.now) }
{
    out.push(b' ')?;
    out.extend_from_slice(word)?;
    Ok(())
}
