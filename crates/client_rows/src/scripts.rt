//! Scripts that were written down by hand, and generated ones.
mod rows;

use crate::scripts::rows::SCRIPTS;
use fidl_names::MAX_TEXT;
use fidl_wire::Ordinals;
use link_frames::Mode;
use std::alloc::Global;
use std::test::Fail;
use test_rows::{Row, Table, all_hold};
use vfs_script::{Script, script_of};
use workload::{MAX_ROUNDS, generated};

#[derive(Drop)]
struct Scripts {
    ordinals: Ordinals,
}

/// The lines of a cell, where each `;` stands for a line's end.
fn lines(alloc: Global, row: &Row<'_>, at: usize) -> Option<String> {
    row.cell(at)?.replace(alloc, ';', "\n").ok()
}

/// Whether so many rounds give the script of the row.
fn are_rounds(alloc: Global, row: &Row<'_>) -> bool {
    let Some(rounds) = row.number(2) else {
        return false;
    };
    if rounds < 1 || rounds > u64::from(MAX_ROUNDS) {
        return false;
    }
    let Some(lines) = lines(alloc, row, 3) else {
        return false;
    };
    match generated(alloc, rounds as u32) {
        Ok(text) => text.as_bytes() == lines.as_bytes(),
        Err(_) => false,
    }
}

/// Whether the most rounds give a script of so many bytes.
fn are_most_rounds(alloc: Global, row: &Row<'_>) -> bool {
    match generated(alloc, MAX_ROUNDS) {
        Ok(text) => row.number(2) == Some(text.len() as u64),
        Err(_) => false,
    }
}

/// What a text says as a script, in the mode that its first line says. Nothing where it is none, or
/// too long.
fn read_script(alloc: Global, ordinals: &Ordinals, text: &[u8]) -> Option<Script> {
    if text.len() > MAX_TEXT {
        return None;
    }
    let script = script_of(alloc, ordinals, text).ok()?;
    let is_auto = text.starts_with(b"auto");
    if is_auto == (script.mode() == Mode::Auto) {
        Some(script)
    } else {
        None
    }
}

/// Whether a text is a script, and stands for the row's frames.
fn stands_for(alloc: Global, ordinals: &Ordinals, row: &Row<'_>, text: &[u8]) -> bool {
    match read_script(alloc, ordinals, text) {
        Some(script) => row.has_bytes(alloc, 3, script.frames()),
        None => false,
    }
}

/// Whether the row's script stands for its frames.
fn is_script(alloc: Global, ordinals: &Ordinals, row: &Row<'_>) -> bool {
    match lines(alloc, row, 2) {
        Some(lines) => stands_for(alloc, ordinals, row, lines.as_bytes()),
        None => false,
    }
}

impl Table for Scripts {
    fn holds(&mut self, alloc: Global, row: &Row<'_>) -> bool {
        if row.is(1, "script") {
            is_script(alloc, &self.ordinals, row)
        } else if row.is(1, "rounds") {
            are_rounds(alloc, row)
        } else {
            row.is(1, "most") && are_most_rounds(alloc, row)
        }
    }
}

#[test]
fn scripts_stand_for_their_frames(rt: HostRuntime) -> Result<(), Fail> {
    let ordinals = Ordinals::new()?;
    all_hold(rt.alloc(), SCRIPTS, &mut Scripts { ordinals })
}
