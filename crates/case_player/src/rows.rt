//! Rows of runs, with `|` between their cells: a name; the words, or `-`; the file `held`; the
//! input, which the file `input` has as well; the most bytes of a read, where several say as many
//! runs; the call that fails, as `read 1`, or `-`; the sink's room, and the most bytes of a write;
//! the output, the note (`-`: none) and the exit status. Bytes stand as `spelling` says.

use crate::numbers::{number, size};
use crate::outside::{Failing, Given, Outside, Sizes, outside_of, run};
use crate::spelling::{bytes, digits};
use crate::tally::{Tally, is_skipped};
use anyhow::{Context, Result, bail};
use std::alloc::Global;

/// The cells of a row; what is wanted is its output, note and exit status.
#[derive(Clone, Copy)]
struct Row<'a> {
    name: &'a str,
    words: &'a str,
    held: &'a str,
    input: &'a str,
    pieces: &'a str,
    failing: &'a str,
    room: &'a str,
    wanted: &'a str,
}

/// Plays the rows of a text.
pub fn play_rows(rt: &HostRuntime, text: &str) -> Result<Tally> {
    let mut tally = Tally::new();
    for line in text.lines() {
        if !is_skipped(line) {
            let row = row_in(line).context("a row has too few cells")?;
            row.play(rt, &mut tally)?;
        }
    }
    Ok(tally)
}

fn row_in(line: &str) -> Option<Row<'_>> {
    let (name, rest) = line.split_once(" | ")?;
    let (words, rest) = rest.split_once(" | ")?;
    let (held, rest) = rest.split_once(" | ")?;
    let (input, rest) = rest.split_once(" | ")?;
    let (pieces, rest) = rest.split_once(" | ")?;
    let (failing, rest) = rest.split_once(" | ")?;
    let (room, wanted) = rest.split_once(" | ")?;
    Some(Row {
        name,
        words,
        held,
        input,
        pieces,
        failing,
        room,
        wanted,
    })
}

impl Row<'_> {
    /// Plays the runs of the row: for each of its pieces.
    fn play(&self, rt: &HostRuntime, tally: &mut Tally) -> Result<()> {
        let input = bytes(rt, self.input)?;
        for piece in self.pieces.split(',') {
            let mut outside = self.outside(rt, &input, size(piece)?)?;
            let came = self.came(rt.alloc(), &mut outside)?;
            tally.count(rt, self.name, self.wanted, &came)?;
        }
        Ok(())
    }

    /// What a run has outside, by such pieces.
    fn outside(&self, rt: &HostRuntime, input: &[u8], read: usize) -> Result<Outside> {
        let sizes = sizes_in(self.room, read)?;
        let failing = failing_in(self.failing)?;
        let held = bytes(rt, self.held)?;
        let given = Given {
            held: &held,
            input,
            source: input,
        };
        let outside = outside_of(rt.alloc(), given, sizes, failing);
        outside.ok().context("no memory")
    }

    /// What the run ends with and writes, in the way in which rows say it.
    fn came(&self, alloc: Global, outside: &mut Outside) -> Result<String> {
        let status = run(alloc, self.words, outside)?;
        let output = self.spelled(alloc, outside.output())?;
        Ok(format!(in alloc; "{output} | {}", outside.end(alloc, status)?)?)
    }

    /// An output, in the way in which the row says its own.
    fn spelled(&self, alloc: Global, output: &[u8]) -> Result<String> {
        if self.wanted.starts_with('\'') {
            let lines = str::from_utf8(output)?.replace(alloc, '\n', ";")?;
            return Ok(format!(in alloc; "'{lines}")?);
        }
        digits(alloc, output)
    }
}

/// The sizes of a cell that says the room and the most of a write, by such pieces.
fn sizes_in(cell: &str, read: usize) -> Result<Sizes> {
    let (room, write) = cell.split_once(',').context("a row has no room")?;
    let room = size(room)?;
    let write = size(write)?;
    Ok(Sizes { read, room, write })
}

/// The call of a cell that fails.
fn failing_in(cell: &str) -> Result<Failing> {
    let none = Failing::none();
    let Some((kind, call)) = cell.split_once(' ') else {
        return Ok(none);
    };
    let call = Some(u64::from(number(call)?));
    match kind {
        "file" => Ok(Failing { file: call, ..none }),
        "read" => Ok(Failing { read: call, ..none }),
        "write" => Ok(Failing {
            write: call,
            ..none
        }),
        _ => bail!("no such call"),
    }
}
