use crate::repeats::written_out;
use crate::tally::Tally;
use crate::{courses, rows, spent, worlds};
use anyhow::{Context, Result, bail};
use std::fs;

/// Plays the rows of a file, whose name ends with its kind, and prints where one doesn't hold. An
/// error says that it can't be read, or isn't of its form.
pub fn play_file(rt: &HostRuntime, name: &str) -> Result<Tally> {
    let text = fs::read_to_string(rt, name).context("can't be read")?;
    let text = written_out(rt.alloc(), &text)?;
    match name.rsplit_once('.') {
        Some((_, "runs")) => rows::play_rows(rt, &text),
        Some((_, "courses")) => courses::play_courses(rt, &text),
        Some((_, "worlds")) => worlds::play_worlds(rt, &text),
        Some((_, "spent")) => spent::play_spent(rt, &text),
        _ => bail!("no kind of file"),
    }
}
