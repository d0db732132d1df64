use crate::words;
use std::alloc::Global;
use std::fmt::Debug;
use std::test::Fail;

/// A line of a text: its cells, with `|` between them. The first cell is the row's name.
#[derive(Clone, Copy)]
pub struct Row<'a> {
    line: &'a str,
}

/// A table that can tell of each of its rows whether what it says holds. A row whose cells don't say what is read in them doesn't hold.
pub trait Table {
    fn holds(&mut self, alloc: Global, row: &Row<'_>) -> bool;
}

/// Tries the rows of a text in order: its lines, without those that are empty or begin with `#`. It fails with the name of the first that
/// doesn't hold, and where there is no row. A text stands as bytes, since a constant of these is proved in half the time.
pub fn all_hold<T: Table>(alloc: Global, text: &[u8], table: &mut T) -> Result<(), Fail> {
    let mut is_empty = true;
    for line in str::from_utf8(text)?.lines() {
        let row = Row { line: line.trim() };
        if row.is_skipped() {
            continue;
        }
        if !table.holds(alloc, &row) {
            return Err(Fail::new(row.name()));
        }
        is_empty = false;
    }
    if is_empty {
        return Err(Fail::new("a text without rows"));
    }
    Ok(())
}

impl<'a> Row<'a> {
    fn is_skipped(&self) -> bool {
        self.line.is_empty() || self.line.starts_with('#')
    }

    /// What stands before the first `|`.
    pub fn name(&self) -> &'a str {
        match self.cell(0) {
            Some(name) => name,
            None => self.line,
        }
    }

    /// The cell at a place, counted from 0 at the name, without the spaces around it. Nothing where the row has no such cell, as below where
    /// it doesn't say such a value, or memory is wanting.
    pub fn cell(&self, at: usize) -> Option<&'a str> {
        match self.line.split('|').nth(at) {
            Some(cell) => Some(cell.trim()),
            None => None,
        }
    }

    /// Whether a cell is this word. What a row is for is asked so, word by word: a `match` over texts is proved over all words before it.
    pub fn is(&self, at: usize, word: &str) -> bool {
        match self.cell(at) {
            Some(cell) => cell == word,
            None => false,
        }
    }

    pub fn number(&self, at: usize) -> Option<u64> {
        words::number(self.cell(at)?)
    }

    /// The value that stands beside the cell's word.
    pub fn named<T: Copy>(&self, at: usize, words: &[(&str, T)]) -> Option<T> {
        let cell = self.cell(at)?;
        for (word, value) in words {
            if *word == cell {
                return Some(*value);
            }
        }
        None
    }

    /// The numbers between the commas of a cell; `-` says none.
    pub fn numbers(&self, alloc: Global, at: usize) -> Option<Vec<u64>> {
        words::numbers(alloc, self.cell(at)?)
    }

    pub fn bytes(&self, alloc: Global, at: usize) -> Option<Vec<u8>> {
        words::bytes(alloc, self.cell(at)?)
    }

    /// Whether the cell says these bytes. Want of memory says no.
    pub fn has_bytes(&self, alloc: Global, at: usize, bytes: &[u8]) -> bool {
        match self.bytes(alloc, at) {
            Some(said) => said.as_slice() == bytes,
            None => false,
        }
    }

    /// Whether the cell says a value as `{:?}` writes it, with texts in place of lists of bytes. Want of memory says no.
    pub fn says<T: Debug>(&self, alloc: Global, at: usize, value: &T) -> bool {
        let Some(wanted) = self.text(alloc, at) else {
            return false;
        };
        match format!(in alloc; "{value:?}") {
            Ok(said) => said == wanted,
            Err(_) => false,
        }
    }

    /// The cell with lists of bytes in place of texts.
    fn text(&self, alloc: Global, at: usize) -> Option<String> {
        words::with_lists(alloc, self.cell(at)?)
    }
}
