use anyhow::{Context, Result};

/// The number that a word says.
pub fn number(word: &str) -> Result<u32> {
    word.parse::<u32>().ok().context("no number")
}

/// The same as a size.
pub fn size(word: &str) -> Result<usize> {
    Ok(number(word)? as usize)
}
