//! What a file says once for many times: `<COUNT*PIECE>` stands for so many PIECEs one behind
//! another, or for so many lines where it is a line. In a PIECE `{N}` stands for the number N in
//! the first, N + 1 in the second, and so on; `{low N}` for the four bytes of that number, the low
//! one first, and `{digits N}` for the bytes of its decimal digits, both in hexadecimal digits.

use crate::numbers::number;
use anyhow::Result;
use std::alloc::Global;

/// A text with all that it says for many times, behind a line end.
pub fn written_out(alloc: Global, text: &str) -> Result<String> {
    let mut all = String::from_str(alloc, "\n")?;
    for (place, part) in text.split('<').enumerate() {
        match repeat_in(part) {
            Some((count, piece, behind)) if place > 0 => {
                let is_line = all.ends_with('\n') && behind.starts_with('\n');
                for round in 0..count {
                    if is_line && round > 0 {
                        all.push('\n')?;
                    }
                    put_piece(alloc, &mut all, piece, round)?;
                }
                all.push_str(behind)?;
            }
            _ => all.push_str(part)?,
        }
    }
    Ok(all)
}

/// The count and the piece that stand before the first `>`, and what stands behind it.
fn repeat_in(part: &str) -> Option<(u32, &str, &str)> {
    let (count, rest) = part.split_once('*')?;
    let (piece, behind) = rest.split_once('>')?;
    Some((number(count).ok()?, piece, behind))
}

/// Puts a piece with its numbers of a round.
fn put_piece(alloc: Global, all: &mut String, piece: &str, round: u32) -> Result<()> {
    for (place, part) in piece.split('{').enumerate() {
        match part.split_once('}') {
            Some((said, behind)) if place > 0 => {
                put_number(alloc, all, said, round)?;
                all.push_str(behind)?;
            }
            _ => all.push_str(part)?,
        }
    }
    Ok(())
}

/// Puts the number of a round in the form that is said.
fn put_number(alloc: Global, all: &mut String, said: &str, round: u32) -> Result<()> {
    let (form, first) = said.split_once(' ').unwrap_or(("", said));
    let text = spelled(alloc, form, number(first)?.wrapping_add(round))?;
    all.push_str(&text)?;
    Ok(())
}

/// A number in a form.
fn spelled(alloc: Global, form: &str, number: u32) -> Result<String> {
    if form == "low" {
        return Ok(hex::encode(alloc, number.to_le_bytes())?);
    }
    let digits = format!(in alloc; "{number}")?;
    match form {
        "digits" => Ok(hex::encode(alloc, &digits)?),
        _ => Ok(digits),
    }
}
