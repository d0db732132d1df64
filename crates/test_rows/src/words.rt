use std::alloc::Global;

/// The number that a word says, in decimal or behind `0x` in hexadecimal digits.
pub(crate) fn number(word: &str) -> Option<u64> {
    match word.strip_prefix("0x") {
        Some(digits) => u64::from_str_radix(digits, 16).ok(),
        None => u64::from_str_radix(word, 10).ok(),
    }
}

/// The numbers between the commas of a word; `-` says none. Nothing where one is none, or for want of memory.
pub(crate) fn numbers(alloc: Global, word: &str) -> Option<Vec<u64>> {
    let mut all = Vec::new(alloc);
    if word != "-" {
        for part in word.split(',') {
            all.push(number(part)?).ok()?;
        }
    }
    Some(all)
}

/// The bytes that a word's hexadecimal digits say, in which `[61*255]` stands for the digits 61, 255 times; `-` says none.
/// Nothing where they are no digits, or for want of memory.
pub fn bytes(alloc: Global, word: &str) -> Option<Vec<u8>> {
    let mut all = Vec::new(alloc);
    if word != "-" {
        for part in word.split('[') {
            put_part(alloc, &mut all, part)?;
        }
    }
    Some(all)
}

/// Puts the bytes of digits, in front of which a run such as `61*255]` may stand.
fn put_part(alloc: Global, all: &mut Vec<u8>, part: &str) -> Option<()> {
    match part.split_once(']') {
        Some((run, digits)) => {
            put_run(alloc, all, run)?;
            put_digits(alloc, all, digits, 1)
        }
        None => put_digits(alloc, all, part, 1),
    }
}

fn put_run(alloc: Global, all: &mut Vec<u8>, run: &str) -> Option<()> {
    let (digits, count) = run.split_once('*')?;
    put_digits(alloc, all, digits, number(count)?)
}

/// Puts the bytes of digits, so many times.
fn put_digits(alloc: Global, all: &mut Vec<u8>, digits: &str, count: u64) -> Option<()> {
    let bytes = hex::decode(alloc, digits).ok()?;
    for _ in 0..count {
        all.extend_from_slice(&bytes).ok()?;
    }
    Some(())
}

/// A text in which each `'hi'` and each `x'6869'` becomes the list of its bytes as `{:?}` writes it, here `[104, 105]`.
/// Nothing where a list is none, or for want of memory.
pub(crate) fn with_lists(alloc: Global, text: &str) -> Option<String> {
    let mut all = String::new(alloc);
    let mut quoted = false;
    let mut in_digits = false;
    for part in text.split('\'') {
        if quoted {
            put_list(alloc, &mut all, part, in_digits)?;
        } else {
            in_digits = part.ends_with('x');
            all.push_str(part.strip_suffix('x').unwrap_or(part)).ok()?;
        }
        quoted = !quoted;
    }
    Some(all)
}

fn put_list(alloc: Global, all: &mut String, part: &str, in_digits: bool) -> Option<()> {
    if in_digits {
        let list = bytes(alloc, part)?;
        write!(all, "{list:?}").ok()
    } else {
        write!(all, "{:?}", part.as_bytes()).ok()
    }
}
