//! Bytes as cells and lines say them.

use crate::outside::tree;
use anyhow::Result;
use std::alloc::Global;

/// The bytes that a text says: hexadecimal digits, `-` for none, `'` and a text in which `;` ends a
/// line, or `tree NAME`.
pub fn bytes(rt: &HostRuntime, said: &str) -> Result<Vec<u8>> {
    let alloc = rt.alloc();
    if let Some(text) = said.strip_prefix("'") {
        Ok(text.replace(alloc, ';', "\n")?.into_bytes())
    } else if let Some(name) = said.strip_prefix("tree ") {
        Ok(tree(rt, name)?.into_bytes())
    } else if said == "-" {
        Ok(Vec::new(alloc))
    } else {
        Ok(hex::decode(alloc, said)?)
    }
}

/// Bytes in hexadecimal digits, or `-` for none.
pub fn digits(alloc: Global, bytes: &[u8]) -> Result<String> {
    if bytes.is_empty() {
        return Ok(String::from_str(alloc, "-")?);
    }
    Ok(hex::encode(alloc, bytes)?)
}
