//! Bytes of binary files, as the data files write them.

use anyhow::{Context, Result};
use std::alloc::Global;

/// Bytes of words: `'Time'` is the bytes of a text, any other word is hex digits.
pub fn bytes_of(alloc: Global, words: &str) -> Result<Vec<u8>> {
    let mut bytes = Vec::new(alloc);
    for word in words.split_whitespace() {
        match word.strip_prefix('\'') {
            Some(rest) => {
                let text = rest.strip_suffix('\'').context("a text has no end")?;
                bytes.extend_from_slice(text.as_bytes())?;
            }
            None => bytes.extend_from_slice(&hex::decode(alloc, word)?)?,
        }
    }
    Ok(bytes)
}

/// Numbers of 4 bytes, the highest byte first.
pub fn numbers_of(alloc: Global, words: &str) -> Result<Vec<u8>> {
    let mut bytes = Vec::new(alloc);
    for word in words.split_whitespace() {
        let number = word.parse::<i32>()?;
        bytes.extend_from_slice(&number.to_be_bytes())?;
    }
    Ok(bytes)
}

/// So many numbers of 4 bytes from a place on, a blank before each, or `None` where there are
/// fewer.
pub fn text_of(alloc: Global, bytes: &[u8], at: usize, count: usize) -> Result<Option<String>> {
    let Some(bytes) = bytes.get(at..at.saturating_add(count.saturating_mul(4))) else {
        return Ok(None);
    };
    let mut text = String::new(alloc);
    for number in bytes.chunks(4) {
        if let [a, b, c, d] = number {
            let number = i32::from_be_bytes([*a, *b, *c, *d]);
            write!(text, " {number}")?;
        }
    }
    Ok(Some(text))
}
