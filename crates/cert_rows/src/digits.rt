use anyhow::Result;
use std::alloc::{AllocError, Global};

/// Adds the bytes that words of hexadecimal digits spell.
pub fn push_hex(alloc: Global, bytes: &mut Vec<u8>, text: &str) -> Result<()> {
    for word in text.split_whitespace() {
        let spelled = hex::decode(alloc, word.as_bytes())?;
        bytes.extend_from_slice(&spelled)?;
    }
    Ok(())
}

/// Adds the two bytes of a number.
pub fn push_number(bytes: &mut Vec<u8>, number: u16) -> Result<(), AllocError> {
    bytes.extend_from_slice(&number.to_be_bytes())
}

/// A word that is a number in decimal; 0 for any other.
pub fn number_of(word: &str) -> u16 {
    word.parse::<u16>().unwrap_or(0)
}

/// The first word, and what is behind the space after it.
pub fn split_word(text: &str) -> (&str, &str) {
    text.split_once(' ').unwrap_or((text, ""))
}
