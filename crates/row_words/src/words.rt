use anyhow::Result;

/// The number that a word writes in decimal. The error is that it writes none, or one of more than
/// 16 bits.
pub fn number(word: &str) -> Result<u16> {
    Ok(word.parse::<u16>()?)
}

/// The first word, and what is behind the space after it.
pub fn split_word(text: &str) -> (&str, &str) {
    text.split_once(' ').unwrap_or((text, ""))
}
