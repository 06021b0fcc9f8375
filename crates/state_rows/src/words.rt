use anyhow::Result;
use row_words::number;

/// The two numbers that a word writes, with a dot between them.
pub fn pair(word: &str) -> Result<(u16, u16)> {
    let (first, second) = split_dot(word);
    let first = number(first)?;
    let second = number(second)?;
    Ok((first, second))
}

/// What stands before the first dot, and what behind it.
pub fn split_dot(word: &str) -> (&str, &str) {
    word.split_once('.').unwrap_or((word, ""))
}
