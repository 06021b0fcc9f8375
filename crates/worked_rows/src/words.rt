use anyhow::Result;
use row_words::number;
use std::alloc::{AllocError, Global};

/// The numbers between the commas of a word; none for `-`.
pub fn numbers_of(alloc: Global, word: &str) -> Result<Vec<u16>> {
    let mut numbers = Vec::new(alloc);
    if word != "-" {
        for part in word.split(',') {
            numbers.push(number(part)?)?;
        }
    }
    Ok(numbers)
}

/// Numbers with commas between them, or `-` for none.
pub fn numbers_text(alloc: Global, numbers: &[u16]) -> Result<String, AllocError> {
    let mut text = String::new(alloc);
    for number in numbers {
        let mark = if text.is_empty() { "" } else { "," };
        write!(text, "{mark}{number}")?;
    }
    if text.is_empty() {
        text.push('-')?;
    }
    Ok(text)
}
