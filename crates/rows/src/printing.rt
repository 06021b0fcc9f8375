use anyhow::Result;
use std::alloc::AllocError;

/// Adds the bytes that pairs of hexadecimal digits spell; spaces between them are passed over.
pub fn push_hex(bytes: &mut Vec<u8>, text: &str) -> Result<(), AllocError> {
    let mut high = None;
    for c in text.chars() {
        if let Some(digit) = c.to_digit(16) {
            match high {
                None => high = Some(digit),
                Some(first) => {
                    bytes.push(u8::try_from((first << 4) | digit).unwrap_or(0))?;
                    high = None;
                }
            }
        }
    }
    Ok(())
}

// Whether bytes are text that a line can show.
fn is_text(bytes: &[u8]) -> bool {
    bytes.iter().all(|b| *b == b'\n' || (32..127).contains(b))
}

/// Prints bytes as lines behind a mark, or in hexadecimal where they are no plain text.
pub fn print_bytes<R: Print>(rt: &R, mark: &str, bytes: &[u8]) -> Result<()> {
    match str::from_utf8(bytes) {
        Ok(text) if is_text(bytes) => {
            for line in text.lines() {
                println!(rt; "{mark} {line}")?;
            }
        }
        _ => {
            print!(rt; "{mark} hex ")?;
            for byte in bytes {
                print!(rt; "{byte:02x}")?;
            }
            println!(rt; "")?;
        }
    }
    Ok(())
}
