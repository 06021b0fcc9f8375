use anyhow::Result;
use cert_format::read_cert;
use lat_judge::{Judged, judge};
use std::alloc::{AllocError, Global};

// The totals that words write in decimal; 0 for any other word.
fn totals_of(alloc: Global, words: &str) -> Result<Vec<u32>, AllocError> {
    let mut totals = Vec::new(alloc);
    for word in words.split_whitespace() {
        totals.push(word.parse::<u32>().unwrap_or(0))?;
    }
    Ok(totals)
}

/// Words for what reported totals come to under bytes that are read as a certificate.
pub fn judged_words(alloc: Global, bytes: &[u8], words: &str) -> Result<String> {
    let cert = read_cert(alloc, bytes)?;
    let totals = totals_of(alloc, words)?;
    if cert.proved().is_none() {
        return Ok(String::from_str(alloc, "no deck")?);
    }
    if totals.len() != usize::from(cert.shape().targets()) {
        return Ok(String::from_str(alloc, "other targets")?);
    }
    match judge(&cert, &totals) {
        Judged::Pass => Ok(String::from_str(alloc, "pass")?),
        Judged::Differs(t, votes, told) => {
            Ok(format!(in alloc; "target {t} has {votes}, not {told}")?)
        }
    }
}
