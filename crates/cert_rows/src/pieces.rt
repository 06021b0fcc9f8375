use cert_check::{check_cert, check_open_file};
use cert_format::{read_cert, read_open};
use cert_stream::StreamCheck;
use cert_types::{CertFault, Checked, Part, Verdict};
use std::alloc::Global;

/// What the check of bytes in pieces came to.
#[derive(Clone, Copy, Debug)]
pub struct Streamed {
    /// The answer at the end.
    pub checked: Result<Checked, CertFault>,
    /// Whether a piece was refused before the end.
    pub early: bool,
    /// Whether each call after a refusal gave the same one.
    pub stays: bool,
}

/// The answer where bytes are read whole and then checked.
pub fn check_whole(alloc: Global, bytes: &[u8]) -> Result<Checked, CertFault> {
    let cert = read_cert(alloc, bytes)?;
    Ok(check_cert(alloc, &cert)?)
}

/// The first fault where bytes are read as an open file and then checked.
pub fn check_open(alloc: Global, bytes: &[u8]) -> Result<Option<(Part, u64)>, CertFault> {
    let file = read_open(alloc, bytes)?;
    Ok(check_open_file(alloc, &file)?)
}

/// The answer where bytes are fed in pieces of so many, at least one.
pub fn check_in_pieces(alloc: Global, bytes: &[u8], size: u16) -> Streamed {
    let mut check = StreamCheck::new(alloc);
    let mut refused = None;
    let mut stays = true;
    for piece in bytes.chunks(usize::from(size.max(1))) {
        let fed = check.feed(piece).err();
        if refused.is_some() && fed != refused {
            stays = false;
        }
        refused = refused.or(fed);
    }
    let checked = match check.end() {
        Ok((_head, checked)) => Ok(checked),
        Err(fault) => Err(fault),
    };
    if let Some(fault) = refused {
        stays = stays && checked == Err(fault);
    }
    Streamed {
        checked,
        early: refused.is_some(),
        stays,
    }
}

/// Words for a part of a certificate.
pub fn part_word(part: Part) -> &'static str {
    match part {
        Part::Deck => "deck",
        Part::Rules => "rules",
        Part::Robust => "robust",
        Part::Lower => "lower",
        Part::License => "license",
    }
}

/// Words for a verdict, and its number of ballots.
pub fn verdict_words(verdict: Verdict) -> (&'static str, u16) {
    match verdict {
        Verdict::Least(k) => ("least", k),
        Verdict::NoneWithin(m) => ("none within", m),
        Verdict::Bounds(from) => ("open from", from),
    }
}
