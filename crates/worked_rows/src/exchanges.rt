ghost use Rattle.std.specs.Prelude.{◌≡◌, length, IfOk};
ghost use Rattle.lat_base.specs.Shape.{target_count};

use crate::words::{numbers_of, numbers_text};
use anyhow::{Result, ensure};
use lat_base::{MOST_TARGETS, Shape};
use lat_misassign::Misassignment;
use row_words::{number, split_word, style_of};
use std::alloc::{AllocError, Global};

/// The misassignment of a word, over the targets of a style.
pub fn sources_of(alloc: Global, shape: &Shape, word: &str) -> Result<Misassignment>
    ensures { IfOk result (λ s. length s ≡ target_count shape.now) }
{
    let sources = numbers_of(alloc, word)?;
    ensure!(
        sources.len() == usize::from(shape.targets()),
        "other targets"
    );
    Ok(Misassignment::from_sources(alloc, &sources)?)
}

// The source of each target, and whether each is its own.
fn sources_text(alloc: Global, s: &Misassignment) -> Result<String, AllocError> {
    let copy = s.copy(alloc)?;
    let mut sources = Vec::new(alloc);
    for u in 0..copy.len() {
        sources.push(copy.source(u))?;
    }
    let mut text = numbers_text(alloc, &sources)?;
    if s.as_slice() != sources.as_slice() {
        text.push_str(", and otherwise as a list")?;
    }
    if copy.is_identity() {
        text.push_str(", the identity")?;
    }
    Ok(text)
}

/// The misassignment of a list of sources, or its first fault.
pub fn sources(alloc: Global, rest: &str) -> Result<String> {
    let sources = numbers_of(alloc, rest)?;
    ensure!(
        !sources.is_empty() && sources.len() <= usize::from(MOST_TARGETS),
        "no such number of sources"
    );
    match Misassignment::from_sources(alloc, &sources) {
        Ok(s) => Ok(sources_text(alloc, &s)?),
        Err(fault) => Ok(format!(in alloc; "{fault}")?),
    }
}

/// The identity of so many targets.
pub fn identity(alloc: Global, rest: &str) -> Result<String> {
    let n = number(rest)?;
    ensure!(1 <= n && n <= MOST_TARGETS, "no such number of targets");
    let s = Misassignment::identity(alloc, n)?;
    Ok(sources_text(alloc, &s)?)
}

/// The exchange of two of so many targets.
pub fn swap(alloc: Global, rest: &str) -> Result<String> {
    let (n, rest) = split_word(rest);
    let (t, u) = split_word(rest);
    let n = number(n)?;
    let t = number(t)?;
    let u = number(u)?;
    ensure!(n <= MOST_TARGETS && t < n && u < n, "no such targets");
    let s = Misassignment::swap(alloc, n, t, u)?;
    Ok(sources_text(alloc, &s)?)
}

/// The exchange of two contests of a style, which have as many targets.
pub fn exchange(alloc: Global, rest: &str) -> Result<String> {
    let (style, rest) = split_word(rest);
    let (c, d) = split_word(rest);
    let shape = style_of(alloc, style)?;
    let c = number(c)?;
    let d = number(d)?;
    ensure!(
        c < shape.contests() && d < shape.contests(),
        "no such contests"
    );
    ensure!(
        shape.contest(c).targets == shape.contest(d).targets,
        "the contests are unlike"
    );
    let s = Misassignment::swap_contests(alloc, &shape, c, d)?;
    Ok(sources_text(alloc, &s)?)
}
