use crate::words::number;
use anyhow::{Result, ensure};
use lat_base::{Contest, MOST_CONTESTS, Shape};
use std::alloc::Global;

// Adds the contests of a word: LIMIT:TARGETS, with a count and an x before it where they are more
// than one.
fn add_contests(contests: &mut Vec<Contest>, word: &str) -> Result<()> {
    let (count, contest) = word.split_once('x').unwrap_or(("1", word));
    let (limit, targets) = contest.split_once(':').unwrap_or((contest, ""));
    let limit = number(limit)?;
    let targets = number(targets)?;
    for _ in 0..number(count)? {
        contests.push(Contest { limit, targets })?;
    }
    Ok(())
}

/// The style of a word: its contests with commas between them, each as its limit, a colon and its
/// number of targets; `20x1:4` are twenty of them. The error is what is no number, or what
/// `Shape::new` refuses, or want of memory.
pub fn style_of(alloc: Global, word: &str) -> Result<Shape> {
    let mut contests = Vec::new(alloc);
    for part in word.split(',') {
        add_contests(&mut contests, part)?;
    }
    ensure!(
        contests.len() <= usize::from(MOST_CONTESTS),
        "too many contests"
    );
    Ok(Shape::new(alloc, contests.as_slice())?)
}
