use anyhow::Result;
use lat_base::{Id, Names, Names0};
use row_words::split_word;
use std::alloc::{AllocError, Global};

// The ids between the commas of a word.
fn target_ids(alloc: Global, word: &str) -> Result<Names0> {
    let mut targets = Names0::new(alloc);
    for id in word.split(',') {
        targets.push(Id::new(alloc, id.as_bytes())?)?;
    }
    Ok(targets)
}

// Adds an id.
fn push_id(text: &mut String, id: &Id) -> Result<(), AllocError> {
    text.push_str(str::from_utf8(id.as_bytes()).unwrap_or("?"))
}

// Adds the ids of a style, and of each contest and its targets.
fn push_names(text: &mut String, names: &Names) -> Result<(), AllocError> {
    push_id(text, names.style())?;
    for contest in names.contests() {
        text.push_str("; ")?;
        push_id(text, &contest.id)?;
        text.push(':')?;
        for target in contest.targets.as_slice() {
            text.push(' ')?;
            push_id(text, target)?;
        }
    }
    Ok(())
}

/// What is refused of the names that words say, and the names: the style's id, and for each contest
/// its id, a colon and the ids of its targets, with commas between them.
pub fn names(alloc: Global, rest: &str) -> Result<String> {
    let mut text = String::new(alloc);
    let (style, rest) = split_word(rest);
    let mut names = Names::new(alloc, Id::new(alloc, style.as_bytes())?);
    for word in rest.split_whitespace() {
        let (contest, targets) = word.split_once(':').unwrap_or((word, ""));
        let targets = target_ids(alloc, targets)?;
        if let Err(fault) = names.add(Id::new(alloc, contest.as_bytes())?, targets) {
            write!(text, "{contest} is refused, {fault}; ")?;
        }
    }
    push_names(&mut text, &names)?;
    Ok(text)
}
