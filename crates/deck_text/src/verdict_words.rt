ghost use Rattle.std.specs.Prelude.{◌≡◌, ◌++◌, IfOk};
ghost use Rattle.std.specs.Fmt.{decimal};
ghost use Rattle.deck_text.specs.PlanText.{best_text, verdict_text};

use cert_types::Verdict;
use std::alloc::{AllocError, Global};

// A word and a number.
fn word_and_number(alloc: Global, word: &[u8], n: u16) -> Result<Vec<u8>, AllocError>
    ensures { IfOk result (λ text. text.items ≡ word.now ++ decimal n) }
{
    let number = n.to_string(alloc)?;
    let mut text = Vec::from_slice(alloc, word)?;
    text.extend_from_slice(number.as_bytes())?;
    Ok(text)
}

// The ballots of the best deck, or that there is none.
fn best_words(alloc: Global, best: Option<u16>) -> Result<Vec<u8>, AllocError>
    ensures { IfOk result (λ text. text.items ≡ best_text best) }
{
    match best {
        Some(ballots) => word_and_number(alloc, b"", ballots),
        None => Vec::from_slice(alloc, b"none"),
    }
}

/// What was found of a style, in words: `least K`, `none within M`, `open from F best B` or
/// `open from F best none`, all of them numbers of ballots. `best`, the ballots of the best deck,
/// is looked at only for `Bounds`.
///
/// The one error is want of memory.
pub fn verdict_words(
    alloc: Global,
    verdict: Verdict,
    best: Option<u16>,
) -> Result<Vec<u8>, AllocError>
    ensures { IfOk result (λ text. text.items ≡ verdict_text verdict best) }
{
    match verdict {
        Verdict::Least(k) => word_and_number(alloc, b"least ", k),
        Verdict::NoneWithin(m) => word_and_number(alloc, b"none within ", m),
        Verdict::Bounds(f) => {
            let mut text = word_and_number(alloc, b"open from ", f)?;
            text.extend_from_slice(b" best ")?;
            let best = best_words(alloc, best)?;
            text.extend_from_slice(best.as_slice())?;
            Ok(text)
        }
    }
}
