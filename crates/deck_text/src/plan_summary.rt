ghost use Rattle.std.specs.Prelude.{◌≡◌, IfOk};
ghost use Rattle.deck_text.specs.PlanText.{plan_text};

use crate::verdict_words::verdict_words;
use cert_types::Verdict;
use lat_base::Names;
use std::alloc::{AllocError, Global};

/// The summary of a plan, each in a line: `style` with the style's id, `targets` with the number
/// of its targets, and what was found, which is `least K`, `none within M`, `open from F best B` or
/// `open from F best none`. Numbers are decimal; K, M, F and B are numbers of ballots. `best`, the
/// ballots of the best deck, is looked at only for `Bounds`.
///
/// The one error is want of memory.
pub fn plan_text(
    alloc: Global,
    names: &Names,
    targets: u16,
    verdict: Verdict,
    best: Option<u16>,
) -> Result<Vec<u8>, AllocError>
    ensures { IfOk result (λ bytes. bytes.items ≡ plan_text names.now targets verdict best) }
{
    let mut text = Vec::from_slice(alloc, b"style ")?;
    text.extend_from_slice(names.style().as_bytes())?;
    text.extend_from_slice(b"\ntargets ")?;
    let targets = targets.to_string(alloc)?;
    text.extend_from_slice(targets.as_bytes())?;
    text.extend_from_slice(b"\n")?;
    let verdict = verdict_words(alloc, verdict, best)?;
    text.extend_from_slice(verdict.as_slice())?;
    text.extend_from_slice(b"\n")?;
    Ok(text)
}
