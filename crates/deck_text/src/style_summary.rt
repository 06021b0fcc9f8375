ghost use Rattle.std.specs.Prelude.{◌≡◌, IfOk};
ghost use Rattle.deck_text.specs.CountyText.{style_line};

use crate::verdict_words::verdict_words;
use cert_types::Verdict;
use lat_base::Id;
use std::alloc::{AllocError, Global};

/// The line of one style among many: its id, a space, and what was found, which is `least K`,
/// `none within M`, `open from F best B` or `open from F best none`, all of them numbers of
/// ballots. `best`, the ballots of the best deck, is looked at only for `Bounds`.
///
/// The one error is want of memory.
pub fn style_line(
    alloc: Global,
    id: &Id,
    verdict: Verdict,
    best: Option<u16>,
) -> Result<Vec<u8>, AllocError>
    ensures { IfOk result (λ bytes. bytes.items ≡ style_line id.now verdict best) }
{
    let mut line = Vec::from_slice(alloc, id.as_bytes())?;
    line.extend_from_slice(b" ")?;
    let verdict = verdict_words(alloc, verdict, best)?;
    line.extend_from_slice(verdict.as_slice())?;
    line.extend_from_slice(b"\n")?;
    Ok(line)
}
