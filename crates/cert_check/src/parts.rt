ghost use Rattle.std.specs.Prelude.{◌≡◌, ◌≤◌, IfOk, IfSome, Ok, None, option_map};
ghost use Rattle.lat_base.specs.Goodness.{IsGood};
ghost use Rattle.lat_base.specs.Part.{IsPart};
ghost use Rattle.lat_base.specs.Shape.{target_count};
ghost use Rattle.lat_base.specs.declared.limits.TheConstants.{MOST_BALLOTS};
ghost use Rattle.cert_check.specs.Answers.{IsDeckAnswer, IsLowerPartAnswer, ArePartsAnswer};

use crate::lower::lower_fault;
use crate::proved::proved_fault;
use cert_types::{Lower, Part, Proved};
use lat_base::{Rules, Shape};
use std::alloc::{AllocError, Global};

// The first fault of a deck with its tree, where there is one.
fn deck_fault(
    alloc: Global,
    shape: &Shape,
    rules: &Rules,
    proved: Option<&Proved>,
) -> Result<Option<(Part, u64)>, AllocError>
    requires { IfSome (option_map (λ p. p.now) proved)
        (λ p. p.deck.targets ≡ target_count shape.now) }
    ensures answer { IfOk result
        (IsDeckAnswer shape.now rules.now (option_map (λ p. p.now) proved.entry)) }
    ensures good { result ≡ Ok None → IfSome (option_map (λ p. p.now) proved.entry)
        (λ p. IsGood shape.now rules.now p.deck.ballots) }
{
    match proved {
        Some(proved) => {
            let fault = proved_fault(alloc, shape, rules, proved)?;
            Ok(fault)
        }
        None => Ok(None),
    }
}

// The first node of a lower part's tree that doesn't hold, where there is a lower part.
fn lower_part_fault(
    alloc: Global,
    shape: &Shape,
    rules: &Rules,
    lower: Option<&Lower>,
) -> Result<Option<u64>, AllocError>
    requires { IfSome (option_map (λ l. l.now) lower)
        (λ l. IsPart shape.now l.contests × (l.size ≤ MOST_BALLOTS)) }
    ensures { IfOk result
        (IsLowerPartAnswer shape.now rules.now (option_map (λ l. l.now) lower.entry)) }
{
    match lower {
        Some(lower) => {
            let fault = lower_fault(alloc, shape, rules, lower)?;
            Ok(fault)
        }
        None => Ok(None),
    }
}

/// The first fault of a deck and a lower part, each if it is there. Where there is none the deck is
/// good. The only error is want of memory.
pub(crate) fn parts_fault(
    alloc: Global,
    shape: &Shape,
    rules: &Rules,
    proved: Option<&Proved>,
    lower: Option<&Lower>,
) -> Result<Option<(Part, u64)>, AllocError>
    requires deck { IfSome (option_map (λ p. p.now) proved)
        (λ p. p.deck.targets ≡ target_count shape.now) }
    requires lower { IfSome (option_map (λ l. l.now) lower)
        (λ l. IsPart shape.now l.contests × (l.size ≤ MOST_BALLOTS)) }
    ensures answer { IfOk result (ArePartsAnswer shape.now rules.now
        (option_map (λ p. p.now) proved.entry) (option_map (λ l. l.now) lower.entry)) }
    ensures good { result ≡ Ok None → IfSome (option_map (λ p. p.now) proved.entry)
        (λ p. IsGood shape.now rules.now p.deck.ballots) }
{
    let fault = deck_fault(alloc, shape, rules, proved)?;
    if fault.is_some() {
        return Ok(fault);
    }
    match lower_part_fault(alloc, shape, rules, lower)? {
        Some(node) => Ok(Some((Part::Lower, node))),
        None => Ok(None),
    }
}
