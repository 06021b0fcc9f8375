ghost use Rattle.std.specs.Prelude.{◌≡◌, ◌≤◌, Some, None, Ok};
ghost use Rattle.lat_base.specs.declared.limits.TheConstants.{MOST_BALLOTS};
ghost use Rattle.cert_types.specs.declared.proved.Proved.{Proved};
ghost use Rattle.planner.specs.Searched.{IsGoodOf};
ghost use Rattle.planner.specs.Tried.{AreTried, IsTriedPattern};

use crate::trial::try_deck;
use cert_types::Proved;
use deck_builder::propose;
use lat_base::{Rules, Shape};
use std::alloc::{AllocError, Global};

/// How many patterns there are.
const PATTERNS: u32 = 32;

/// Attacks the deck of a pattern, where it fits, and gives it where it is good.
pub(crate) fn try_pattern(
    alloc: Global,
    shape: &Shape,
    rules: &Rules,
    k: u16,
    turn: u32,
    budget: u64,
) -> Result<Option<Proved>, AllocError>
    requires few { k ≤ MOST_BALLOTS }
    requires budget { 1 ≤ budget }
    ensures some { (proved : Proved) → result ≡ Ok (Some proved) →
        IsGoodOf shape.now rules.now k proved }
    ensures none { result ≡ Ok None → IsTriedPattern shape.now rules.now k budget turn }
{
    match propose(alloc, shape, rules, k, turn)? {
        Some(deck) => {
            let tried = try_deck(alloc, shape, rules, deck, budget)?;
            Ok(tried)
        }
        None => Ok(None),
    }
}

/// Tries the patterns of `k` ballots turn by turn, up to one whose deck is good. The only error is
/// want of memory.
pub(crate) fn try_patterns(
    alloc: Global,
    shape: &Shape,
    rules: &Rules,
    k: u16,
    budget: u64,
) -> Result<Option<Proved>, AllocError>
    requires few { k ≤ MOST_BALLOTS }
    requires budget { 1 ≤ budget }
    ensures some { (proved : Proved) → result ≡ Ok (Some proved) →
        IsGoodOf shape.now rules.now k proved }
    ensures none { result ≡ Ok None → AreTried shape.now rules.now k budget }
{
    for turn in 0..PATTERNS {
        if let Some(proved) = try_pattern(alloc, shape, rules, k, turn, budget)? {
            return Ok(Some(proved));
        }
    }
    Ok(None)
}
