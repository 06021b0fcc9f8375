ghost use Rattle.std.specs.Prelude.{◌≡◌, ◌≤◌, Some, Ok};
ghost use Rattle.lat_base.specs.declared.limits.TheConstants.{MOST_BALLOTS};
ghost use Rattle.cert_types.specs.declared.proved.Proved.{Proved};
ghost use Rattle.planner.specs.Searched.{IsGoodOf};

use crate::trial::try_deck;
use cert_types::Proved;
use deck_weaver::weave;
use lat_base::{Rules, Shape};
use std::alloc::{AllocError, Global};

/// A good canonical deck of `k` ballots with its tree, if one is woven. The only error is want of
/// memory.
pub(crate) fn try_candidate(
    alloc: Global,
    shape: &Shape,
    rules: &Rules,
    k: u16,
    budget: u64,
) -> Result<Option<Proved>, AllocError>
    requires few { k ≤ MOST_BALLOTS }
    requires budget { 1 ≤ budget }
    ensures { (proved : Proved) → result ≡ Ok (Some proved) →
        IsGoodOf shape.now rules.now k proved }
{
    let Some(deck) = weave(alloc, shape, rules, k, budget)? else {
        return Ok(None);
    };
    let tried = try_deck(alloc, shape, rules, deck, budget)?;
    Ok(tried)
}
