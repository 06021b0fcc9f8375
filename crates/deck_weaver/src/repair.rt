ghost use Rattle.std.specs.Prelude.{◌≡◌, ◌≤◌, IfOk, IfSome, length};
ghost use Rattle.lat_base.specs.Shape.{target_count};
ghost use Rattle.lat_base.specs.Goodness.{IsRobust, IsGood};
ghost use Rattle.lat_base.specs.declared.limits.TheConstants.{MOST_BALLOTS};

use crate::evaders::Evaders;
use crate::judgement::{Judgement, judge};
use crate::loom::Loom;
use crate::sizes::Sizes;
use crate::totals::choose_totals;
use crate::woven_deck::deck_of;
use lat_ballots::Deck;
use lat_base::{Rules, Shape};
use lat_rules::obeys;
use std::alloc::{AllocError, Global};

// How often a deck is judged and laid anew.
const ROUNDS: u32 = 60;

// How many attacks may be spent before it is given up: each may take seconds, and decks found later
// are rare.
const MOST_SPENT: u32 = 1;

// The robust deck, where it obeys the rules.
fn if_it_obeys(shape: &Shape, rules: &Rules, deck: Deck) -> Option<Deck>
    requires targets { deck.targets ≡ target_count shape.now }
    requires robust { IsRobust shape.now deck.ballots }
    ensures good { IfSome result (λ given. IsGood shape.now rules.now given.ballots) }
    ensures targets { IfSome result (λ given. given.targets ≡ target_count shape.now) }
    ensures ballots { IfSome result (λ given. length given.ballots ≡ length deck.ballots) }
{
    let _targets = deck.targets();
    if obeys(shape, rules, &deck).is_ok() {
        Some(deck)
    } else {
        None
    }
}

// A good deck of `k` ballots, where one is found: judges what the loom has, and lays one contest
// anew as long as the deck is evaded.
fn mend(
    alloc: Global,
    shape: &Shape,
    rules: &Rules,
    k: u16,
    budget: u64,
    loom: &mut Loom,
) -> Result<Option<Deck>, AllocError>
    requires few { k ≤ MOST_BALLOTS }
    requires budget { 1 ≤ budget }
    ensures good { IfOk result (λ found.
        IfSome found (λ deck. IsGood shape.now rules.now deck.ballots)) }
    ensures targets { IfOk result (λ found.
        IfSome found (λ deck. deck.targets ≡ target_count shape.now)) }
    ensures ballots { IfOk result (λ found. IfSome found (λ deck. length deck.ballots ≡ k)) }
{
    let mut evaders = Evaders::none(alloc);
    let mut spent: u32 = 0;
    for _ in 0..ROUNDS {
        let deck = deck_of(alloc, shape, k, loom)?;
        match judge(alloc, shape, &deck, &mut evaders, budget)? {
            Judgement::Robust => return Ok(if_it_obeys(shape, rules, deck)),
            Judgement::Evaded(contests) => loom.relay_one(alloc, contests.as_slice())?,
            Judgement::Spent if spent < MOST_SPENT => {
                spent = spent.saturating_add(1);
                loom.relay_any(alloc)?;
            }
            Judgement::Spent => return Ok(None),
        }
    }
    Ok(None)
}

/// A good deck of `k` ballots, woven and then mended where it is evaded, if one is found: each
/// working ballot has as many marks as the limit in the contests that can be overvoted, the totals
/// are spread over the contests, and the ballots are drawn. Each attack takes at most `budget`
/// Close and Fork nodes, and at most 200,000. Whether a deck is found, and which, is left open, but
/// the same arguments give the same. The only error is want of memory.
pub fn weave(
    alloc: Global,
    shape: &Shape,
    rules: &Rules,
    k: u16,
    budget: u64,
) -> Result<Option<Deck>, AllocError>
    requires few { k ≤ MOST_BALLOTS }
    requires budget { 1 ≤ budget }
    ensures good { IfOk result (λ found.
        IfSome found (λ deck. IsGood shape.now rules.now deck.ballots)) }
    ensures targets { IfOk result (λ found.
        IfSome found (λ deck. deck.targets ≡ target_count shape.now)) }
    ensures ballots { IfOk result (λ found. IfSome found (λ deck. length deck.ballots ≡ k)) }
{
    let Some(sizes) = Sizes::of(shape, rules, k) else {
        return Ok(None);
    };
    let Some(contests) = choose_totals(alloc, shape, sizes)? else {
        return Ok(None);
    };
    let mut loom = Loom::set_up(alloc, sizes, contests)?;
    mend(alloc, shape, rules, k, budget, &mut loom)
}
