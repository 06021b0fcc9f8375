//! Every deck of 0, 1, 2 and more ballots is tried.

ghost use Rattle.std.specs.Prelude.{◌≡◌, ◌<◌, ◌≤◌, ◌+◌, ◌*◌, length, take, IfOk, IfSome, MatchBool, MatchOption};
ghost use Rattle.lat_base.specs.Goodness.{IsGood, NoGoodBelow};
ghost use Rattle.lat_base.specs.Shape.{target_count};
ghost use Rattle.lat_base.specs.declared.limits.TheConstants.{MOST_BALLOTS};
ghost use Rattle.plain_search.specs.Trying.{marks_of, NoGoodFrom};

use crate::robust::is_robust;
use lat_ballots::Deck;
use lat_base::{Rules, Shape};
use lat_rules::obeys;
use std::alloc::{AllocError, Global};

/// Whether a deck of the style obeys the rules and is robust. The only error is want of memory.
#[tactic(auto, using(crate::proofs::Decks::good_of_parts, crate::proofs::Decks::deck_fits))]
pub fn is_good(alloc: Global, shape: &Shape, rules: &Rules, deck: &Deck) -> Result<bool, AllocError>
    requires { deck.now.targets ≡ target_count shape.now }
    ensures { let good = IsGood shape.now rules.now deck.now.ballots in
        IfOk result (λ found. MatchBool found good (¬ good)) }
{
    let _ballots = deck.ballots();
    if obeys(shape, rules, deck).is_err() {
        return Ok(false);
    }
    let robust = is_robust(alloc, shape, deck)?;
    Ok(robust)
}

// Looks for a good deck among those whose marks are these before a place, ballot by ballot. Where
// there is one, the deck is it.
fn find_from(
    alloc: Global,
    shape: &Shape,
    rules: &Rules,
    deck: &mut Deck,
    place: u32,
) -> Result<bool, AllocError>
    requires targets { deck.old.targets ≡ target_count shape.now }
    requires place { place ≤ length deck.old.ballots * target_count shape.now }
    ensures targets { deck.new.targets ≡ deck.old.targets }
    ensures ballots { length deck.new.ballots ≡ length deck.old.ballots }
    ensures kept { IfOk result (λ found.
        take place (marks_of deck.new.ballots) ≡ take place (marks_of deck.old.ballots)) }
    ensures found { let k = length deck.old.ballots in
        let front = take place (marks_of deck.old.ballots) in
        IfOk result (λ found. MatchBool found (IsGood shape.now rules.now deck.new.ballots)
        (NoGoodFrom shape.now rules.now k front)) }
{
    let targets = u32::from(shape.targets());
    if place == u32::from(deck.ballots()) * targets {
        let good = is_good(alloc, shape, rules, deck)?;
        return Ok(good);
    }
    let j = (place / targets) as u16;
    let t = (place % targets) as u16;
    deck.set(j, t, false);
    if find_from(alloc, shape, rules, deck, place + 1)? {
        return Ok(true);
    }
    let _ballots = deck.ballots();
    deck.set(j, t, true);
    let found = find_from(alloc, shape, rules, deck, place + 1)?;
    Ok(found)
}

/// A good deck of the fewest ballots, or `None` where no deck of at most `max` ballots is good. The
/// time grows as two to the number of ballots times targets, times the misassignments. The only
/// error is want of memory.
pub fn least_deck(
    alloc: Global,
    shape: &Shape,
    rules: &Rules,
    max: u16,
) -> Result<Option<Deck>, AllocError>
    requires { max ≤ MOST_BALLOTS }
    ensures none { IfOk result (λ found.
        MatchOption found (NoGoodBelow shape.now rules.now (max + 1))
        (λ deck. IsGood shape.now rules.now deck.ballots)) }
    ensures least { IfOk result (λ found. IfSome found (λ deck.
        NoGoodBelow shape.now rules.now (length deck.ballots))) }
    ensures within { IfOk result (λ found. IfSome found (λ deck. length deck.ballots ≤ max)) }
    ensures targets { IfOk result (λ found. IfSome found (λ deck.
        deck.targets ≡ target_count shape.now)) }
{
    for k in 0..=max {
        let mut deck = Deck::blank(alloc, shape, k)?;
        if find_from(alloc, shape, rules, &mut deck, 0)? {
            return Ok(Some(deck));
        }
    }
    Ok(None)
}
