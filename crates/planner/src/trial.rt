ghost use Rattle.std.specs.Prelude.{◌≡◌, ◌≤◌, ◌↔◌, IsTrue, Some, None, Ok, length};
ghost use Rattle.lat_base.specs.Rules.{Obeys};
ghost use Rattle.lat_base.specs.Shape.{target_count};
ghost use Rattle.cert_types.specs.declared.proved.Proved.{Proved};
ghost use Rattle.planner.specs.Searched.{IsGoodOf};
ghost use Rattle.planner.specs.Tried.{IsTriedDeck};

use adversary::{Attacked, attack};
use cert_types::Proved;
use lat_ballots::Deck;
use lat_base::{Rules, Shape};
use lat_rules::obeys;
use std::alloc::{AllocError, Global};
use symmetry::canonical;

// Whether a deck obeys the rules.
fn keeps_rules(shape: &Shape, rules: &Rules, deck: &Deck) -> bool
    requires { deck.now.targets ≡ target_count shape.now }
    ensures { IsTrue result ↔ Obeys shape.now rules.now deck.now.ballots }
{
    obeys(shape, rules, deck).is_ok()
}

/// Attacks a canonical copy of a deck that obeys the rules, and gives it where it is good. The only
/// error is want of memory.
pub(crate) fn try_deck(
    alloc: Global,
    shape: &Shape,
    rules: &Rules,
    deck: Deck,
    budget: u64,
) -> Result<Option<Proved>, AllocError>
    requires targets { deck.targets ≡ target_count shape.now }
    requires budget { 1 ≤ budget }
    ensures some { (proved : Proved) → result ≡ Ok (Some proved) →
        IsGoodOf shape.now rules.now (length deck.ballots) proved }
    ensures none { result ≡ Ok None → Obeys shape.now rules.now deck.ballots →
        IsTriedDeck shape.now budget deck.ballots }
{
    let _ballots = deck.ballots();
    if !keeps_rules(shape, rules, &deck) {
        return Ok(None);
    }
    let copy = canonical(alloc, shape, deck)?;
    let _targets = copy.targets();
    match attack(alloc, shape, &copy, budget)? {
        Attacked::Robust(tree) => Ok(Some(Proved {
            deck: copy,
            robust: tree,
        })),
        Attacked::Evaded(_) => Ok(None),
        Attacked::Spent(_) => Ok(None),
    }
}
