ghost use Rattle.std.specs.Prelude.{◌≡◌, ◌↔◌, Ok, Err, Some, None, IsOk};
ghost use Rattle.lat_base.specs.Shape.{target_count};
ghost use Rattle.lat_base.specs.Rules.{Obeys};
ghost use Rattle.lat_rules.specs.Broken.{broken_rule, IsNamed};

use crate::Broken;
use crate::finds::{find_blank, find_distinct, find_least, find_over};
use lat_ballots::Deck;
use lat_base::{Rules, Shape};

// The first rule that is broken.
fn find_broken(shape: &Shape, rules: &Rules, deck: &Deck) -> Option<Broken>
    requires { deck.now.targets ≡ target_count shape.now }
    ensures { result ≡ broken_rule shape.now rules.now deck.now.ballots }
{
    if let Some(broken) = find_blank(rules, deck) {
        return Some(broken);
    }
    if let Some(broken) = find_over(shape, rules, deck) {
        return Some(broken);
    }
    if let Some(broken) = find_least(shape, rules, deck) {
        return Some(broken);
    }
    find_distinct(shape, rules, deck)
}

/// Whether a deck obeys the rules, or else the first rule that it breaks: blank ballots, overvotes
/// contest by contest, least totals target by target, and then equal totals of one contest pair by
/// pair. It takes no memory.
#[tactic(auto, using(crate::proofs::Unbroken::obeyed, crate::proofs::Unbroken::unbroken, crate::proofs::Named::named))]
pub fn obeys(shape: &Shape, rules: &Rules, deck: &Deck) -> Result<(), Broken>
    requires { deck.now.targets ≡ target_count shape.now }
    ensures broken { (b : Broken) → (result ≡ Err b) ↔
        (broken_rule shape.now rules.now deck.now.ballots ≡ Some b) }
    ensures named { (b : Broken) → result ≡ Err b → IsNamed shape.now b }
    ensures ok { IsOk result ↔ Obeys shape.now rules.now deck.now.ballots }
{
    match find_broken(shape, rules, deck) {
        Some(broken) => Err(broken),
        None => Ok(()),
    }
}
