ghost use Rattle.std.specs.Prelude.{◌≡◌, ◌↔◌, IsTrue};
ghost use Rattle.lat_base.specs.Rules.{Obeys};
ghost use Rattle.lat_base.specs.Shape.{target_count};

use lat_ballots::Deck;
use lat_base::{Rules, Shape};
use lat_rules::obeys;

/// Whether a deck obeys the rules.
pub(crate) fn keeps_rules(shape: &Shape, rules: &Rules, deck: &Deck) -> bool
    requires { deck.now.targets ≡ target_count shape.now }
    ensures { IsTrue result ↔ Obeys shape.now rules.now deck.now.ballots }
{
    obeys(shape, rules, deck).is_ok()
}
