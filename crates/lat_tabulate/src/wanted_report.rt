ghost use Rattle.std.specs.Prelude.{◌≡◌, ◌<◌, ◌↔◌, length, IsTrue};
ghost use Rattle.lat_base.specs.Shape.{target_count};
ghost use Rattle.lat_base.specs.Tally.{report};

use crate::total_under;
use lat_ballots::Deck;
use lat_base::Shape;
use lat_misassign::Misassignment;

/// Whether a misassignment gives these totals, one for each target, in ballots.
pub fn gives_report(shape: &Shape, deck: &Deck, s: &Misassignment, totals: &[u32]) -> bool
    requires targets { deck.now.targets ≡ target_count shape.now }
    requires sources { length s.now ≡ target_count shape.now }
    requires totals { length totals.now ≡ target_count shape.now }
    ensures { IsTrue result ↔ (report shape.now deck.now.ballots s.now ≡ totals.now) }
{
    for u in 0..shape.targets() {
        if total_under(shape, deck, s, u) != totals[u as usize] {
            return false;
        }
    }
    true
}
