ghost use Rattle.std.specs.Prelude.{◌≡◌, ◌<◌, ◌↔◌, length, IsTrue};
ghost use Rattle.lat_base.specs.Shape.{target_count};
ghost use Rattle.lat_base.specs.Misassignment.{identity};
ghost use Rattle.lat_base.specs.Tally.{report};

use crate::{total, total_under};
use lat_ballots::Deck;
use lat_base::Shape;
use lat_misassign::Misassignment;

/// Whether the totals under a misassignment are those where each target counts for itself.
pub fn leaves_report(shape: &Shape, deck: &Deck, s: &Misassignment) -> bool
    requires targets { deck.now.targets ≡ target_count shape.now }
    requires sources { length s.now ≡ target_count shape.now }
    ensures { IsTrue result ↔ (report shape.now deck.now.ballots s.now
        ≡ report shape.now deck.now.ballots (identity (target_count shape.now))) }
{
    for u in 0..shape.targets() {
        if total_under(shape, deck, s, u) != total(shape, deck, u) {
            return false;
        }
    }
    true
}
