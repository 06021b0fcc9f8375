ghost use Rattle.std.specs.Prelude.{◌≡◌, ◌<◌, length};
ghost use Rattle.lat_base.specs.Rules.{is_blank};
ghost use Rattle.lat_ballots.specs.Deck.{ballot_at};

use lat_ballots::Deck;

/// Whether ballot `j` has no mark.
pub fn is_blank(deck: &Deck, j: u16) -> bool
    requires { j < length deck.now.ballots }
    ensures { result ≡ is_blank (ballot_at deck.now j) }
{
    for t in 0..deck.targets() {
        if deck.is_marked(j, t) {
            return false;
        }
    }
    true
}
