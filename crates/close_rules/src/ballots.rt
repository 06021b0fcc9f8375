ghost use Rattle.std.specs.Prelude.{◌≡◌, ◌<◌, ◌≤◌, length, count_by};
ghost use Rattle.lat_base.specs.Shape.{target_count};
ghost use Rattle.deck_state.specs.PartialDeck.{PartialDeck};
ghost use Rattle.close_rules.specs.Ballots.{may_be_blank, may_be_overvoted, lacks_blank, lacks_overvoted};

use deck_state::{Mark, Partial};

// Whether a row can become a blank ballot.
fn may_be_blank(row: &[Mark]) -> bool
    ensures { result ≡ may_be_blank row.now }
{
    row.iter().all(|mark| !mark.is_marked())
}

/// Whether too few ballots can be blank.
pub fn lacks_blank(state: &Partial) -> bool
    ensures { result ≡ lacks_blank state.now }
{
    let mut blank: u16 = 0;
    for j in 0..state.ballots() {
        blank += u16::from(may_be_blank(state.row(j)));
    }
    blank < state.rules().blank()
}

// On how many ballots contest c can be overvoted.
fn count_overvoted(state: &Partial, c: u16) -> u16
    requires { c < length state.now.contests }
    ensures { result ≡ count_by (may_be_overvoted state.now.contests c) state.now.marks }
{
    state.level(c, state.shape().contest(c).limit)
}

/// Whether contest `c` can be overvoted, and too few ballots can do so.
pub fn lacks_overvoted(state: &Partial, c: u16) -> bool
    ensures { result ≡ lacks_overvoted state.now c }
{
    let shape = state.shape();
    c < shape.contests()
        && shape.can_overvote(c)
        && count_overvoted(state, c) < state.rules().over()
}
