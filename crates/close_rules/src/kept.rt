ghost use Rattle.std.specs.Prelude.{◌≡◌, ◌<◌, length, map};
ghost use Rattle.lat_base.specs.Shape.{target_count, contest_of};
ghost use Rattle.lat_base.specs.Tally.{mark_count, votes_for, reading};
ghost use Rattle.deck_state.specs.Mark.{is_marked};
ghost use Rattle.deck_state.specs.PartialDeck.{PartialDeck};
ghost use Rattle.close_rules.specs.Evading.{keeps_total};

use deck_state::{Mark, Partial, marked_in};
use lat_base::Shape;
use lat_misassign::Misassignment;

// How many targets of contest c a row marks, as it is read under a misassignment.
fn count_read(shape: &Shape, s: &Misassignment, row: &[Mark], c: u16) -> u16
    requires contest { c < length shape.now }
    requires long { length row.now ≡ target_count shape.now }
    requires targets { length s.now ≡ target_count shape.now }
    ensures { result ≡ mark_count shape.now (reading (map is_marked row.now) s.now) c }
{
    let _targets = shape.targets();
    let _sources = s.len();
    let mut count: u16 = 0;
    for u in shape.first_of(c)..shape.first_of(c + 1) {
        count += u16::from(row[s.source(u) as usize].is_marked());
    }
    count
}

// Whether a row votes for target u, which is of contest c, as it is read under a misassignment.
fn votes_read(shape: &Shape, s: &Misassignment, row: &[Mark], u: u16, c: u16) -> bool
    requires target { u < target_count shape.now }
    requires contest { c < length shape.now }
    requires of { c ≡ contest_of shape.now u }
    requires long { length row.now ≡ target_count shape.now }
    requires targets { length s.now ≡ target_count shape.now }
    ensures { result ≡ votes_for shape.now (reading (map is_marked row.now) s.now) u }
{
    let _sources = s.len();
    row[s.source(u) as usize].is_marked() && count_read(shape, s, row, c) <= shape.contest(c).limit
}

// Whether a row votes for target u, which is of contest c.
fn votes(shape: &Shape, row: &[Mark], u: u16, c: u16) -> bool
    requires target { u < target_count shape.now }
    requires contest { c < length shape.now }
    requires of { c ≡ contest_of shape.now u }
    requires long { length row.now ≡ target_count shape.now }
    ensures { result ≡ votes_for shape.now (map is_marked row.now) u }
{
    row[u as usize].is_marked() && marked_in(shape, row, c) <= shape.contest(c).limit
}

/// Whether target `u` has the same total under a misassignment as under the identity, undecided
/// marks being none.
pub fn keeps_total(state: &Partial, s: &Misassignment, u: u16) -> bool
    requires target { u < target_count state.now.contests }
    requires targets { length s.now ≡ target_count state.now.contests }
    ensures { result ≡ keeps_total state.now s.now u }
{
    let shape = state.shape();
    let c = shape.contest_of(u);
    let mut total: u16 = 0;
    let mut own: u16 = 0;
    for j in 0..state.ballots() {
        total += u16::from(votes_read(shape, s, state.row(j), u, c));
        own += u16::from(votes(shape, state.row(j), u, c));
    }
    total == own
}
