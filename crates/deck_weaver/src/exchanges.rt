ghost use Rattle.std.specs.Prelude.{◌≤◌, ◌<◌, length};

use crate::ballot_set::BallotSet;
use crate::contest_marks::ContestMarks;
use crate::draws::Draws;

// How many exchanges are tried for each working ballot.
const EXCHANGES: usize = 6;

// Where ballot `p` marks target `a` and ballot `q` doesn't, and target `b` the other way round,
// exchanges these marks: each ballot and each target keeps its number of marks.
fn exchange(columns: &mut [BallotSet], a: usize, b: usize, p: u16, q: u16)
    requires first { a < length columns.old }
    requires second { b < length columns.old }
{
    let has_a = columns[a].has(p) && !columns[a].has(q);
    let has_b = columns[b].has(q) && !columns[b].has(p);
    if has_a && has_b {
        columns[a].take(p);
        columns[a].put(q);
        columns[b].take(q);
        columns[b].put(p);
    }
}

// Tries exchanges between drawn ballots and drawn targets.
fn exchange_drawn(columns: &mut [BallotSet], ballots: &[u16], draws: &mut Draws) {
    if ballots.is_empty() || columns.is_empty() {
        return;
    }
    for _ in 0..ballots.len().saturating_mul(EXCHANGES) {
        let p = ballots[draws.below(ballots.len())];
        let q = ballots[draws.below(ballots.len())];
        let a = draws.below(columns.len());
        let b = draws.below(columns.len());
        exchange(columns, a, b, p, q);
    }
}

// Lays each target on ballots drawn for it alone.
fn lay_apart(marks: &mut ContestMarks, order: &mut [u16], draws: &mut Draws) {
    for (column, total) in marks.columns.iter_mut().zip(marks.totals.iter()) {
        draws.shuffle(order);
        column.clear();
        for ballot in order.iter().take(usize::from(*total)) {
            column.put(*ballot);
        }
    }
}

/// Mixes the marks of a contest that is laid. Laid going round, two columns of a contest of several
/// votes would split the ballots as a contest of one vote does, and the two could be exchanged.
pub fn mix(marks: &mut ContestMarks, order: &mut [u16], draws: &mut Draws) {
    if !marks.can_overvote() {
        lay_apart(marks, order, draws);
    } else if marks.contest.limit > 1 {
        let over = usize::from(marks.over).min(order.len());
        exchange_drawn(&mut marks.columns, &order[over..], draws);
    }
}
