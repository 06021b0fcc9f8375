use crate::contest_marks::ContestMarks;
use crate::cycle::Cycle;

// Marks on a ballot the first target, which has no vote, and as many of the last ones as the limit.
fn overvote(marks: &mut ContestMarks, ballot: u16) {
    let n = marks.columns.len();
    let first_marked = n.saturating_sub(usize::from(marks.contest.limit));
    for (i, column) in marks.columns.iter_mut().enumerate() {
        if i == 0 || i >= first_marked {
            column.put(ballot);
        }
    }
}

/// Lays the targets of a contest one after the other, going round the ballots in that order, so
/// that no ballot has more marks than the limit. The first ballots are those that are overvoted.
pub fn lay(marks: &mut ContestMarks, order: &[u16]) {
    for column in &mut marks.columns {
        column.clear();
    }
    let over = usize::from(marks.over).min(order.len());
    for ballot in &order[..over] {
        overvote(marks, *ballot);
    }
    let mut cycle = Cycle::new(&order[over..]);
    for (column, total) in marks.columns.iter_mut().zip(marks.totals.iter()) {
        for _ in 0..*total {
            if let Some(ballot) = cycle.step() {
                column.put(ballot);
            }
        }
    }
}
