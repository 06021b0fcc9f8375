use crate::contest_marks::ContestMarks;

// With how many targets of `other` target `i` of `marks` can be exchanged unseen.
fn count_of(marks: &ContestMarks, i: usize, other: &ContestMarks) -> u32 {
    let (Some(column), Some(total)) = (marks.columns.get(i), marks.totals.get(i)) else {
        return 0;
    };
    let mut count: u32 = 0;
    for (theirs, votes) in other.columns.iter().zip(other.totals.iter()) {
        if votes == total
            && theirs.is_inside(column, &marks.full)
            && column.is_inside(theirs, &other.full)
        {
            count = count.saturating_add(1);
        }
    }
    count
}

/// How many pairs of a target of contest `c` and one of another laid contest can be exchanged
/// unseen: their totals are equal, and neither brings a mark more to a full ballot of the other.
pub fn count_conflicts(contests: &[ContestMarks], c: usize) -> u32 {
    let Some(marks) = contests.get(c) else {
        return 0;
    };
    let mut count: u32 = 0;
    for (d, other) in contests.iter().enumerate() {
        if d != c && other.is_laid {
            for i in 0..marks.columns.len() {
                count = count.saturating_add(count_of(marks, i, other));
            }
        }
    }
    count
}
