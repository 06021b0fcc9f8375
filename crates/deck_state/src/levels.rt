ghost use Rattle.std.specs.Prelude.{◌≡◌, ◌≤◌, ◌<◌, ◌+◌, ◌*◌, length, nat_lt, cond, map, IfOk};
ghost use Rattle.std.specs.List.{range_with_len};
ghost use Rattle.lat_base.specs.Shape.{target_count, contest_at};
ghost use Rattle.deck_state.specs.Sheet.{count_of};
ghost use Rattle.deck_state.specs.Tally.{most_of, is_at, level_alike, AreRaised, HasLevels};

use crate::Mark;
use crate::kept_counts::ContestCount;
use crate::moves::{count_in, moved, of_all};
use lat_base::Shape;
use std::alloc::{AllocError, Global};

/// How many levels a contest has room for: a limit is at most 64.
pub const LEVELS: u16 = 65;

// How many votes a ballot with these counts can give.
fn most_of(limit: u16, count: ContestCount) -> u16
    ensures { result ≡ most_of limit count }
{
    if count.marked > limit {
        0
    } else {
        limit.min(count.possible)
    }
}

// Whether a ballot with these counts belongs to level v.
fn is_at(limit: u16, v: u16, count: ContestCount) -> bool
    ensures { result ≡ is_at limit v count }
{
    if v < limit {
        most_of(limit, count) > v
    } else {
        count.possible > limit
    }
}

// The number of level v of contest c of k ballots that are alike.
fn alike_at(shape: &Shape, row: &[Mark], k: u16, c: u16, v: u16) -> u16
    requires contest { c < length shape.now }
    requires long { length row.now ≡ target_count shape.now }
    ensures { result
        ≡ cond (is_at (contest_at shape.now c).limit v (count_of shape.now row.now c)) k 0 }
{
    of_all(k, is_at(shape.contest(c).limit, v, count_in(shape, row, c)))
}

/// The levels of k ballots that are alike, contest by contest.
pub fn levels_alike(
    alloc: Global,
    shape: &Shape,
    row: &[Mark],
    k: u16,
) -> Result<Vec<u16>, AllocError>
    requires { length row.now ≡ target_count shape.now }
    ensures { let level = level_alike shape.now row.now k in
        IfOk result (λ levels. levels.items
        ≡ map level (range_with_len 0 (length shape.now * 65))) }
{
    let places = shape.contests() * LEVELS;
    let mut levels = Vec::with_capacity(alloc, places as usize)?;
    for i in 0..places {
        levels.push(alike_at(shape, row, k, i / LEVELS, i % LEVELS))?;
    }
    Ok(levels)
}

/// Moves one ballot from the levels of its counts before to those of its counts after.
pub fn move_levels(
    levels: &mut Vec<u16>,
    first: usize,
    limit: u16,
    before: ContestCount,
    after: ContestCount,
)
    requires small { limit ≤ 64 }
    requires has { HasLevels limit first before levels.old.items }
    ensures { AreRaised limit first (limit + 1) before after levels.old.items levels.new.items }
{
    for v in 0..limit + 1 {
        let place = first + v as usize;
        levels[place] = moved(
            levels[place],
            is_at(limit, v, before),
            is_at(limit, v, after),
        );
    }
}
