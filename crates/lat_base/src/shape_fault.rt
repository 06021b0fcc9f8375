ghost use Rattle.std.specs.Prelude.{◌≡◌, ◌≤◌, length};
ghost use Rattle.lat_base.specs.Shape.{target_count};
ghost use Rattle.lat_base.specs.ShapeFault.{contest_fault};

use crate::{Contest, MOST_CONTESTS, MOST_IN_CONTEST, MOST_VOTES};
use thiserror::Error;

/// Why a list of contests is no ballot style. Contests are numbered from 0.
#[derive(Clone, Copy, Debug, PartialEq, Eq, Error)]
pub enum ShapeFault {
    /// There is no contest.
    #[error("a style has no contest")]
    Empty,
    /// There are more than 128 contests: their number.
    #[error("a style has {0} contests, more than 128")]
    TooManyContests(u32),
    /// The contest, and its vote limit outside 1 to 64.
    #[error("contest {0} has the vote limit {1}, outside 1 to 64")]
    BadLimit(u16, u16),
    /// The contest, and its number of targets outside 1 to 64.
    #[error("contest {0} has {1} targets, outside 1 to 64")]
    BadCount(u16, u16),
    /// The contests have more than 256 targets together: their number.
    #[error("a style has {0} targets, more than 256")]
    TooManyTargets(u32),
    #[error("out of memory")]
    Memory,
}

// The first contest whose limit or number of targets is out of range.
pub fn find_contest_fault(contests: &[Contest]) -> Option<ShapeFault>
    requires { length contests.now ≤ MOST_CONTESTS }
    ensures { result ≡ contest_fault 0 contests.now }
{
    for (i, contest) in contests.iter().enumerate() {
        if contest.limit == 0 || contest.limit > MOST_VOTES {
            return Some(ShapeFault::BadLimit(i as u16, contest.limit));
        }
        if contest.targets == 0 || contest.targets > MOST_IN_CONTEST {
            return Some(ShapeFault::BadCount(i as u16, contest.targets));
        }
    }
    None
}

// How many targets the contests have together.
pub fn count_targets(contests: &[Contest]) -> u32
    requires { length contests.now ≤ MOST_CONTESTS }
    ensures { result ≡ target_count contests.now }
{
    let mut sum: u32 = 0;
    for contest in contests {
        sum += u32::from(contest.targets);
    }
    sum
}
