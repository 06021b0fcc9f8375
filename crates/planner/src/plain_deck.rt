ghost use Rattle.std.specs.Prelude.{◌≤◌, IfOk};
ghost use Rattle.lat_base.specs.declared.limits.TheConstants.{MOST_BALLOTS};
ghost use Rattle.planner.specs.Answer.{most};
ghost use Rattle.planner.specs.Searched.{IsGoodOf};

use adversary::plain_robust;
use cert_types::Proved;
use lat_ballots::Deck;
use lat_base::{Rules, Shape};
use std::alloc::{AllocError, Global};
use symmetry::plain_is_canonical;

/// The plain deck, which is good for every style, with a tree that shows that it is robust. The
/// only error is want of memory.
pub(crate) fn plain_proved(
    alloc: Global,
    shape: &Shape,
    rules: &Rules,
) -> Result<Proved, AllocError>
    requires { most shape.now rules.now ≤ MOST_BALLOTS }
    ensures { IfOk result (IsGoodOf shape.now rules.now (most shape.now rules.now)) }
{
    plain_is_canonical();
    let _contests = shape.contests();
    let robust = plain_robust(alloc, shape, rules)?;
    let deck = Deck::plain(alloc, shape, rules)?;
    Ok(Proved { deck, robust })
}
