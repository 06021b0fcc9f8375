ghost use Rattle.std.specs.Prelude.{◌≡◌, ◌≤◌, IfOk, length};
ghost use Rattle.std.specs.List.{range_with_len};
ghost use Rattle.lat_base.specs.Rules.{RuleSet};
ghost use Rattle.lat_base.specs.declared.limits.TheConstants.{MOST_BALLOTS};
ghost use Rattle.planner.specs.Searched.{IsClosedTree};
ghost use Rattle.planner.specs.Step.{IsLowerOf};

use cert_types::Lower;
use close_rules::{Label, Reason};
use lat_base::Shape;
use std::alloc::{AllocError, Global};
use tree_core::Tree;

// All contests of a style.
#[tactic(auto, using(lemmas::proofs::Ranges::range_more))]
fn all_contests(alloc: Global, shape: &Shape) -> Result<Vec<u16>, AllocError>
    ensures { IfOk result (λ contests. contests.items ≡ range_with_len 0 (length shape.now)) }
{
    let mut contests = Vec::with_capacity(alloc, usize::from(shape.contests()))?;
    for c in 0..shape.contests() {
        contests.push(c)?;
    }
    Ok(contests)
}

/// The lower part of a tree over the whole style. The only error is want of memory.
pub(crate) fn whole_lower(
    alloc: Global,
    shape: &Shape,
    k: u16,
    tree: Tree<Label, Reason>,
) -> Result<Lower, AllocError>
    requires { k ≤ MOST_BALLOTS }
    ensures { (rules : RuleSet) → IsClosedTree shape.now rules k tree →
        IfOk result (IsLowerOf shape.now rules k) }
{
    let contests = all_contests(alloc, shape)?;
    let _contests = shape.contests();
    Ok(Lower {
        contests,
        size: k,
        tree,
    })
}
