ghost use Rattle.std.specs.Prelude.{◌≡◌, IfOk, Ok, None};
ghost use Rattle.lat_base.specs.Goodness.{IsGood};
ghost use Rattle.lat_base.specs.Shape.{target_count};
ghost use Rattle.cert_check.specs.Answers.{IsProvedAnswer};

use crate::robust::robust_fault;
use crate::rules::keeps_rules;
use cert_types::{Part, Proved};
use lat_base::{Rules, Shape};
use std::alloc::{AllocError, Global};

/// The first fault of a deck with its tree: the deck breaks a rule, or the first node of the tree
/// that doesn't hold. Where there is none the deck is good. The only error is want of memory.
pub(crate) fn proved_fault(
    alloc: Global,
    shape: &Shape,
    rules: &Rules,
    proved: &Proved,
) -> Result<Option<(Part, u64)>, AllocError>
    requires { proved.now.deck.targets ≡ target_count shape.now }
    ensures answer { IfOk result (IsProvedAnswer shape.now rules.now proved.now) }
    ensures good { result ≡ Ok None → IsGood shape.now rules.now proved.now.deck.ballots }
{
    let _ballots = proved.deck.ballots();
    if !keeps_rules(shape, rules, &proved.deck) {
        return Ok(Some((Part::Rules, 0)));
    }
    match robust_fault(alloc, shape, &proved.deck, &proved.robust)? {
        Some(node) => Ok(Some((Part::Robust, node))),
        None => Ok(None),
    }
}
