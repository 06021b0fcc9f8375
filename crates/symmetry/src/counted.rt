ghost use Rattle.std.specs.Prelude.{◌≡◌, map, IfOk};
ghost use Rattle.std.specs.List.{range_with_len};
ghost use Rattle.lat_base.specs.Shape.{target_count};
ghost use Rattle.symmetry.specs.Counted.{counted, targets_in};

use lat_ballots::Deck;
use lat_base::Shape;
use lat_tabulate::total;
use std::alloc::{AllocError, Global};

/// A target and its total.
#[derive(Clone, Copy, Debug)]
pub struct Counted {
    pub target: u16,
    pub total: u32,
}

/// The targets in order, each with its total.
#[tactic(auto, using(lemmas::proofs::Ranges::made_more))]
pub fn count_targets(alloc: Global, shape: &Shape, deck: &Deck) -> Result<Vec<Counted>, AllocError>
    requires { deck.now.targets ≡ target_count shape.now }
    ensures { IfOk result
        (λ list. list.items
        ≡ map (counted shape.now deck.now.ballots) (range_with_len 0 (target_count shape.now))) }
{
    let mut list = Vec::with_capacity(alloc, usize::from(shape.targets()))?;
    for target in 0..shape.targets() {
        let total = total(shape, deck, target);
        list.push(Counted { target, total })?;
    }
    Ok(list)
}

/// The targets alone.
pub fn list_targets(alloc: Global, list: &[Counted]) -> Result<Vec<u16>, AllocError>
    ensures { IfOk result (λ targets. targets.items ≡ targets_in list.now) }
{
    let mut targets = Vec::with_capacity(alloc, list.len())?;
    for counted in list {
        targets.push(counted.target)?;
    }
    Ok(targets)
}
