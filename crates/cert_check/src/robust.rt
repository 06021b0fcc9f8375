ghost use Rattle.std.specs.Prelude.{◌≡◌, IfOk, Ok, None};
ghost use Rattle.lat_base.specs.Goodness.{IsRobust};
ghost use Rattle.lat_base.specs.Shape.{target_count};
ghost use Rattle.cert_check.specs.Answers.{IsRobustAnswer, IsOpenRobustAnswer};

use evade_space::{Evade, Skipped};
use lat_ballots::Deck;
use lat_base::Shape;
use std::alloc::{AllocError, Global};
use tree_core::{Tree, Verdict0, check_open, check_tree};

/// The first node that doesn't hold of a tree that is to show that a deck is robust. The only error
/// is want of memory.
pub(crate) fn robust_fault(
    alloc: Global,
    shape: &Shape,
    deck: &Deck,
    tree: &Tree<u16, Skipped>,
) -> Result<Option<u64>, AllocError>
    requires { deck.now.targets ≡ target_count shape.now }
    ensures answer { IfOk result (IsRobustAnswer shape.now deck.now.ballots tree.now) }
    ensures robust { result ≡ Ok None → IsRobust shape.now deck.now.ballots }
{
    tree.lists_a_tree();
    let space = Evade::own(alloc, shape, deck)?;
    let mut state = space.state(alloc)?;
    match check_tree(alloc, &space, &mut state, tree)? {
        Verdict0::Holds => Ok(None),
        Verdict0::Fails(node) => Ok(Some(node)),
    }
}

/// The same where open nodes hold.
pub(crate) fn open_robust_fault(
    alloc: Global,
    shape: &Shape,
    deck: &Deck,
    tree: &Tree<u16, Skipped>,
) -> Result<Option<u64>, AllocError>
    requires { deck.now.targets ≡ target_count shape.now }
    ensures { IfOk result (IsOpenRobustAnswer shape.now deck.now.ballots tree.now) }
{
    tree.lists_a_tree();
    let space = Evade::own(alloc, shape, deck)?;
    let mut state = space.state(alloc)?;
    match check_open(alloc, &space, &mut state, tree)? {
        Verdict0::Holds => Ok(None),
        Verdict0::Fails(node) => Ok(Some(node)),
    }
}
