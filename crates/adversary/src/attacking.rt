ghost use Rattle.std.specs.Prelude.{◌≡◌, ◌≤◌, ◌*◌, length, IfOk};
ghost use Rattle.lat_base.specs.Shape.{target_count};
ghost use Rattle.lat_base.specs.Tally.{report};
ghost use Rattle.lat_base.specs.Misassignment.{identity};
ghost use Rattle.evade_space.specs.Sought.{own_sought};
ghost use Rattle.evade_space.specs.Trees.{factorial};
ghost use Rattle.adversary.specs.Attack.{IsAttack, IsEnded};

use crate::chooser::InOrder;
use crate::exchange::find_exchange;
use crate::order::image_order;
use evade_space::{Evade, Skipped};
use lat_ballots::Deck;
use lat_base::Shape;
use lat_misassign::Misassignment;
use lat_tabulate::report;
use std::alloc::{AllocError, Global};
use tree_core::Tree;
use tree_search::{Outcome, search};

/// What an attack comes to.
#[derive(Drop)]
pub enum Attacked {
    /// A misassignment, not the identity, that leaves every total as it is.
    Evaded(Misassignment),
    /// A tree that checks: there is no such misassignment.
    Robust(Tree<u16, Skipped>),
    /// An open tree of as many Close and Fork nodes as the budget.
    Spent(Tree<u16, Skipped>),
}

// A deck's own totals, one for each target.
#[tactic(auto, using(lat_misassign::proofs::Identity::identity_long, readings::proofs::Reports::report_long))]
fn own_totals(alloc: Global, shape: &Shape, deck: &Deck) -> Result<Vec<u32>, AllocError>
    requires { deck.now.targets ≡ target_count shape.now }
    ensures own { IfOk result (λ totals. totals.items
        ≡ report shape.now deck.now.ballots (identity (target_count shape.now))) }
    ensures long { IfOk result (λ totals. length totals.items ≡ target_count shape.now) }
{
    let identity = Misassignment::identity(alloc, shape.targets())?;
    let totals = report(alloc, shape, deck, &identity)?;
    Ok(totals)
}

// The space of the misassignments that leave a deck's own totals as they are.
#[tactic(auto, using(lat_misassign::proofs::Identity::identity_long))]
fn own_space(alloc: Global, shape: &Shape, deck: &Deck, totals: &[u32]) -> Result<Evade, AllocError>
    requires deck { deck.now.targets ≡ target_count shape.now }
    requires long { length totals.now ≡ target_count shape.now }
    requires own { totals.now
        ≡ report shape.now deck.now.ballots (identity (target_count shape.now)) }
    ensures { IfOk result (λ space. space ≡ own_sought shape.now deck.now.ballots) }
{
    let identity = Misassignment::identity(alloc, shape.targets())?;
    let space = Evade::new(alloc, shape, deck, totals, &identity)?;
    Ok(space)
}

/// Searches for a misassignment, not the identity, that leaves every total of a deck as it is:
/// first among the exchanges of two targets and of two whole contests, and then by a tree of at
/// most `budget` Close and Fork nodes. Which one is found is left open. A budget of three times the
/// factorial of the number of targets is never spent. The only error is want of memory.
pub fn attack(
    alloc: Global,
    shape: &Shape,
    deck: &Deck,
    budget: u64,
) -> Result<Attacked, AllocError>
    requires deck { deck.now.targets ≡ target_count shape.now }
    requires budget { 1 ≤ budget }
    ensures attack { IfOk result (IsAttack shape.now deck.now.ballots budget) }

    // An ample budget isn't spent.
    ensures ample { 3 * factorial (target_count shape.now) ≤ budget → IfOk result IsEnded }
{
    let totals = own_totals(alloc, shape, deck)?;
    if let Some(s) = find_exchange(alloc, shape, deck, totals.as_slice())? {
        return Ok(Attacked::Evaded(s));
    }
    let space = own_space(alloc, shape, deck, totals.as_slice())?;
    let mut state = space.state(alloc)?;
    let mut chooser = InOrder {
        images: image_order(alloc, shape, deck)?,
    };
    let outcome = search(alloc, &space, &mut chooser, &mut state, budget)?;
    match outcome {
        Outcome::Found(s) => Ok(Attacked::Evaded(s)),
        Outcome::Closed(tree) => {
            tree.lists_a_tree();
            Ok(Attacked::Robust(tree))
        }
        Outcome::Spent(tree) => Ok(Attacked::Spent(tree)),
        Outcome::Halted(_, _) => unreachable!(),
    }
}
