ghost use Rattle.std.specs.Prelude.{◌≡◌, ◌≤◌, IfOk};
ghost use Rattle.lat_base.specs.declared.limits.TheConstants.{MOST_BALLOTS};
ghost use Rattle.planner.specs.Searched.{IsSearched};

use crate::deck_chooser::DeckChooser;
use crate::searched::Searched;
use cert_types::License;
use deck_space::Decks;
use deck_state::Partial;
use lat_base::{Rules, Shape};
use std::alloc::{AllocError, Global};
use tree_search::{Outcome, search};

/// Searches among the decks of `k` ballots for a good canonical one. The only error is want of
/// memory.
pub(crate) fn search_size(
    alloc: Global,
    shape: &Shape,
    rules: &Rules,
    k: u16,
    budget: u64,
) -> Result<Searched, AllocError>
    requires few { k ≤ MOST_BALLOTS }
    requires budget { 1 ≤ budget }
    ensures { IfOk result (IsSearched shape.now rules.now k budget) }
{
    let _targets = shape.targets();
    let mut state = Partial::open(alloc, shape, rules, k)?;
    let mut chooser = DeckChooser::new(alloc, budget)?;
    let outcome = search(alloc, &Decks::new(), &mut chooser, &mut state, budget)?;
    match outcome {
        Outcome::Found(proved) => Ok(Searched::Good(proved)),
        Outcome::Closed(tree) => {
            tree.lists_a_tree();
            Ok(Searched::Closed(tree))
        }
        Outcome::Spent(tree) => Ok(Searched::Spent(License::Tree(tree))),
        Outcome::Halted(_, attempt) => {
            let _ballots = attempt.deck.ballots();
            Ok(Searched::Spent(License::Deck(attempt.deck, attempt.tree)))
        }
    }
}
