ghost use Rattle.std.specs.Prelude.{◌≡◌, ◌≤◌, ℕ, false, IfOk};
ghost use Rattle.deck_state.specs.PartialDeck.{PartialDeck};
ghost use Rattle.deck_state.specs.Shown.{IsComplete};
ghost use Rattle.deck_state.specs.Trail.{IsPartial};
ghost use Rattle.close_rules.specs.declared.reason.Reason.{Reason};
ghost use Rattle.close_rules.specs.Refutes.{refutes, IsCheap};
ghost use Rattle.deck_space.specs.Steps.{deck_steps, Solves};
ghost use Rattle.deck_space.specs.Numbers.{marks_as_numbers};
ghost use Rattle.tree_search.specs.Habits.{Fits, IsSolved};
ghost use Rattle.planner.specs.Choosing.{deck_habits, IsEager, IsJudged};

use crate::attempt::Attempt;
use crate::deck_chooser::DeckChooser;
use crate::finding::next_label;
use crate::guessing::guess;
use crate::kept_reasons::{find_kept, note};
use crate::shown_deck::shown_deck;
use adversary::{Attacked, attack};
use cert_types::Proved;
use close_rules::{Label, Reason, cheap, complete_is_judged};
use deck_space::Decks;
use deck_state::Partial;
use std::alloc::{AllocError, Global};
use tree_search::{Chooser, Pick};

// Attacks the deck of a complete partial deck for which no cheap reason holds.
fn judge(
    alloc: Global,
    state: &Partial,
    budget: u64,
) -> Result<Pick<Label, Reason, Proved, Attempt>, AllocError>
    requires budget { 1 ≤ budget }
    requires complete { IsComplete state.now }
    requires none { (r : Reason) → IsCheap r → refutes state.now r ≡ false }
    ensures { IfOk result (IsJudged state.now budget) }
{
    complete_is_judged();
    let deck = shown_deck(alloc, state)?;
    match attack(alloc, state.shape(), &deck, budget)? {
        Attacked::Evaded(s) => Ok(Pick::Close(Reason::Evade(s))),
        Attacked::Robust(tree) => Ok(Pick::Found(Proved { deck, robust: tree })),
        Attacked::Spent(tree) => Ok(Pick::Halt(Attempt { deck, tree })),
    }
}

impl DeckChooser {
    // What to do at a partial deck.
    fn choose(
        &self,
        alloc: Global,
        state: &Partial,
    ) -> Result<Pick<Label, Reason, Proved, Attempt>, AllocError>
        ensures fits { let habits = deck_habits self.now.kept.capacity self.now.budget in
            let solved = IsSolved IsComplete Solves marks_as_numbers in
            IfOk result (Fits deck_steps solved habits state.now) }
        ensures related { IfOk result (IsEager self.now.kept.items state.now) }
    {
        if let Some(reason) = cheap(state) {
            return Ok(Pick::Close(reason));
        }
        if let Some(reason) = find_kept(alloc, &self.kept, state)? {
            return Ok(Pick::Close(reason));
        }
        if let Some(reason) = guess(alloc, state, self.budget)? {
            return Ok(Pick::Close(reason));
        }
        if let Some(label) = next_label(state) {
            return Ok(Pick::Fork(label));
        }
        judge(alloc, state, self.budget)
    }
}

impl Chooser<Decks> for DeckChooser {
    type Proof = Proved;

    type Why = Attempt;

    ghost use Rattle.planner.specs.Choosing.{deck_habits};

    ghost memory = { λ chooser. chooser.kept.items };

    ghost habits = { λ chooser _. deck_habits chooser.kept.capacity chooser.budget };

    fn pick(
        &mut self,
        alloc: Global,
        _space: &Decks,
        state: &Partial,
    ) -> Result<Pick<Label, Reason, Proved, Attempt>, AllocError> {
        let pick = self.choose(alloc, state)?;
        if let Pick::Close(reason) = &pick {
            note(alloc, &mut self.kept, reason)?;
        }
        Ok(pick)
    }
}
