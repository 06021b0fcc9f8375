ghost use Rattle.std.specs.Prelude.{◌≡◌, ◌<◌, ◌≤◌, ◌+◌, ◌⊎◌, length, Some, None, IfOk};
ghost use Rattle.std.specs.Bool.{OnTrue, OnFalse};
ghost use Rattle.lat_base.specs.Rules.{is_blank};
ghost use Rattle.lat_base.specs.Shape.{target_count};
ghost use Rattle.lat_base.specs.declared.limits.TheConstants.{MOST_BALLOTS};
ghost use Rattle.lat_ballots.specs.Deck.{IsDeck, ballot_at, mark_at, blank_ballots};
ghost use Rattle.deck_text.specs.DeckRead.{IsMarkOf, last_ballot, with_blank, with_last_mark, with_further, with_row};

use crate::blank::is_blank;
use crate::front::first_ballots;
use crate::mark::Mark;
use lat_ballots::Deck;
use lat_base::Shape;
use std::alloc::{AllocError, Global};
use std::marker::Model;

/// A deck that is being read, seen as the deck of its ballots so far.
#[derive(Drop)]
pub struct Draft {
    // 1,024 ballots; those that are not in use are blank
    whole: Deck,
    ballots: u16,
}

impl Model for Draft {
    ghost use Rattle.lat_ballots.specs.Deck.{Ballots};
    ghost use Rattle.deck_text.specs.Draft.{front_of, IsDraft};

    ghost Value = { Ballots };

    ghost view = { λ a. front_of a.ballots a.whole };

    ghost invariant = { λ a. IsDraft a.ballots a.whole };
}

impl Draft {
    /// No ballot yet.
    pub fn new(alloc: Global, shape: &Shape) -> Result<Draft, AllocError>
        ensures { IfOk result (λ draft. draft ≡ blank_ballots (target_count shape.now) 0) }
    {
        Draft::with_room(alloc, shape, 1024)
    }

    // `most` is 1,024: a name for it keeps the proof from writing so many ballots out.
    fn with_room(alloc: Global, shape: &Shape, most: u16) -> Result<Draft, AllocError>
        requires { most ≡ MOST_BALLOTS }
        ensures { IfOk result (λ draft. draft ≡ blank_ballots (target_count shape.now) 0) }
    {
        let whole = Deck::blank(alloc, shape, most)?;
        let _most = whole.ballots();
        Ok(Draft { whole, ballots: 0 })
    }

    /// How many ballots there are so far.
    pub fn ballots(&self) -> u16
        ensures count { result ≡ length self.now.ballots }
        ensures deck { IsDeck self.now }
    {
        self.ballots
    }

    // Whether the last ballot has no mark.
    fn last_is_blank(&self) -> bool
        requires { 0 < length self.now.ballots }
        ensures { result ≡ is_blank (ballot_at self.now (last_ballot self.now)) }
    {
        is_blank(&self.whole, self.ballots - 1)
    }

    // Whether the last ballot marks target t.
    fn last_marks(&self, t: u16) -> bool
        requires ballot { 0 < length self.now.ballots }
        requires target { t < self.now.targets }
        ensures { result ≡ mark_at self.now (last_ballot self.now) t }
    {
        self.whole.is_marked(self.ballots - 1, t)
    }

    // Adds a blank ballot.
    fn begin(&mut self)
        requires { length self.old.ballots < MOST_BALLOTS }
        ensures { self.new ≡ with_blank self.old }
    {
        self.ballots += 1;
    }

    // Marks target t on the last ballot.
    fn mark_last(&mut self, t: u16)
        requires ballot { 0 < length self.old.ballots }
        requires target { t < self.old.targets }
        ensures { self.new ≡ with_last_mark self.old t }
    {
        self.whole.set(self.ballots - 1, t, true);
        let _ballots = self.whole.ballots();
    }

    /// Adds the mark of a row of the ballot of that number, which is the last or a new one. False
    /// where it repeats what the last ballot has.
    pub fn add(&mut self, number: u16, mark: Mark) -> bool
        requires number { (number ≡ length self.old.ballots + 1) ⊎
            (number ≡ length self.old.ballots) }
        requires range { (0 < number) × (number ≤ MOST_BALLOTS) }
        requires mark { IsMarkOf self.old.targets mark }
        ensures added { OnTrue result (with_row self.old number mark ≡ Some self.new) }
        ensures repeats { OnFalse result (with_row self.old number mark ≡ None) }
    {
        if number == self.ballots() {
            return self.add_further(mark);
        }
        self.begin();
        if let Mark::Target(t) = mark {
            self.mark_last(t);
        }
        true
    }

    // Adds the mark of a further row of the last ballot.
    fn add_further(&mut self, mark: Mark) -> bool
        requires ballot { 0 < length self.old.ballots }
        requires mark { IsMarkOf self.old.targets mark }
        ensures added { OnTrue result (with_further self.old mark ≡ Some self.new) }
        ensures repeats { OnFalse result (with_further self.old mark ≡ None) }
    {
        let Mark::Target(t) = mark else {
            return false;
        };
        if self.last_is_blank() || self.last_marks(t) {
            return false;
        }
        self.mark_last(t);
        true
    }

    /// The deck.
    pub fn into_deck(self, alloc: Global, shape: &Shape) -> Result<Deck, AllocError>
        requires { self.targets ≡ target_count shape.now }
        ensures { IfOk result (λ deck. deck ≡ self) }
    {
        first_ballots(alloc, shape, &self.whole, self.ballots)
    }
}
