ghost use Rattle.std.specs.Prelude.{◌≡◌};
ghost use Rattle.lat_top.specs.PlanAnswer.{deck_size, answer_deck, answer_status, answer_verdict};

use crate::Status;
use cert_types::{Proved, Verdict};
use planner::Answer;

/// How many ballots a deck has, if there is one.
pub fn deck_size(deck: &Option<Proved>) -> Option<u16>
    ensures { result ≡ deck_size deck.now }
{
    match deck {
        Some(proved) => Some(proved.deck.ballots()),
        None => None,
    }
}

/// How many ballots the least deck has, or the best where sizes are left open.
pub fn best_size(answer: &Answer) -> Option<u16>
    ensures { result ≡ deck_size (answer_deck answer.now) }
{
    match answer {
        Answer::Least(proved, _) => Some(proved.deck.ballots()),
        Answer::NoneWithin(_) => None,
        Answer::Spent(kept) => deck_size(&kept.best),
    }
}

/// The status of an answer.
pub fn answer_status(answer: &Answer) -> Status
    ensures { result ≡ answer_status answer.now }
{
    match answer {
        Answer::Least(_, _) => Status::Done,
        Answer::NoneWithin(_) => Status::NoDeck,
        Answer::Spent(kept) => Status::Spent(kept.from, deck_size(&kept.best)),
    }
}

/// What an answer says of a size cap of `max` ballots.
pub fn answer_verdict(answer: &Answer, max: u16) -> Verdict
    ensures { result ≡ answer_verdict max answer.now }
{
    match answer {
        Answer::Least(proved, _) => Verdict::Least(proved.deck.ballots()),
        Answer::NoneWithin(_) => Verdict::NoneWithin(max),
        Answer::Spent(kept) => Verdict::Bounds(kept.from),
    }
}
