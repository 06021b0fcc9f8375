ghost use Rattle.std.specs.Prelude.{◌≡◌, ◌≤◌, ◌++◌, replicate, length, IfOk, OnOk, All};
ghost use Rattle.lat_base.specs.Shape.{target_count};
ghost use Rattle.lat_base.specs.declared.limits.TheConstants.{MOST_BALLOTS};
ghost use Rattle.lat_ballots.specs.Deck.{AreRows};
ghost use Rattle.lat_ballots.specs.Plain.{plain_ballots, plain_size};

use crate::Deck;
use crate::row::Row;
use lat_base::{Rules, Shape};
use std::alloc::{AllocError, Global};

/// How many ballots the plain deck has: for T targets
/// `T(T+1)/2 + T·max(0, least-1) + over + blank`.
pub fn plain_size(shape: &Shape, rules: &Rules) -> u32
    ensures { result ≡ plain_size (target_count shape.now) rules.now }
{
    let targets = u32::from(shape.targets());
    let more = u32::from(rules.least().saturating_sub(1));
    let apart = u32::from(rules.over()) + u32::from(rules.blank());
    targets * (targets + 1) / 2 + targets * more + apart
}

// Puts `n` rows equal to this one at the end.
fn push_copies(rows: &mut Vec<Row>, row: &Row, n: u16) -> Result<(), AllocError>
    ensures { OnOk result (rows.new.items ≡ rows.old.items ++ replicate n row.now) }
{
    for _ in 0..n {
        rows.push(row.copy())?;
    }
    Ok(())
}

impl Deck {
    /// The plain deck: `over` ballots with every target marked; then for each target in order, from
    /// the first on, ballots that mark it alone, `max(1, least)` for the first and one more for
    /// each next; then `blank` ballots with no mark.
    #[tactic(auto, using(crate::proofs::PlainDeck::built_first, crate::proofs::PlainDeck::built_more))]
    pub fn plain(alloc: Global, shape: &Shape, rules: &Rules) -> Result<Deck, AllocError>
        requires { plain_size (target_count shape.now) rules.now ≤ MOST_BALLOTS }
        ensures plain { IfOk result (λ deck. deck
            ≡ plain_ballots (target_count shape.now) rules.now) }
        ensures size { IfOk result (λ deck. length deck.ballots
            ≡ plain_size (target_count shape.now) rules.now) }
    {
        let targets = shape.targets();
        let more = rules.least().saturating_sub(1);
        let mut rows = Vec::with_capacity(alloc, plain_size(shape, rules) as usize)?;
        push_copies(&mut rows, &Row::first(targets), rules.over())?;
        for t in 0..targets {
            push_copies(&mut rows, &Row::only(t), t + 1 + more)?;
        }
        push_copies(&mut rows, &Row::blank(), rules.blank())?;
        Ok(Deck::of_rows(targets, rows))
    }
}
