ghost use Rattle.std.specs.Prelude.{◌≡◌, ◌≤◌, ◌<◌, Option, IfOk, IfSome, List, length, ℕ};
ghost use Rattle.lat_base.specs.Part.{IsPart};
ghost use Rattle.lat_base.specs.Shape.{target_count};
ghost use Rattle.lat_base.specs.declared.limits.TheConstants.{MOST_BALLOTS};
ghost use Rattle.lat_ballots.specs.Deck.{Ballots};
ghost use Rattle.tree_core.specs.declared.node.Node.{Node};
ghost use Rattle.cert_fields.specs.TreeReading.{wanted_after};
ghost use Rattle.cert_types.specs.declared.proved.Proved.{Proved};
ghost use Rattle.cert_types.specs.Fitting.{IsVerdict, lower_size, size_below};
ghost use Rattle.cert_check.specs.Answers.{IsDeckAnswer};
ghost use Rattle.cert_stream.specs.Left.{deck_left, lower_part_left, lower_tree_left, robust_left};
ghost use Rattle.cert_stream.specs.Phases.{IsPhase, IsDeckCheck, IsEvadeCheck, most_of, rank, waits, head_of};
ghost use Rattle.cert_stream.specs.Stands.{StandsAt, Reads, LowerSoFar, RobustSoFar, ballots_of};

use crate::front::Front;
use crate::walk::{Checking, fault_of};
use cert_types::{Part, Verdict};
use close_rules::{Label, Reason};
use deck_space::Decks;
use deck_state::Partial;
use evade_space::{Evade, EvadeState, Skipped};
use lat_ballots::Deck;
use std::alloc::{AllocError, Global};

/// Where a stream stands: which field comes next, and what was read before it. Numbers of trees are
/// those that are still wanted, 1 in front of a tree.
#[derive(Debug, Drop)]
pub(crate) enum Phase {
    /// The front.
    Start,
    /// A row of a deck, of which so many are read; the others are blank so far.
    Rows(Front, Deck, u16),
    /// A node of the deck's tree.
    Robust(Front, u64, Checking<Evade, EvadeState, u16, Skipped>),
    /// The contests of a lower part of that size; the first fault of the deck, if there is one.
    Contests(Front, u16, Option<(Part, u64)>),
    /// A node of the lower part's tree.
    Lower(Front, u64, Checking<Decks, Partial, Label, Reason>),
    /// Nothing; the first fault of all, if there is one.
    Done(Front, Option<(Part, u64)>),
}

// No field that begins at this place takes more bytes: the front with the longest names, a row of
// 256 targets, and 258 and 516 bytes of contests and of a node.
fn most_of(phase: &Phase) -> usize
    ensures { result ≡ most_of phase.now }
{
    match phase {
        Phase::Start => 25_560,
        Phase::Rows(_, _, _) => 32,
        Phase::Robust(_, _, _) => 516,
        Phase::Contests(_, _, _) => 516,
        Phase::Lower(_, _, _) => 516,
        Phase::Done(_, _) => 0,
    }
}

/// Whether nothing is read before more bytes come, where so many are there: a field is read once
/// the longest one would be there, or when no more bytes come.
pub(crate) fn waits(phase: &Phase, there: usize, ending: bool) -> bool
    ensures { result ≡ waits phase.now there ending }
{
    match phase {
        Phase::Done(_, _) => there == 0,
        _ => !ending && there < most_of(phase),
    }
}

fn size_below(ballots: u16) -> Option<u16>
    ensures { result ≡ size_below ballots }
{
    match ballots {
        0 => None,
        k => Some(k - 1),
    }
}

// The size of the lower part that the verdict needs, if it needs one.
fn lower_size(verdict: Verdict) -> Option<u16>
    ensures { result ≡ lower_size verdict }
{
    match verdict {
        Verdict::Least(k) => size_below(k),
        Verdict::NoneWithin(m) => Some(m),
        Verdict::Bounds(f) => size_below(f),
    }
}

/// The place behind the front.
pub(crate) fn behind_front(alloc: Global, front: Front) -> Result<Phase, AllocError>
    requires verdict { IsVerdict front.verdict }
    requires few { IfSome front.best (λ k. k ≤ MOST_BALLOTS) }
    ensures phase { IfOk result IsPhase }
    ensures rank { IfOk result (λ phase. rank phase ≤ 1) }
    ensures stands { IfOk result (λ phase. (held all : List ℕ) →
        Reads all held (deck_left (head_of front) front.verdict front.best) →
        StandsAt phase held all) }
{
    let best = front.best;
    match best {
        Some(k) => {
            let deck = Deck::blank(alloc, &front.shape, k)?;
            Ok(Phase::Rows(front, deck, 0))
        }
        None => Ok(behind_deck(front, None)),
    }
}

/// The place behind the deck, if there is one, with its first fault.
pub(crate) fn behind_deck(front: Front, fault: Option<(Part, u64)>) -> Phase
    requires { IsVerdict front.verdict }
    ensures phase { IsPhase result }
    ensures rank { rank result ≡ 0 }
    ensures stands { (proved : Option Proved) (held all : List ℕ) →
        front.best ≡ ballots_of proved →
        IsDeckAnswer front.shape front.rules proved fault →
        Reads all held
        (lower_part_left (head_of front) front.verdict proved (lower_size front.verdict)) →
        StandsAt result held all }
{
    match lower_size(front.verdict) {
        None => Phase::Done(front, fault),
        Some(size) => Phase::Contests(front, size, fault),
    }
}

/// The place behind a node of a deck's tree, where so many trees are wanted: the next node, or what
/// comes behind the deck.
pub(crate) fn behind_robust(
    front: Front,
    wanted: u64,
    check: Checking<Evade, EvadeState, u16, Skipped>,
) -> Phase
    requires verdict { IsVerdict front.verdict }
    requires check { 0 < wanted → IsEvadeCheck check wanted }
    ensures phase { IsPhase result }
    ensures rank { rank result ≡ 0 }
    ensures stands { (deck : Ballots) (nodes : List (Node ℕ Skipped)) (held all : List ℕ) →
        deck.targets ≡ target_count front.shape →
        front.best ≡ Option.Some (length deck.ballots) →
        wanted_after 1 nodes ≡ Option.Some wanted →
        RobustSoFar front.shape front.rules deck nodes check →
        Reads all held (robust_left (head_of front) front.verdict deck nodes wanted) →
        StandsAt result held all }
{
    if wanted > 0 {
        return Phase::Robust(front, wanted, check);
    }
    let fault = fault_of(&check);
    behind_deck(front, fault)
}

/// The place behind a node of a lower part's tree, where so many trees are wanted: the next node,
/// or the end.
pub(crate) fn behind_lower(
    front: Front,
    wanted: u64,
    check: Checking<Decks, Partial, Label, Reason>,
) -> Phase
    requires { 0 < wanted → IsDeckCheck check wanted }
    ensures phase { IsPhase result }
    ensures rank { rank result ≡ 0 }
    ensures stands { (proved : Option Proved) (chosen : List ℕ) (size : ℕ)
        (nodes : List (Node Label Reason)) (held all : List ℕ) →
        front.best ≡ ballots_of proved → IsPart front.shape chosen → size ≤ MOST_BALLOTS →
        wanted_after 1 nodes ≡ Option.Some wanted →
        LowerSoFar front.shape front.rules proved chosen size nodes check →
        Reads all held
        (lower_tree_left (head_of front) front.verdict proved chosen size nodes wanted) →
        StandsAt result held all }
{
    if wanted > 0 {
        return Phase::Lower(front, wanted, check);
    }
    let fault = fault_of(&check);
    Phase::Done(front, fault)
}
