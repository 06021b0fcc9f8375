ghost use Rattle.std.specs.Prelude.{◌≡◌, ◌≤◌, ◌<◌, ◌+◌, [], true, false, ℕ, List, Option, length, Err, IfOk};
ghost use Rattle.lat_base.specs.Part.{IsPart};
ghost use Rattle.lat_base.specs.Shape.{target_count};
ghost use Rattle.lat_base.specs.declared.limits.TheConstants.{MOST_BALLOTS};
ghost use Rattle.cert_types.specs.declared.proved.Proved.{Proved};
ghost use Rattle.cert_types.specs.Fitting.{IsVerdict};
ghost use Rattle.cert_check.specs.Answers.{IsDeckAnswer};
ghost use Rattle.cert_stream.specs.Phases.{IsPhase, IsEvadeCheck, IsDeckCheck, rank, waits, head_of};
ghost use Rattle.cert_stream.specs.Left.{robust_left};
ghost use Rattle.cert_stream.specs.Stands.{Moves, Reads, Refuses, RobustSoFar, LowerSoFar, IsTail, StandsAt};

use crate::front::Front;
use crate::node::wanted_behind;
use crate::phase::{Phase, behind_front, behind_lower, behind_robust};
use crate::reading::front_of;
use crate::walk::{Checking, Walk, check_node};
use cert_fields::{node_of, part_list_of, row_of};
use cert_types::{CertFault, Part};
use close_rules::{Label, Reason};
use deck_space::Decks;
use deck_state::Partial;
use evade_space::{Evade, EvadeState, Skipped};
use lat_ballots::Deck;
use lat_rules::obeys;
use projection::part;
use std::alloc::{AllocError, Global};
use tree_core::Node;

// Reads the front.
fn read_front(alloc: Global, bytes: &[u8]) -> Result<(Phase, &[u8]), CertFault>
    ensures phase { IfOk result (λ x. IsPhase x.0) }
    ensures moves { IfOk result (λ x. Moves Phase.Start bytes.now x.0 x.1.now) }
    ensures tail { IfOk result (λ x. IsTail bytes.now x.1.now) }
    ensures shorter { IfOk result (λ x.
        length x.1.now + rank x.0 < length bytes.now + rank Phase.Start) }
    ensures refused { result ≡ Err CertFault.NotACertificate → Refuses Phase.Start bytes.now }
{
    let (front, rest) = front_of(alloc, bytes)?;
    let phase = behind_front(alloc, front)?;
    Ok((phase, rest))
}

// The check of a deck's tree of which no node was read; the deck itself is checked here.
fn robust_check(
    alloc: Global,
    front: &Front,
    deck: &Deck,
) -> Result<Checking<Evade, EvadeState, u16, Skipped>, AllocError>
    requires { deck.now.targets ≡ target_count front.now.shape }
    ensures check { IfOk result (λ check. IsEvadeCheck check 1) }
    ensures so_far { IfOk result (λ check.
        RobustSoFar front.now.shape front.now.rules deck.now [] check) }
{
    if obeys(&front.shape, &front.rules, deck).is_err() {
        return Ok(Checking::Off(Part::Rules, 0));
    }
    let space = Evade::own(alloc, &front.shape, deck)?;
    let state = space.state(alloc)?;
    let walk = Walk {
        space,
        state,
        forks: Vec::new(alloc),
        way: Vec::new(alloc),
        seen: 0,
    };
    let walk = Box::new(alloc, walk)?;
    Ok(Checking::On(walk))
}

// The place behind a deck, of which each row was read.
fn behind_rows(alloc: Global, front: Front, deck: &Deck) -> Result<Phase, AllocError>
    requires verdict { IsVerdict front.verdict }
    requires targets { deck.now.targets ≡ target_count front.shape }
    ensures phase { IfOk result IsPhase }
    ensures rank { IfOk result (λ phase. rank phase ≡ 0) }
    ensures stands { IfOk result (λ phase. (held all : List ℕ) →
        front.best ≡ Option.Some (length deck.now.ballots) →
        Reads all held (robust_left (head_of front) front.verdict deck.now [] 1) →
        StandsAt phase held all) }
{
    let check = robust_check(alloc, &front, deck)?;
    Ok(Phase::Robust(front, 1, check))
}

// Reads row `j` of a deck.
fn read_row<'a>(
    front: Front,
    mut deck: Deck,
    j: u16,
    bytes: &'a [u8],
) -> Result<(Phase, &'a [u8]), CertFault>
    requires phase { IsPhase (Phase.Rows front deck j) }
    requires row { j < length deck.ballots }
    ensures phase { IfOk result (λ x. IsPhase x.0) }
    ensures moves { IfOk result (λ x. Moves (Phase.Rows front deck j) bytes.now x.0 x.1.now) }
    ensures tail { IfOk result (λ x. IsTail bytes.now x.1.now) }
    ensures shorter { IfOk result (λ x.
        length x.1.now + rank x.0 < length bytes.now + rank (Phase.Rows front deck j)) }
    ensures refused { result ≡ Err CertFault.NotACertificate →
        Refuses (Phase.Rows front deck j) bytes.now }
{
    let _targets = front.shape.targets();
    let _ballots = deck.ballots();
    let rest = row_of(&mut deck, j, bytes)?;
    Ok((Phase::Rows(front, deck, j + 1), rest))
}

// Reads a row of a deck of which `j` are read; behind the last one it reads nothing.
fn read_rows<'a>(
    alloc: Global,
    front: Front,
    deck: Deck,
    j: u16,
    bytes: &'a [u8],
) -> Result<(Phase, &'a [u8]), CertFault>
    requires { IsPhase (Phase.Rows front deck j) }
    ensures phase { IfOk result (λ x. IsPhase x.0) }
    ensures moves { IfOk result (λ x. Moves (Phase.Rows front deck j) bytes.now x.0 x.1.now) }
    ensures tail { IfOk result (λ x. IsTail bytes.now x.1.now) }
    ensures shorter { IfOk result (λ x.
        length x.1.now + rank x.0 < length bytes.now + rank (Phase.Rows front deck j)) }
    ensures refused { result ≡ Err CertFault.NotACertificate →
        Refuses (Phase.Rows front deck j) bytes.now }
{
    if j < deck.ballots() {
        return read_row(front, deck, j, bytes);
    }
    let phase = behind_rows(alloc, front, &deck)?;
    Ok((phase, bytes))
}

// Reads a node of the deck's tree.
fn read_robust<'a>(
    alloc: Global,
    front: Front,
    wanted: u64,
    check: Checking<Evade, EvadeState, u16, Skipped>,
    bytes: &'a [u8],
) -> Result<(Phase, &'a [u8]), CertFault>
    requires { IsPhase (Phase.Robust front wanted check) }
    ensures phase { IfOk result (λ x. IsPhase x.0) }
    ensures moves { IfOk result (λ x.
        Moves (Phase.Robust front wanted check) bytes.now x.0 x.1.now) }
    ensures tail { IfOk result (λ x. IsTail bytes.now x.1.now) }
    ensures shorter { IfOk result (λ x.
        length x.1.now + rank x.0 < length bytes.now + rank (Phase.Robust front wanted check)) }
    ensures refused { result ≡ Err CertFault.NotACertificate →
        Refuses (Phase.Robust front wanted check) bytes.now }
{
    let (node, rest): (Node<u16, Skipped>, &[u8]) = node_of(alloc, bytes)?;
    let after = wanted_behind(wanted, &node)?;
    let check = check_node(check, node, Part::Robust)?;
    Ok((behind_robust(front, after, check), rest))
}

// The check of a lower part's tree of which no node was read.
fn lower_check(
    alloc: Global,
    front: &Front,
    chosen: &[u16],
    size: u16,
    fault: Option<(Part, u64)>,
) -> Result<Checking<Decks, Partial, Label, Reason>, AllocError>
    requires { size ≤ MOST_BALLOTS }
    ensures check { IfOk result (λ check. IsDeckCheck check 1) }
    ensures so_far { IfOk result (λ check. (proved : Option Proved) →
        IsDeckAnswer front.now.shape front.now.rules proved fault →
        LowerSoFar front.now.shape front.now.rules proved chosen.now size [] check) }
{
    if let Some((part, node)) = fault {
        return Ok(Checking::Off(part, node));
    }
    match part(alloc, &front.shape, chosen) {
        Ok(shape) => {
            let state = Partial::open(alloc, &shape, &front.rules, size)?;
            let walk = Walk {
                space: Decks::new(),
                state,
                forks: Vec::new(alloc),
                way: Vec::new(alloc),
                seen: 0,
            };
            let walk = Box::new(alloc, walk)?;
            Ok(Checking::On(walk))
        }
        // The list was tested as it was read, so there is no other fault than want of memory.
        Err(_) => Err(AllocError),
    }
}

// Reads the contests of a lower part of that size.
fn read_contests<'a>(
    alloc: Global,
    front: Front,
    size: u16,
    fault: Option<(Part, u64)>,
    bytes: &'a [u8],
) -> Result<(Phase, &'a [u8]), CertFault>
    requires { IsPhase (Phase.Contests front size fault) }
    ensures phase { IfOk result (λ x. IsPhase x.0) }
    ensures moves { IfOk result (λ x.
        Moves (Phase.Contests front size fault) bytes.now x.0 x.1.now) }
    ensures tail { IfOk result (λ x. IsTail bytes.now x.1.now) }
    ensures shorter { IfOk result (λ x.
        length x.1.now + rank x.0 < length bytes.now + rank (Phase.Contests front size fault)) }
    ensures refused { result ≡ Err CertFault.NotACertificate →
        Refuses (Phase.Contests front size fault) bytes.now }
{
    let contests = front.shape.contests();
    let (chosen, rest) = part_list_of(alloc, bytes, contests)?;
    let check = lower_check(alloc, &front, &chosen, size, fault)?;
    Ok((Phase::Lower(front, 1, check), rest))
}

// Reads a node of the lower part's tree.
fn read_lower<'a>(
    alloc: Global,
    front: Front,
    wanted: u64,
    check: Checking<Decks, Partial, Label, Reason>,
    bytes: &'a [u8],
) -> Result<(Phase, &'a [u8]), CertFault>
    requires { IsPhase (Phase.Lower front wanted check) }
    ensures phase { IfOk result (λ x. IsPhase x.0) }
    ensures moves { IfOk result (λ x.
        Moves (Phase.Lower front wanted check) bytes.now x.0 x.1.now) }
    ensures tail { IfOk result (λ x. IsTail bytes.now x.1.now) }
    ensures shorter { IfOk result (λ x.
        length x.1.now + rank x.0 < length bytes.now + rank (Phase.Lower front wanted check)) }
    ensures refused { result ≡ Err CertFault.NotACertificate →
        Refuses (Phase.Lower front wanted check) bytes.now }
{
    let (node, rest): (Node<Label, Reason>, &[u8]) = node_of(alloc, bytes)?;
    let after = wanted_behind(wanted, &node)?;
    let check = check_node(check, node, Part::Lower)?;
    Ok((behind_lower(front, after, check), rest))
}

/// Reads the field at the front, and gives the place behind it and the bytes there. Behind a whole
/// certificate there is none.
pub(crate) fn step<'a>(
    alloc: Global,
    phase: Phase,
    bytes: &'a [u8],
) -> Result<(Phase, &'a [u8]), CertFault>
    requires phase { IsPhase phase }
    requires some { waits phase (length bytes.now) true ≡ false }
    ensures phase { IfOk result (λ x. IsPhase x.0) }
    ensures moves { IfOk result (λ x. Moves phase bytes.now x.0 x.1.now) }
    ensures tail { IfOk result (λ x. IsTail bytes.now x.1.now) }
    ensures shorter { IfOk result (λ x.
        length x.1.now + rank x.0 < length bytes.now + rank phase) }
    ensures refused { result ≡ Err CertFault.NotACertificate → Refuses phase bytes.now }
{
    match phase {
        Phase::Start => read_front(alloc, bytes),
        Phase::Rows(front, deck, j) => read_rows(alloc, front, deck, j, bytes),
        Phase::Robust(front, wanted, check) => read_robust(alloc, front, wanted, check, bytes),
        Phase::Contests(front, size, fault) => read_contests(alloc, front, size, fault, bytes),
        Phase::Lower(front, wanted, check) => read_lower(alloc, front, wanted, check, bytes),
        Phase::Done(_front, _fault) => Err(CertFault::NotACertificate),
    }
}
