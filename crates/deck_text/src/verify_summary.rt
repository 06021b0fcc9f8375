ghost use Rattle.std.specs.Prelude.{◌≡◌, ◌≢◌, ◌<◌, ℕ, List, length, IfOk};
ghost use Rattle.lat_base.specs.Names.{NamesFit};
ghost use Rattle.lat_base.specs.Shape.{target_count};
ghost use Rattle.adversary.specs.declared.attacking.Attacked.{Attacked};
ghost use Rattle.deck_text.specs.TargetNames.{target_names};
ghost use Rattle.deck_text.specs.VerifyText.{source_line, attack_text, verify_text};

use crate::rules_line::{print_target, rules_line};
use adversary::Attacked;
use lat_ballots::Deck;
use lat_base::{Names, Rules, Shape};
use lat_misassign::Misassignment;
use std::alloc::{AllocError, Global};

// The line of target `u` under a misassignment, or nothing where it counts for itself.
#[tactic(auto, using(readings::proofs::Within::source_within))]
fn source_line(
    alloc: Global,
    shape: &Shape,
    names: &Names,
    s: &Misassignment,
    u: u16,
) -> Result<Vec<u8>, AllocError>
    requires fit { NamesFit names.now.contests shape.now }
    requires sources { length s.now ≡ target_count shape.now }
    requires image { u < target_count shape.now }
    ensures { IfOk result
        (λ line. line.items ≡ source_line (target_names names.now.contests) s.now u) }
{
    let _sources = s.len();
    let t = s.source(u);
    if t == u {
        return Ok(Vec::new(alloc));
    }
    let mut line = print_target(alloc, shape, names, u)?;
    line.extend_from_slice(b" reads ")?;
    let source = print_target(alloc, shape, names, t)?;
    line.extend_from_slice(source.as_slice())?;
    line.extend_from_slice(b"\n")?;
    Ok(line)
}

// The lines of a misassignment that evades a deck.
fn evader_lines(
    alloc: Global,
    shape: &Shape,
    names: &Names,
    s: &Misassignment,
) -> Result<Vec<u8>, AllocError>
    requires fit { NamesFit names.now.contests shape.now }
    requires sources { length s.now ≡ target_count shape.now }
    ensures { IfOk result
        (λ text. text.items
        ≡ attack_text (target_names names.now.contests) (Attacked.Evaded s.now)) }
{
    let mut text = Vec::from_slice(alloc, b"evaded\n")?;
    for u in 0..s.len() {
        let line = source_line(alloc, shape, names, s, u)?;
        text.extend_from_slice(line.as_slice())?;
    }
    Ok(text)
}

// The lines of an attack.
fn attack_lines(
    alloc: Global,
    shape: &Shape,
    names: &Names,
    attack: &Attacked,
) -> Result<Vec<u8>, AllocError>
    requires fit { NamesFit names.now.contests shape.now }
    requires sources { (s : List ℕ) → attack.now ≡ Attacked.Evaded s →
        length s ≡ target_count shape.now }
    ensures { IfOk result
        (λ text. text.items ≡ attack_text (target_names names.now.contests) attack.now) }
{
    match attack {
        Attacked::Evaded(s) => evader_lines(alloc, shape, names, s),
        Attacked::Robust(_) => Vec::from_slice(alloc, b"robust\n"),
        Attacked::Spent(_) => Vec::from_slice(alloc, b"open\n"),
    }
}

/// The summary of an attack on a deck: the style's id, how many ballots there are, whether the
/// rules are kept or the first one that is broken, and what the attack came to. A misassignment is
/// shown by a line for each target that doesn't count for itself, with the target from which its
/// marks are read; targets are printed by the ids of their contest and their own, with a colon
/// between.
///
/// The one error is want of memory.
pub fn verify_text(
    alloc: Global,
    shape: &Shape,
    names: &Names,
    rules: &Rules,
    deck: &Deck,
    attack: &Attacked,
) -> Result<Vec<u8>, AllocError>
    requires fit { NamesFit names.now.contests shape.now }
    requires deck { deck.now.targets ≡ target_count shape.now }
    requires sources { (s : List ℕ) → attack.now ≡ Attacked.Evaded s →
        length s ≡ target_count shape.now }
    ensures { IfOk result
        (λ text. text.items
        ≡ verify_text shape.now names.now rules.now deck.now.ballots attack.now) }
{
    let mut text = Vec::from_slice(alloc, b"style ")?;
    text.extend_from_slice(names.style().as_bytes())?;
    text.extend_from_slice(b"\nballots ")?;
    let ballots = deck.ballots().to_string(alloc)?;
    text.extend_from_slice(ballots.as_bytes())?;
    text.extend_from_slice(b"\n")?;
    let rules = rules_line(alloc, shape, names, rules, deck)?;
    text.extend_from_slice(rules.as_slice())?;
    let attack = attack_lines(alloc, shape, names, attack)?;
    text.extend_from_slice(attack.as_slice())?;
    Ok(text)
}
