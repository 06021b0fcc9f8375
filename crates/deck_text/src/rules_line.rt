ghost use Rattle.std.specs.Prelude.{◌≡◌, ◌<◌, ◌++◌, Some, None, IfOk, codes};
ghost use Rattle.std.specs.Fmt.{decimal};
ghost use Rattle.lat_base.specs.Names.{NamesFit};
ghost use Rattle.lat_base.specs.Shape.{target_count};
ghost use Rattle.lat_rules.specs.Broken.{IsNamed, broken_rule};
ghost use Rattle.deck_text.specs.TargetNames.{target_names};
ghost use Rattle.deck_text.specs.VerifyText.{printed, rules_text};

use crate::target_name::TargetName;
use lat_ballots::Deck;
use lat_base::{Names, Rules, Shape};
use lat_rules::{Broken, obeys};
use std::alloc::{AllocError, Global};

/// A target as it is printed: the ids of its contest and its own, with a colon between.
pub fn print_target(
    alloc: Global,
    shape: &Shape,
    names: &Names,
    t: u16,
) -> Result<Vec<u8>, AllocError>
    requires fit { NamesFit names.now.contests shape.now }
    requires target { t < target_count shape.now }
    ensures { IfOk result (λ text. text.items ≡ printed (target_names names.now.contests) t) }
{
    let name = TargetName::of(shape, names, t);
    let mut text = Vec::from_slice(alloc, name.contest)?;
    text.extend_from_slice(b":")?;
    text.extend_from_slice(name.target)?;
    Ok(text)
}

// The text, a number and a line feed.
fn end_line(alloc: Global, mut text: Vec<u8>, n: u32) -> Result<Vec<u8>, AllocError>
    ensures { IfOk result (λ line. line.items ≡ text.items ++ decimal n ++ codes "\n") }
{
    let number = n.to_string(alloc)?;
    text.extend_from_slice(number.as_bytes())?;
    text.extend_from_slice(b"\n")?;
    Ok(text)
}

// The line of a broken rule.
fn broken_line(
    alloc: Global,
    shape: &Shape,
    names: &Names,
    broken: Broken,
) -> Result<Vec<u8>, AllocError>
    requires fit { NamesFit names.now.contests shape.now }
    requires named { IsNamed shape.now broken }
    ensures { IfOk result (λ text. text.items ≡ rules_text names.now.contests (Some broken)) }
{
    match broken {
        Broken::Blank(n) => end_line(alloc, Vec::from_slice(alloc, b"rules broken blank ")?, n),
        Broken::Over(c, n) => {
            let mut text = Vec::from_slice(alloc, b"rules broken over ")?;
            text.extend_from_slice(names.contest(c).as_bytes())?;
            text.extend_from_slice(b" ")?;
            end_line(alloc, text, n)
        }
        Broken::Least(t, n) => {
            let mut text = Vec::from_slice(alloc, b"rules broken least ")?;
            let target = print_target(alloc, shape, names, t)?;
            text.extend_from_slice(target.as_slice())?;
            text.extend_from_slice(b" ")?;
            end_line(alloc, text, n)
        }
        Broken::Equal(t, u, n) => {
            let mut text = Vec::from_slice(alloc, b"rules broken equal ")?;
            let first = print_target(alloc, shape, names, t)?;
            let second = print_target(alloc, shape, names, u)?;
            text.extend_from_slice(first.as_slice())?;
            text.extend_from_slice(b" ")?;
            text.extend_from_slice(second.as_slice())?;
            text.extend_from_slice(b" ")?;
            end_line(alloc, text, n)
        }
    }
}

/// The line of the rules: that a deck keeps them, or the first one that it breaks.
pub fn rules_line(
    alloc: Global,
    shape: &Shape,
    names: &Names,
    rules: &Rules,
    deck: &Deck,
) -> Result<Vec<u8>, AllocError>
    requires fit { NamesFit names.now.contests shape.now }
    requires deck { deck.now.targets ≡ target_count shape.now }
    ensures { IfOk result
        (λ text. text.items
        ≡ rules_text names.now.contests (broken_rule shape.now rules.now deck.now.ballots)) }
{
    match obeys(shape, rules, deck) {
        Ok(()) => {
            let text = Vec::from_slice(alloc, b"rules kept\n")?;
            Ok(text)
        }
        Err(broken) => {
            let text = broken_line(alloc, shape, names, broken)?;
            Ok(text)
        }
    }
}
