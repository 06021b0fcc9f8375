ghost use Rattle.std.specs.Prelude.{◌≡◌, ◌<◌, ◌++◌, length, IfOk, OnOk};
ghost use Rattle.std.specs.List.{flat_map};
ghost use Rattle.lat_base.specs.Shape.{target_count};
ghost use Rattle.lat_base.specs.Part.{IsPart, part, restricted};
ghost use Rattle.readings.specs.Structural.{targets_of};

use lat_ballots::Deck;
use lat_base::Shape;
use std::alloc::{AllocError, Global};

// Puts the targets of contest c at the end.
fn push_targets(targets: &mut Vec<u16>, shape: &Shape, c: u16) -> Result<(), AllocError>
    requires { c < length shape.now }
    ensures { OnOk result (targets.new.items ≡ targets.old.items ++ targets_of shape.now c) }
{
    let _contests = shape.contests();
    for t in shape.first_of(c)..shape.first_of(c + 1) {
        targets.push(t)?;
    }
    Ok(())
}

// The targets of those contests of the style, in order.
fn list_targets(alloc: Global, shape: &Shape, contests: &[u16]) -> Result<Vec<u16>, AllocError>
    requires { IsPart shape.now contests.now }
    ensures { IfOk result
        (λ targets. targets.items ≡ flat_map (targets_of shape.now) contests.now) }
{
    let mut targets = Vec::new(alloc);
    for c in contests {
        push_targets(&mut targets, shape, *c)?;
    }
    Ok(targets)
}

/// The deck cut to the targets of those contests of the style, which are a part of it.
pub fn restrict(
    alloc: Global,
    shape: &Shape,
    deck: &Deck,
    contests: &[u16],
) -> Result<Deck, AllocError>
    requires deck { deck.now.targets ≡ target_count shape.now }
    requires part { IsPart shape.now contests.now }
    ensures { IfOk result (λ cut. cut ≡ record {
      targets = target_count (part shape.now contests.now);
      ballots = restricted shape.now contests.now deck.now.ballots;
    }) }
{
    let _ballots = deck.ballots();
    let _contests = shape.contests();
    let sources = list_targets(alloc, shape, contests)?;
    let cut = deck.read(alloc, sources.as_slice())?;
    Ok(cut)
}
