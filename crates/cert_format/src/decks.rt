ghost use Rattle.std.specs.Prelude.{◌≡◌, ◌≤◌, ◌++◌, ◌∷◌, OnOk, length};
ghost use Rattle.lat_base.specs.Shape.{target_count};
ghost use Rattle.lat_base.specs.declared.limits.TheConstants.{MOST_BALLOTS};
ghost use Rattle.cert_fields.specs.Reading.{Gives};
ghost use Rattle.cert_fields.specs.Spelling.{u16_text};
ghost use Rattle.cert_types.specs.Fitting.{IsVerdict};
ghost use Rattle.cert_format.specs.Fields.{attacked_text, sized_text, IsAttackedField};
ghost use Rattle.cert_format.specs.Reading.{attacked_at, proved_at, sized_at, best_at};
ghost use Rattle.cert_format.specs.Reading.{deck_part_at};

use crate::verdicts::ballots_of;
use cert_fields::{put_u8, put_u16, rows_of, tree_of, u8_of};
use cert_types::{CertFault, Proved, Verdict, put_evade_tree, put_rows};
use evade_space::Skipped;
use lat_ballots::Deck;
use lat_base::Shape;
use std::alloc::{AllocError, Global};
use tree_core::Tree;

/// The deck of `k` ballots at the front with its evade tree, and the bytes behind them.
pub(crate) fn attacked_of<'a>(
    alloc: Global,
    bytes: &'a [u8],
    shape: &Shape,
    k: u16,
) -> Result<((Deck, Tree<u16, Skipped>), &'a [u8]), CertFault>
    requires { k ≤ MOST_BALLOTS }
    ensures { Gives (λ x. (x.0, x.1.now)) result
        (attacked_at (target_count shape.now) k bytes.now) }
{
    let (deck, rest) = rows_of(alloc, bytes, shape, k)?;
    let (tree, rest) = tree_of(alloc, rest)?;
    Ok(((deck, tree), rest))
}

#[tactic(auto, unfolding(crate::specs::Reading::proved_at))]
fn proved_of<'a>(
    alloc: Global,
    bytes: &'a [u8],
    shape: &Shape,
    k: u16,
) -> Result<(Proved, &'a [u8]), CertFault>
    requires { k ≤ MOST_BALLOTS }
    ensures { Gives (λ x. (x.0, x.1.now)) result (proved_at (target_count shape.now) k bytes.now) }
{
    let ((deck, robust), rest) = attacked_of(alloc, bytes, shape, k)?;
    Ok((Proved { deck, robust }, rest))
}

/// The deck at the front, behind its number of ballots, with its evade tree, and the bytes behind
/// them.
#[tactic(auto, unfolding(crate::specs::Reading::sized_at))]
pub(crate) fn sized_of<'a>(
    alloc: Global,
    bytes: &'a [u8],
    shape: &Shape,
) -> Result<(Proved, &'a [u8]), CertFault>
    ensures { Gives (λ x. (x.0, x.1.now)) result (sized_at (target_count shape.now) bytes.now) }
{
    let (n, rest) = ballots_of(bytes, 0)?;
    let (proved, rest) = proved_of(alloc, rest, shape, n)?;
    Ok((proved, rest))
}

/// The best deck at the front, if the flag says that there is one, and the bytes behind it.
#[tactic(auto, unfolding(crate::specs::Reading::best_at))]
pub(crate) fn best_of<'a>(
    alloc: Global,
    bytes: &'a [u8],
    shape: &Shape,
) -> Result<(Option<Proved>, &'a [u8]), CertFault>
    ensures { Gives (λ x. (x.0, x.1.now)) result (best_at (target_count shape.now) bytes.now) }
{
    let (tag, rest) = u8_of(bytes)?;
    match tag {
        0 => Ok((None, rest)),
        1 => {
            let (proved, rest) = sized_of(alloc, rest, shape)?;
            Ok((Some(proved), rest))
        }
        _ => Err(CertFault::NotACertificate),
    }
}

/// The deck of a certificate with this verdict at the front, and the bytes behind it.
#[tactic(auto, unfolding(crate::specs::Reading::deck_part_at))]
pub(crate) fn deck_part_of<'a>(
    alloc: Global,
    bytes: &'a [u8],
    shape: &Shape,
    verdict: Verdict,
) -> Result<(Option<Proved>, &'a [u8]), CertFault>
    requires { IsVerdict verdict }
    ensures { Gives (λ x. (x.0, x.1.now)) result
        (deck_part_at (target_count shape.now) verdict bytes.now) }
{
    match verdict {
        Verdict::Least(k) => {
            let (proved, rest) = proved_of(alloc, bytes, shape, k)?;
            Ok((Some(proved), rest))
        }
        Verdict::NoneWithin(_) => Ok((None, bytes)),
        Verdict::Bounds(_) => best_of(alloc, bytes, shape),
    }
}

/// Appends a deck's rows and its evade tree; after want of memory perhaps only the rows.
pub(crate) fn append_attacked(
    alloc: Global,
    out: &mut Vec<u8>,
    deck: &Deck,
    tree: &Tree<u16, Skipped>,
) -> Result<(), AllocError>
    ensures ok { OnOk result (out.new.items ≡ out.old.items ++ attacked_text deck.now tree.now) }
    ensures spelled { OnOk result (IsAttackedField deck.now.targets deck.now tree.now) }
{
    let _ballots = deck.ballots();
    put_rows(alloc, out, deck)?;
    put_evade_tree(alloc, out, tree)
}

/// Appends a deck's number of ballots, its rows and its evade tree; after want of memory perhaps
/// only the first of these.
pub(crate) fn append_sized(
    alloc: Global,
    out: &mut Vec<u8>,
    deck: &Deck,
    tree: &Tree<u16, Skipped>,
) -> Result<(), AllocError>
    ensures ok { OnOk result (out.new.items ≡ out.old.items ++
        (u16_text (length deck.now.ballots) ++ attacked_text deck.now tree.now)) }
    ensures spelled { OnOk result (IsAttackedField deck.now.targets deck.now tree.now) }
{
    put_u16(out, deck.ballots())?;
    append_attacked(alloc, out, deck, tree)
}

/// Appends a best deck behind the flag that there is one; after want of memory perhaps only its
/// front.
pub(crate) fn append_best(alloc: Global, out: &mut Vec<u8>, best: &Proved) -> Result<(), AllocError>
    ensures ok { OnOk result (out.new.items ≡ out.old.items ++ 1 ∷ sized_text best.now) }
    ensures spelled { OnOk result
        (IsAttackedField best.now.deck.targets best.now.deck best.now.robust) }
{
    put_u8(out, 1)?;
    append_sized(alloc, out, &best.deck, &best.robust)
}
