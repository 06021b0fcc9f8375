ghost use Rattle.std.specs.Prelude.{◌≡◌, ◌≤◌, ◌++◌, OnOk};
ghost use Rattle.lat_base.specs.Shape.{target_count};
ghost use Rattle.lat_base.specs.declared.limits.TheConstants.{MOST_BALLOTS};
ghost use Rattle.cert_fields.specs.Reading.{Gives};
ghost use Rattle.cert_format.specs.Fields.{license_text, IsLicenseField};
ghost use Rattle.cert_format.specs.Reading.{license_at};

use crate::decks::{append_attacked, attacked_of};
use cert_fields::{put_u8, tree_of, u8_of};
use cert_types::{CertFault, License, OpenFile, put_deck_tree};
use lat_base::Shape;
use std::alloc::{AllocError, Global};

/// The license at the front, a deck of which has `from` ballots, and the bytes behind it.
#[tactic(auto, unfolding(crate::specs::Reading::license_at))]
pub(crate) fn license_of<'a>(
    alloc: Global,
    bytes: &'a [u8],
    shape: &Shape,
    from: u16,
) -> Result<(License, &'a [u8]), CertFault>
    requires { from ≤ MOST_BALLOTS }
    ensures { Gives (λ x. (x.0, x.1.now)) result
        (license_at (target_count shape.now) from bytes.now) }
{
    let (tag, rest) = u8_of(bytes)?;
    match tag {
        1 => {
            let (tree, rest) = tree_of(alloc, rest)?;
            Ok((License::Tree(tree), rest))
        }
        2 => {
            let ((deck, tree), rest) = attacked_of(alloc, rest, shape, from)?;
            Ok((License::Deck(deck, tree), rest))
        }
        _ => Err(CertFault::NotACertificate),
    }
}

/// Appends the license of an open file; after want of memory perhaps only its front.
pub(crate) fn append_license(
    alloc: Global,
    out: &mut Vec<u8>,
    file: &OpenFile,
) -> Result<(), AllocError>
    ensures ok { OnOk result (out.new.items ≡ out.old.items ++ license_text file.now.license) }
    ensures spelled { OnOk result (IsLicenseField file.now.contests file.now.license) }
{
    let _from = file.from();
    match file.license() {
        License::Tree(tree) => {
            put_u8(out, 1)?;
            put_deck_tree(alloc, out, tree)
        }
        License::Deck(deck, tree) => {
            put_u8(out, 2)?;
            append_attacked(alloc, out, deck, tree)
        }
    }
}
