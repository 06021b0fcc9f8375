ghost use Rattle.std.specs.Prelude.{◌≡◌, ◌++◌, OnOk};
ghost use Rattle.lat_base.specs.Part.{IsPart};
ghost use Rattle.cert_fields.specs.Reading.{Gives};
ghost use Rattle.cert_format.specs.Fields.{lower_text, IsLowerField};
ghost use Rattle.cert_format.specs.Reading.{lower_at, lower_part_at};

use cert_fields::{part_list_of, tree_of};
use cert_types::{CertFault, Lower, put_contests, put_deck_tree};
use lat_base::Shape;
use std::alloc::{AllocError, Global};

#[tactic(auto, unfolding(crate::specs::Reading::lower_at))]
fn lower_of<'a>(
    alloc: Global,
    bytes: &'a [u8],
    shape: &Shape,
    size: u16,
) -> Result<(Lower, &'a [u8]), CertFault>
    ensures { Gives (λ x. (x.0, x.1.now)) result (lower_at shape.now size bytes.now) }
{
    let (contests, rest) = part_list_of(alloc, bytes, shape.contests())?;
    let (tree, rest) = tree_of(alloc, rest)?;
    Ok((
        Lower {
            contests,
            size,
            tree,
        },
        rest,
    ))
}

/// The lower part at the front, if there must be one of that size, and the bytes behind it.
#[tactic(auto, unfolding(crate::specs::Reading::lower_part_at))]
pub(crate) fn lower_part_of<'a>(
    alloc: Global,
    bytes: &'a [u8],
    shape: &Shape,
    size: Option<u16>,
) -> Result<(Option<Lower>, &'a [u8]), CertFault>
    ensures { Gives (λ x. (x.0, x.1.now)) result (lower_part_at shape.now size bytes.now) }
{
    match size {
        None => Ok((None, bytes)),
        Some(size) => {
            let (lower, rest) = lower_of(alloc, bytes, shape, size)?;
            Ok((Some(lower), rest))
        }
    }
}

/// Appends a lower part's contests and its tree; after want of memory perhaps only the contests.
pub(crate) fn append_lower(
    alloc: Global,
    out: &mut Vec<u8>,
    shape: &Shape,
    lower: &Lower,
) -> Result<(), AllocError>
    requires { IsPart shape.now lower.now.contests }
    ensures ok { OnOk result (out.new.items ≡ out.old.items ++ lower_text lower.now) }
    ensures spelled { OnOk result (IsLowerField lower.now) }
{
    put_contests(alloc, out, shape, &lower.contests)?;
    put_deck_tree(alloc, out, &lower.tree)
}
