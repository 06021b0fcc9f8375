//! The shape of a style.

ghost use Rattle.std.specs.Prelude.{◌≡◌, map, IfOk};
ghost use Rattle.election_json.specs.Styles.{contest_shape};
ghost use Rattle.election_json.specs.Limits.{IsStyle};
ghost use Rattle.election_json.specs.Kept.{entry_at, kept_style, AreWithin, IsWithin};

use crate::contest_table::ContestTable;
use crate::style_entry::StyleEntry;
use lat_base::{Contest, Shape};
use std::alloc::{AllocError, Global};

// The limits and numbers of targets of these contests.
fn contest_shapes(
    alloc: Global,
    contests: &ContestTable,
    chosen: &[u32],
) -> Result<Vec<Contest>, AllocError>
    requires { AreWithin contests.now chosen.now }
    ensures { IfOk result (λ shapes.
        shapes.items ≡ map contest_shape (map (entry_at contests.now) chosen.now)) }
{
    let mut shapes = Vec::new(alloc);
    for number in chosen {
        let contest = contests.entry(*number);
        let targets = contest.targets.as_slice().len() as u16;
        let limit = contest.limit;
        shapes.push(Contest { limit, targets })?;
    }
    Ok(shapes)
}

/// The shape of a style.
pub fn shape_of(
    alloc: Global,
    contests: &ContestTable,
    style: &StyleEntry,
) -> Result<Shape, AllocError>
    requires within { IsWithin contests.now style.now }
    requires style { IsStyle (kept_style contests.now style.now) }
    ensures { IfOk result (λ shape. shape ≡ (kept_style contests.now style.now).shape) }
{
    let contests = contest_shapes(alloc, contests, style.contests.as_slice())?;
    Shape::from_valid(alloc, contests)
}
