//! The names of a style.

ghost use Rattle.std.specs.Prelude.{◌≡◌, ◌++◌, ◌∷◌, [], false, IfOk, OnOk};
ghost use Rattle.lat_base.specs.Names.{is_repeated};
ghost use Rattle.election_json.specs.Styles.{contest_names};
ghost use Rattle.election_json.specs.Limits.{IsStyle};
ghost use Rattle.election_json.specs.Kept.{kept_style, IsWithin};

use crate::contest_entry::ContestEntry;
use crate::contest_table::ContestTable;
use crate::style_entry::StyleEntry;
use lat_base::{Id, Names, Names0};
use std::alloc::{AllocError, Global};

fn copy_ids(alloc: Global, ids: &[Id]) -> Result<Names0, AllocError>
    ensures { IfOk result (λ copy. copy ≡ ids.now) }
{
    let mut copy = Names0::new(alloc);
    for id in ids {
        copy.push(id.copy(alloc)?)?;
    }
    Ok(copy)
}

// Adds the names of a contest.
fn add_contest(alloc: Global, names: &mut Names, contest: &ContestEntry) -> Result<(), AllocError>
    requires { is_repeated names.old.contests contest.now.id contest.now.targets ≡ false }
    ensures { OnOk result (names.new ≡
        record names.old { contests = names.old.contests ++ contest_names contest.now ∷ [] }) }
{
    let id = contest.id.copy(alloc)?;
    let targets = copy_ids(alloc, contest.targets.as_slice())?;
    names.add_valid(id, targets)
}

/// The names of a style.
pub fn names_of(
    alloc: Global,
    contests: &ContestTable,
    style: &StyleEntry,
) -> Result<Names, AllocError>
    requires within { IsWithin contests.now style.now }
    requires style { IsStyle (kept_style contests.now style.now) }
    ensures { IfOk result (λ names. names ≡ (kept_style contests.now style.now).names) }
{
    let mut names = Names::new(alloc, style.id.copy(alloc)?);
    for number in &style.contests {
        add_contest(alloc, &mut names, contests.entry(*number))?;
    }
    Ok(names)
}
