//! The contests of a definition.

ghost use Rattle.std.specs.Prelude.{◌≡◌, ◌≤◌, ◌++◌, ◌∷◌, [], length, map, IfOk};
ghost use Rattle.lat_base.specs.declared.limits.TheConstants.{MOST_IN_CONTEST};
ghost use Rattle.serde_json.specs.View.{view};
ghost use Rattle.election_json.specs.Fault.{Gives};
ghost use Rattle.election_json.specs.Entry.{each};
ghost use Rattle.election_json.specs.Contests.{target_entry, contest_entry, next_contest, contests_of};
ghost use Rattle.election_json.specs.Limits.{AreContests};

use crate::contest_entry::ContestEntry;
use crate::contest_table::ContestTable;
use crate::id_set::IdSet;
use crate::member::{array, member, new_id, number, object};
use crate::{DefFail, Place};
use lat_base::Names0;
use serde_json::Value;
use std::alloc::Global;

// The ids of the targets of contest number `i`.
#[tactic(auto, unfolding(crate::specs::Entry::each_from))]
fn targets_of(alloc: Global, i: u32, values: &[Value]) -> Result<Names0, DefFail>
    requires { length values.now ≤ MOST_IN_CONTEST }
    ensures { Gives (λ ids. ids) result (each (target_entry i) (map view values.now)) }
{
    let mut ids = Names0::new(alloc);
    let mut earlier = IdSet::new(alloc);
    for (j, value) in values.iter().enumerate() {
        let place = Place::Target(i, j as u32);
        let id = match new_id(alloc, &mut earlier, value, place) {
            Ok(id) => id,
            Err(fail) => return Err(fail),
        };
        if ids.push(id).is_err() {
            return Err(DefFail::Memory);
        }
    }
    Ok(ids)
}

// Contest number `i`, whose id is added to the earlier ids.
#[tactic(auto, unfolding(crate::specs::Contests::contest_entry))]
fn contest_entry(
    alloc: Global,
    earlier: &mut IdSet,
    i: u32,
    value: &Value,
) -> Result<ContestEntry, DefFail>
    ensures gives { Gives (λ c. c) result (contest_entry earlier.old i (view value.now)) }
    ensures added { IfOk result (λ c. earlier.new ≡ earlier.old ++ c.id ∷ []) }
{
    let contest = object(value, Place::Contest(i))?;
    let id = member(contest, "id", Place::ContestId(i))?;
    let id = new_id(alloc, earlier, id, Place::ContestId(i))?;
    let limit = member(contest, "limit", Place::Limit(i))?;
    let limit = number(limit, 1, 64, Place::Limit(i))? as u16;
    let targets = member(contest, "targets", Place::Targets(i))?;
    let targets = targets_of(alloc, i, array(targets, 1, 64, Place::Targets(i))?)?;
    Ok(ContestEntry { id, limit, targets })
}

#[tactic(auto, unfolding(crate::specs::Entry::each_from))]
fn contest_entries(alloc: Global, values: &[Value]) -> Result<ContestTable, DefFail>
    requires { length values.now ≤ 4096 }
    ensures gives { Gives (λ cs. cs) result (each next_contest (map view values.now)) }
    ensures limits { IfOk result AreContests }
{
    let mut entries = Vec::new(alloc);
    let mut ids = IdSet::new(alloc);
    for (i, value) in values.iter().enumerate() {
        let contest = match contest_entry(alloc, &mut ids, i as u32, value) {
            Ok(contest) => contest,
            Err(fail) => return Err(fail),
        };
        if entries.push(contest).is_err() {
            return Err(DefFail::Memory);
        }
    }
    Ok(ContestTable { entries, ids })
}

// The contests of a definition.
#[tactic(auto, unfolding(crate::specs::Contests::contests_of))]
pub fn contests_of(alloc: Global, top: &Value) -> Result<ContestTable, DefFail>
    ensures gives { Gives (λ cs. cs) result (contests_of (view top.now)) }
    ensures limits { IfOk result AreContests }
{
    let values = member(top, "contests", Place::Contests)?;
    let values = array(values, 1, 4096, Place::Contests)?;
    contest_entries(alloc, values)
}
