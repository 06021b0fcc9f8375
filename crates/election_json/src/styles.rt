//! The ballot styles of a definition.

ghost use Rattle.std.specs.Prelude.{◌≡◌, ◌<◌, ◌≤◌, ◌++◌, ◌∷◌, [], length, map, All, IfOk};
ghost use Rattle.serde_json.specs.View.{view};
ghost use Rattle.lat_base.specs.Shape.{target_count};
ghost use Rattle.lat_base.specs.declared.limits.TheConstants.{MOST_CONTESTS};
ghost use Rattle.election_json.specs.Fault.{Gives};
ghost use Rattle.election_json.specs.Entry.{each};
ghost use Rattle.election_json.specs.Styles.{contest_shape, chosen_contest, next_chosen, style_entry, next_style, styles_of};
ghost use Rattle.election_json.specs.Kept.{entry_at, kept_style, kept_styles, AreWithin, IsWithin};

use crate::contest_table::ContestTable;
use crate::id_set::IdSet;
use crate::member::{array, id_of, member, new_id, object};
use crate::style_entry::StyleEntry;
use crate::{DefFail, DefFault, Place};
use serde_json::Value;
use std::alloc::Global;

// The number of the contest whose id an entry of a style is. The id is added to the earlier ones.
fn chosen_contest(
    alloc: Global,
    contests: &ContestTable,
    earlier: &mut IdSet,
    value: &Value,
    place: Place,
) -> Result<u32, DefFail>
    ensures gives { Gives (entry_at contests.now) result
        (chosen_contest contests.now earlier.old place (view value.now)) }
    ensures added { IfOk result
        (λ c. earlier.new ≡ earlier.old ++ (entry_at contests.now c).id ∷ []) }
    ensures within { IfOk result (λ c. c < length contests.now) }
{
    let id = id_of(alloc, value, place)?;
    let number = match contests.number_of(id.as_bytes()) {
        Some(number) => number,
        None => return Err(DefFail::Fault(DefFault::UnknownContest(place))),
    };
    match earlier.insert(alloc, id.as_bytes()) {
        Ok(true) => Ok(number),
        Ok(false) => Err(DefFail::Fault(DefFault::Repeated(place))),
        Err(_) => Err(DefFail::Memory),
    }
}

// The numbers of the contests of style number `i`.
#[tactic(auto, unfolding(crate::specs::Entry::each_from))]
fn chosen_contests(
    alloc: Global,
    contests: &ContestTable,
    i: u32,
    values: &[Value],
) -> Result<Vec<u32>, DefFail>
    requires { length values.now ≤ MOST_CONTESTS }
    ensures gives { Gives (λ cs. map (entry_at contests.now) cs.items) result
        (each (next_chosen contests.now i) (map view values.now)) }
    ensures within { IfOk result (λ cs. AreWithin contests.now cs.items) }
    ensures count { IfOk result (λ cs. length cs.items ≤ MOST_CONTESTS) }
{
    let mut chosen = Vec::new(alloc);
    let mut earlier = IdSet::new(alloc);
    for (j, value) in values.iter().enumerate() {
        let place = Place::StyleContest(i, j as u32);
        let number = match chosen_contest(alloc, contests, &mut earlier, value, place) {
            Ok(number) => number,
            Err(fail) => return Err(fail),
        };
        if chosen.push(number).is_err() {
            return Err(DefFail::Memory);
        }
    }
    Ok(chosen)
}

// How many targets these contests have together.
fn count_targets(contests: &ContestTable, chosen: &[u32]) -> u32
    requires within { AreWithin contests.now chosen.now }
    requires few { length chosen.now ≤ MOST_CONTESTS }
    ensures { result ≡ target_count (map contest_shape (map (entry_at contests.now) chosen.now)) }
{
    let mut sum: u32 = 0;
    for number in chosen {
        sum += contests.entry(*number).targets.as_slice().len() as u32;
    }
    sum
}

// Style number `i`, whose id is added to the earlier ids.
#[tactic(auto, unfolding(crate::specs::Styles::style_entry))]
fn style_entry(
    alloc: Global,
    contests: &ContestTable,
    earlier: &mut IdSet,
    i: u32,
    value: &Value,
) -> Result<StyleEntry, DefFail>
    ensures gives { Gives (kept_style contests.now) result
        (style_entry contests.now earlier.old i (view value.now)) }
    ensures added { IfOk result (λ s. earlier.new ≡ earlier.old ++ s.id ∷ []) }
    ensures within { IfOk result (IsWithin contests.now) }
{
    let style = object(value, Place::Style(i))?;
    let id = member(style, "id", Place::StyleId(i))?;
    let id = new_id(alloc, earlier, id, Place::StyleId(i))?;
    let values = member(style, "contests", Place::StyleContests(i))?;
    let values = array(values, 1, 128, Place::StyleContests(i))?;
    let chosen = chosen_contests(alloc, contests, i, values)?;
    let targets = count_targets(contests, &chosen);
    if targets > 256 {
        let place = Place::Style(i);
        return Err(DefFail::Fault(DefFault::TooManyTargets(place, targets)));
    }
    Ok(StyleEntry {
        id,
        contests: chosen,
    })
}

#[tactic(auto, unfolding(crate::specs::Entry::each_from))]
fn style_entries(
    alloc: Global,
    contests: &ContestTable,
    values: &[Value],
) -> Result<Vec<StyleEntry>, DefFail>
    requires { length values.now ≤ 4096 }
    ensures gives { Gives (λ ss. kept_styles contests.now ss.items) result
        (each (next_style contests.now) (map view values.now)) }
    ensures within { IfOk result (λ ss. All (IsWithin contests.now) ss.items) }
{
    let mut styles = Vec::new(alloc);
    let mut ids = IdSet::new(alloc);
    for (i, value) in values.iter().enumerate() {
        let style = match style_entry(alloc, contests, &mut ids, i as u32, value) {
            Ok(style) => style,
            Err(fail) => return Err(fail),
        };
        if styles.push(style).is_err() {
            return Err(DefFail::Memory);
        }
    }
    Ok(styles)
}

// The styles of a definition that has these contests.
#[tactic(auto, unfolding(crate::specs::Styles::styles_of))]
pub fn styles_of(
    alloc: Global,
    contests: &ContestTable,
    top: &Value,
) -> Result<Vec<StyleEntry>, DefFail>
    ensures gives { Gives
        (λ ss. kept_styles contests.now ss.items) result (styles_of contests.now (view top.now)) }
    ensures within { IfOk result (λ ss. All (IsWithin contests.now) ss.items) }
{
    let values = member(top, "styles", Place::Styles)?;
    let values = array(values, 1, 4096, Place::Styles)?;
    style_entries(alloc, contests, values)
}
