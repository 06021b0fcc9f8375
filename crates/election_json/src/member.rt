//! A member of a JSON object and its kind.

ghost use Rattle.std.specs.Prelude.{◌≡◌, ◌≤◌, ◌++◌, ◌∷◌, [], length, map, IfOk};
ghost use Rattle.serde_json.specs.View.{view};
ghost use Rattle.election_json.specs.Fault.{Gives};
ghost use Rattle.election_json.specs.Member.{member, object, boolean, number, values, array, id_text, new_id};

use crate::id_set::IdSet;
use crate::{DefFail, DefFault, Place};
use lat_base::{Id, IdFault};
use serde_json::Value;
use std::alloc::Global;

pub fn member<'a>(value: &'a Value, name: &str, place: Place) -> Result<&'a Value, DefFail>
    ensures { Gives (λ v. view v.now) result (member name.now place (view value.now)) }
{
    match value.get(name) {
        Some(found) => Ok(found),
        None => Err(DefFail::Fault(DefFault::Missing(place))),
    }
}

pub fn object(value: &Value, place: Place) -> Result<&Value, DefFail>
    ensures { Gives (λ v. view v.now) result (object place (view value.now)) }
{
    if value.is_object() {
        Ok(value)
    } else {
        Err(DefFail::Fault(DefFault::WrongKind(place)))
    }
}

pub fn boolean(value: &Value, place: Place) -> Result<bool, DefFail>
    ensures { Gives (λ b. b) result (boolean place (view value.now)) }
{
    match value.as_bool() {
        Some(b) => Ok(b),
        None => Err(DefFail::Fault(DefFault::WrongKind(place))),
    }
}

// A whole number of the range from `low` to `high`.
pub fn number(value: &Value, low: u64, high: u64, place: Place) -> Result<u64, DefFail>
    ensures gives { Gives (λ n. n) result (number low high place (view value.now)) }
    ensures range { IfOk result (λ n. (low ≤ n) × (n ≤ high)) }
{
    match value.as_u64() {
        Some(n) => {
            if n < low || n > high {
                Err(DefFail::Fault(DefFault::OutOfRange(place, n)))
            } else {
                Ok(n)
            }
        }
        None => Err(DefFail::Fault(DefFault::WrongKind(place))),
    }
}

#[tactic(auto, using(crate::proofs::Lists::values_back))]
fn values(value: &Value, place: Place) -> Result<&[Value], DefFail>
    ensures { Gives (λ vs. map view vs.now) result (values place (view value.now)) }
{
    match value.as_array() {
        Some(values) => Ok(values.as_slice()),
        None => Err(DefFail::Fault(DefFault::WrongKind(place))),
    }
}

// The values of an array whose length is in the range from `low` to `high`.
pub fn array(value: &Value, low: usize, high: usize, place: Place) -> Result<&[Value], DefFail>
    ensures gives { Gives (λ vs. map view vs.now) result (array low high place (view value.now)) }
    ensures range { IfOk result (λ vs. length vs.now ≤ high) }
{
    let values = values(value, place)?;
    if values.len() < low || values.len() > high {
        let length = values.len() as u64;
        return Err(DefFail::Fault(DefFault::OutOfRange(place, length)));
    }
    Ok(values)
}

pub fn id_of(alloc: Global, value: &Value, place: Place) -> Result<Id, DefFail>
    ensures { Gives (λ id. id) result (id_text place (view value.now)) }
{
    match value.as_str() {
        Some(text) => match Id::new(alloc, text.as_bytes()) {
            Ok(id) => Ok(id),
            Err(IdFault::Bad) => Err(DefFail::Fault(DefFault::BadId(place))),
            Err(IdFault::Memory) => Err(DefFail::Memory),
        },
        None => Err(DefFail::Fault(DefFault::WrongKind(place))),
    }
}

// An id that is none of the earlier ones, to which it is added.
pub fn new_id(
    alloc: Global,
    earlier: &mut IdSet,
    value: &Value,
    place: Place,
) -> Result<Id, DefFail>
    ensures gives { Gives (λ id. id) result (new_id earlier.old place (view value.now)) }
    ensures added { IfOk result (λ id. earlier.new ≡ earlier.old ++ id ∷ []) }
{
    let id = id_of(alloc, value, place)?;
    match earlier.insert(alloc, id.as_bytes()) {
        Ok(true) => Ok(id),
        Ok(false) => Err(DefFail::Fault(DefFault::Repeated(place))),
        Err(_) => Err(DefFail::Memory),
    }
}
