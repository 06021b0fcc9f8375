ghost use Rattle.std.specs.Prelude.{◌≡◌, IfOk, Err, Ok};
ghost use Rattle.serde_json.specs.View.{view};
ghost use Rattle.election_json.specs.Fault.{Gives};
ghost use Rattle.election_json.specs.Definition.{definition_in, definition_of, IsDefinition};

use crate::contests::contests_of;
use crate::definition::Definition;
use crate::member::object;
use crate::rules::rules_of;
use crate::styles::styles_of;
use crate::{DefFail, DefFault, Place};
use serde_json::Value;
use std::alloc::Global;

// The definition that a JSON value says.
#[tactic(auto, unfolding(crate::specs::Definition::definition_in), using(crate::proofs::StyleLimits::definition_limits))]
fn definition_in(alloc: Global, value: &Value) -> Result<Definition, DefFail>
    ensures gives { Gives (λ d. d) result (definition_in (view value.now)) }
    ensures limits { IfOk result IsDefinition }
{
    let top = object(value, Place::Top)?;
    let rules = rules_of(top)?;
    let contests = contests_of(alloc, top)?;
    let styles = styles_of(alloc, &contests, top)?;
    Ok(Definition {
        rules,
        contests,
        styles,
    })
}

fn read(alloc: Global, bytes: &[u8]) -> Result<Definition, DefFail>
    ensures gives { Gives (λ d. d) result (definition_of bytes.now) }
    ensures limits { IfOk result IsDefinition }
{
    match Value::from_slice(alloc, bytes) {
        Ok(value) => definition_in(alloc, &value),
        Err(e) => {
            if e.is_memory() {
                Err(DefFail::Memory)
            } else {
                Err(DefFail::Fault(DefFault::NotJson))
            }
        }
    }
}

/// The definition that the bytes mean, or the first fault in them.
///
/// The bytes are a JSON text in UTF-8 (RFC 8259, as `serde_json` reads it), an object with these
/// members; others are passed over.
///
/// - `rules`: `distinct` (true or false), `least` (0 to 64), `blank` and `over` (0 to 16).
/// - `contests`: 1 to 4,096 objects with `id`, `limit` (1 to 64) and `targets` (1 to 64 ids).
/// - `styles`: 1 to 4,096 objects with `id` and `contests` (the ids of 1 to 128 contests, which
///   have at most 256 targets together).
///
/// They are checked in this order, each contest and each style whole before the next. `Memory`
/// comes where memory runs out.
pub fn read_definition(alloc: Global, bytes: &[u8]) -> Result<Definition, DefFail>
    ensures ok { IfOk result (λ d. definition_of bytes.now ≡ Ok d) }
    ensures fault { (f : DefFault) → result ≡ Err (DefFail.Fault f) →
        definition_of bytes.now ≡ Err f }
    // No definition is refused and no fault is passed over: what is given is what is meant, memory
    // aside.
    ensures exact { Gives (λ d. d) result (definition_of bytes.now) }
    ensures limits { IfOk result IsDefinition }
{
    read(alloc, bytes)
}
