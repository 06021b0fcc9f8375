ghost use Rattle.std.specs.Prelude.{IfOk};
ghost use Rattle.serde_json.specs.View.{view};
ghost use Rattle.lat_base.specs.Rules.{IsRuleSet};
ghost use Rattle.election_json.specs.Fault.{Gives};
ghost use Rattle.election_json.specs.Rules.{rules_of};

use crate::member::{boolean, member, number, object};
use crate::{DefFail, Place};
use lat_base::Rules;
use serde_json::Value;

// The rules of a definition.
#[tactic(auto, unfolding(crate::specs::Rules::rules_of))]
pub fn rules_of(top: &Value) -> Result<Rules, DefFail>
    ensures gives { Gives (λ r. r) result (rules_of (view top.now)) }
    ensures limits { IfOk result IsRuleSet }
{
    let rules = object(member(top, "rules", Place::Rules)?, Place::Rules)?;
    let distinct = boolean(member(rules, "distinct", Place::Distinct)?, Place::Distinct)?;
    let least = number(member(rules, "least", Place::Least)?, 0, 64, Place::Least)?;
    let blank = number(member(rules, "blank", Place::Blank)?, 0, 16, Place::Blank)?;
    let over = number(member(rules, "over", Place::Over)?, 0, 16, Place::Over)?;
    Ok(Rules::from_valid(distinct, least as u16, blank as u16, over as u16))
}
