ghost use Rattle.std.specs.Prelude.{◌≡◌, ◌<◌, ◌≤◌, ◌↔◌, IfOk, Err, Some, None};
ghost use Rattle.lat_base.specs.Rules.{rule_set, IsRuleSet, rule_fault};

use crate::{MOST_BLANK, MOST_LEAST, MOST_OVER};
use std::marker::Model;
use thiserror::Error;

/// Which number of the rules is above its limit, and that number.
#[derive(Clone, Copy, Debug, PartialEq, Eq, Error)]
pub enum RuleFault {
    #[error("the least total {0} is above 64")]
    BadLeast(u16),
    #[error("the number of blank ballots {0} is above 16")]
    BadBlank(u16),
    #[error("the number of overvoted ballots {0} is above 16")]
    BadOver(u16),
}

/// What an office asks of a test deck besides that it is robust.
#[derive(Clone, Copy, Debug)]
pub struct Rules {
    distinct: bool,
    least: u16,
    blank: u16,
    over: u16,
}

impl Model for Rules {
    ghost use Rattle.lat_base.specs.Rules.{RuleSet, IsRuleSet, rule_set};

    ghost Value = { RuleSet };

    ghost view = { λ a. rule_set a.distinct a.least a.blank a.over };

    ghost invariant = { λ a. IsRuleSet (rule_set a.distinct a.least a.blank a.over) };

    ghost inverse = { λ r. record {
      distinct = r.distinct;
      least = r.least;
      blank = r.blank;
      over = r.over;
    } };
}

impl Rules {
    /// The rules of these numbers, or the first of them that is above its limit.
    pub fn new(distinct: bool, least: u16, blank: u16, over: u16) -> Result<Rules, RuleFault>
        ensures ok { IfOk result (λ r. (r ≡ rule_set distinct least blank over) × IsRuleSet r) }
        ensures fault { (f : RuleFault) →
            (result ≡ Err f) ↔ (rule_fault (rule_set distinct least blank over) ≡ Some f) }
    {
        if least > MOST_LEAST {
            return Err(RuleFault::BadLeast(least));
        }
        if blank > MOST_BLANK {
            return Err(RuleFault::BadBlank(blank));
        }
        if over > MOST_OVER {
            return Err(RuleFault::BadOver(over));
        }
        Ok(Rules {
            distinct,
            least,
            blank,
            over,
        })
    }

    /// The rules of these numbers, which were tested already.
    pub fn from_valid(distinct: bool, least: u16, blank: u16, over: u16) -> Rules
        requires { IsRuleSet (rule_set distinct least blank over) }
        ensures { result ≡ rule_set distinct least blank over }
    {
        Rules {
            distinct,
            least,
            blank,
            over,
        }
    }

    /// Whether different targets of one contest must have different totals.
    pub fn distinct(&self) -> bool
        ensures { result ≡ self.now.distinct }
    {
        self.distinct
    }

    /// The least number of votes of each target.
    pub fn least(&self) -> u16
        ensures value { result ≡ self.now.least }
        ensures limit { result ≤ MOST_LEAST }
    {
        self.least
    }

    /// The least number of ballots with no mark.
    pub fn blank(&self) -> u16
        ensures value { result ≡ self.now.blank }
        ensures limit { result ≤ MOST_BLANK }
    {
        self.blank
    }

    /// The least number of ballots that overvote each contest that can be overvoted.
    pub fn over(&self) -> u16
        ensures value { result ≡ self.now.over }
        ensures limit { result ≤ MOST_OVER }
    {
        self.over
    }
}
