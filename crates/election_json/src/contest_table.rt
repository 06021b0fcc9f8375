ghost use Rattle.std.specs.Prelude.{◌≡◌, ◌<◌, length, find, IfSome};
ghost use Rattle.std.specs.Option.{option_map};
ghost use Rattle.std.specs.Str.{bytes_eq};
ghost use Rattle.election_json.specs.Kept.{entry_at};
ghost use Rattle.election_json.specs.Limits.{IsContest};

use crate::contest_entry::ContestEntry;
use crate::id_set::IdSet;
use std::marker::Model;

/// The contests of a definition, which are found by their ids.
#[derive(Debug, Drop)]
pub struct ContestTable {
    pub(crate) entries: Vec<ContestEntry>,
    pub(crate) ids: IdSet,
}

impl Model for ContestTable {
    ghost use Rattle.std.specs.Prelude.{◌≡◌, List};
    ghost use Rattle.election_json.specs.declared.contest_entry.ContestEntry.{ContestEntry};

    ghost Value = { List ContestEntry };

    ghost use Rattle.election_json.specs.Contests.{ids_of};
    ghost use Rattle.election_json.specs.Limits.{AreContests};

    ghost view = { λ a. a.entries.items };

    ghost invariant = { λ a. (a.ids ≡ ids_of a.entries.items) × AreContests a.entries.items };
}

impl ContestTable {
    /// The number of the contest that has this id.
    #[tactic(auto, using(crate::proofs::Chosen::found_id))]
    pub fn number_of(&self, id: &[u8]) -> Option<u32>
        ensures found { option_map (entry_at self.now) result
            ≡ find (λ c. bytes_eq id.now c.id) self.now }
        ensures within { IfSome result (λ c. c < length self.now) }
        ensures same { IfSome result (λ c. (entry_at self.now c).id ≡ id.now) }
    {
        match self.ids.place(id) {
            Some(c) => Some(c as u32),
            None => None,
        }
    }

    /// Contest number `c`.
    pub fn entry(&self, c: u32) -> &ContestEntry
        requires { c < length self.now }
        ensures entry { result.now ≡ entry_at self.now c }
        ensures limits { IsContest result.now }
    {
        &self.entries[c as usize]
    }
}
