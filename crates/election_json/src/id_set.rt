ghost use Rattle.std.specs.Prelude.{◌≡◌, ◌<◌, ◌++◌, ◌∷◌, [], not, IfOk, if◌then◌else◌, position};
ghost use Rattle.std.specs.List.{list_any};
ghost use Rattle.std.specs.Str.{bytes_eq};

use indexmap::IndexSet;
use std::alloc::{AllocError, Global};
use std::marker::Model;

/// Ids as bytes, none twice, in the order in which they were inserted. They are found by their
/// hash, so that many ids are read in a time that grows with their number and not with its square.
#[derive(Debug, Drop)]
pub struct IdSet {
    ids: IndexSet<Vec<u8>>,
}

impl Model for IdSet {
    ghost use Rattle.std.specs.Prelude.{ℕ, List, map};

    ghost Value = { List (List ℕ) };

    ghost view = { λ a. map (λ id. id.items) a.ids.keys };
}

impl IdSet {
    pub fn new(alloc: Global) -> IdSet
        ensures { result ≡ [] }
    {
        IdSet {
            ids: IndexSet::new(alloc),
        }
    }

    /// Inserts an id at the end, and says whether it was new.
    #[tactic(auto, using(crate::proofs::Lists::any_map))]
    pub fn insert(&mut self, alloc: Global, id: &[u8]) -> Result<bool, AllocError>
        ensures new { IfOk result (λ r. r ≡ not (list_any (bytes_eq id.now) self.old)) }
        ensures ids { IfOk result
            (λ r. self.new ≡ (if r then self.old ++ id.now ∷ [] else self.old)) }
    {
        let owned = Vec::from_slice(alloc, id)?;
        let new = self.ids.insert(owned)?;
        Ok(new)
    }

    /// The place of an id, in the order in which they were inserted.
    #[tactic(auto, using(crate::proofs::Lists::position_map))]
    pub fn place(&self, id: &[u8]) -> Option<usize>
        ensures { result ≡ position (bytes_eq id.now) self.now }
    {
        self.ids.get_index_of(id)
    }
}
