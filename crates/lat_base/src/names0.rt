ghost use Rattle.std.specs.Prelude.{◌≡◌, ◌++◌, ◌∷◌, [], OnOk, OnErr};
ghost use Rattle.std.specs.List.{list_any};
ghost use Rattle.std.specs.Str.{bytes_eq};
ghost use Rattle.lat_base.specs.Names.{has_twice};

use crate::Id;
use std::alloc::{AllocError, Global};
use std::marker::Model;

/// The ids of a contest's targets, in order.
#[derive(Debug, Drop)]
pub struct Names0 {
    pub(crate) ids: Vec<Id>,
}

impl Model for Names0 {
    ghost use Rattle.std.specs.Prelude.{ℕ, List};

    ghost Value = { List (List ℕ) };

    ghost view = { λ a. a.ids.items };
}

fn holds(ids: &[Id], id: &[u8]) -> bool
    ensures { result ≡ list_any (bytes_eq id.now) ids.now }
{
    ids.iter().any(|other| id == other.as_bytes())
}

impl Names0 {
    /// No ids.
    pub fn new(alloc: Global) -> Names0
        ensures { result ≡ [] }
    {
        Names0 {
            ids: Vec::new(alloc),
        }
    }

    /// Adds an id at the end.
    pub fn push(&mut self, id: Id) -> Result<(), AllocError>
        ensures ok { OnOk result (self.new ≡ self.old ++ id ∷ []) }
        ensures err { OnErr result (self.new ≡ self.old) }
    {
        Ok(self.ids.push(id)?)
    }

    /// The ids.
    pub fn as_slice(&self) -> &[Id]
        ensures { result.now ≡ self.now }
    {
        self.ids.as_slice()
    }

    // Whether an id stands twice.
    pub(crate) fn has_twice(&self) -> bool
        ensures { result ≡ has_twice self.now }
    {
        for i in 0..self.ids.len() {
            if holds(&self.ids[i + 1..], self.ids[i].as_bytes()) {
                return true;
            }
        }
        false
    }
}
