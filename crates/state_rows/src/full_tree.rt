//! A toy space: a full tree that closes only at the bottom.

ghost use Rattle.std.specs.Prelude.{◌≡◌, ◌≤◌};

use std::alloc::{AllocError, Global};
use tree_core::Space;
use tree_search::{Chooser, Pick};

/// The full tree of this depth, where each state above the bottom has this many kids under every
/// label, and every reason closes a state at the bottom. A state is its depth.
#[derive(Clone, Copy)]
pub struct FullTree {
    pub depth: u32,
    pub kids: u16,
}

impl Space for FullTree {
    type State = u32;

    type Label = u8;

    type Reason = u8;

    ghost use Rattle.std.specs.Prelude.{◌≡◌, ◌≤◌, ◌+◌, ◌==◌, nat_lt, if◌then◌else◌, Some, None, []};

    ghost steps = { λ tree. record {
      closes = λ s r. s == tree.depth;
      arity = λ s l. if nat_lt s tree.depth then Some tree.kids else None;
      kid = λ s l k. s + 1;
    } };

    ghost is_own = { λ tree s. s ≤ tree.depth };

    ghost is_solution = { λ tree s v. ⊥ };

    ghost is_complete = { λ tree s. s ≡ tree.depth };

    ghost value = { λ tree s. [] };

    fn closes(&self, state: &u32, _reason: &u8) -> bool {
        *state == self.depth
    }

    fn arity(&self, state: &u32, _label: &u8) -> Option<u16> {
        if *state < self.depth {
            Some(self.kids)
        } else {
            None
        }
    }

    fn enter(&self, state: &mut u32, _label: &u8, _kid: u16) {
        *state += 1;
    }

    fn leave(&self, state: &mut u32) {
        *state -= 1;
    }

    fn laws(&self) {}
}

/// Forks above the bottom and closes there, and halts after this many picks with the depth that it
/// has come to. It remembers nothing.
#[derive(Drop)]
pub struct Descend {
    pub picks: u64,
}

impl Chooser<FullTree> for Descend {
    type Proof = u8;

    type Why = u32;

    ghost use Rattle.std.specs.Prelude.{◌≡◌, []};

    ghost memory = { λ chooser. [] };

    ghost habits = { λ chooser tree. record {
      rule = λ m pick. m;
      relation = λ m s pick. Unit {0};
      proves = λ s proof. Unit {0};
      excuses = λ s why. why ≡ s;
    } };

    fn pick(
        &mut self,
        _alloc: Global,
        space: &FullTree,
        state: &u32,
    ) -> Result<Pick<u8, u8, u8, u32>, AllocError> {
        if self.picks == 0 {
            return Ok(Pick::Halt(*state));
        }
        self.picks -= 1;
        if *state == space.depth {
            Ok(Pick::Close(0))
        } else {
            Ok(Pick::Fork(0))
        }
    }
}
