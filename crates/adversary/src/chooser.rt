ghost use Rattle.std.specs.Prelude.{◌≡◌, ℕ, true, Option};
ghost use Rattle.evade_space.specs.Sources.{is_free, IsWhole};

use evade_space::{Evade, EvadeState, Skipped};
use lat_misassign::Misassignment;
use std::alloc::{AllocError, Global};
use tree_core::Space;
use tree_search::{Chooser, Pick};

/// Forks on the images of a list in its order, then on the others, rising.
#[derive(Drop)]
pub struct InOrder {
    pub images: Vec<u16>,
}

// The first image without a source: of the list, or else of all.
pub fn next_image(images: &[u16], state: &EvadeState) -> Option<u16>
    ensures some { (u : ℕ) → result ≡ Option.Some u → is_free state.now.sources u ≡ true }
    ensures none { result ≡ Option.None → IsWhole state.now.sources }
{
    let n = state.images();
    for image in images {
        if *image < n && state.is_free(*image) {
            return Some(*image);
        }
    }
    for u in 0..n {
        if state.is_free(u) {
            return Some(u);
        }
    }
    None
}

impl Chooser<Evade> for InOrder {
    type Proof = Misassignment;

    // Never given.
    type Why = u8;

    ghost use Rattle.std.specs.Prelude.{◌≡◌, []};
    ghost use Rattle.evade_space.specs.Sources.{whole};

    ghost memory = { λ chooser. [] };

    ghost habits = { λ chooser space. record {
      rule = λ m pick. m;
      relation = λ m s pick. Unit {0};
      proves = λ s proof. proof ≡ whole s.sources;
      excuses = λ s why. ⊥;
    } };

    fn pick(
        &mut self,
        alloc: Global,
        space: &Evade,
        state: &EvadeState,
    ) -> Result<Pick<u16, Skipped, Misassignment, u8>, AllocError> {
        match next_image(self.images.as_slice(), state) {
            Some(u) => Ok(Pick::Fork(u)),
            None => {
                if space.closes(state, &Skipped) {
                    Ok(Pick::Close(Skipped))
                } else {
                    Ok(Pick::Found(space.misassignment(alloc, state)?))
                }
            }
        }
    }
}
