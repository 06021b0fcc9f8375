ghost use Rattle.std.specs.Prelude.{◌≡◌, ◌<◌, ◌≤◌, length};
ghost use Rattle.lat_base.specs.declared.limits.TheConstants.{MOST_TARGETS};
ghost use Rattle.evade_space.specs.Masks.{IsMarked, AreContestSets};

use crate::ballot_words::page_words;
use crate::{Evade, EvadeState};

/// How the ballots stand in one contest, as sets of ballots.
#[derive(Drop)]
pub struct ContestSets {
    // How many words the sets have.
    pub pages: u16,
    // The ballots with no more marks among the sources of the contest's images than its limit,
    // those with fewer,
    pub within: [u64; 16],
    pub room: [u64; 16],
    // those that can't come to have more, and those that can't once an unused target that they mark
    // is taken.
    pub sure: [u64; 16],
    pub sure_with: [u64; 16],
}

impl ContestSets {
    // The sets for contest `c`, of which so many places are still to be filled.
    pub fn new(space: &Evade, state: &EvadeState, c: u16, places: u16) -> ContestSets
        requires marks { IsMarked space.now state.now c }
        requires few { places ≤ MOST_TARGETS }
        ensures { AreContestSets space.now state.now.sources c places result }
    {
        let pages = space.pages();
        let mut within = [0; 16];
        let mut room = [0; 16];
        let mut sure = [0; 16];
        let mut sure_with = [0; 16];
        for i in 0..pages {
            let words = page_words(space, state, c, places, i);
            within[i as usize] = words.within;
            room[i as usize] = words.room;
            sure[i as usize] = words.sure;
            sure_with[i as usize] = words.sure_with;
        }
        ContestSets {
            pages,
            within,
            room,
            sure,
            sure_with,
        }
    }
}
