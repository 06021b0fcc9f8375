use lat_base::MOST_BALLOTS;

// How many words of 64 bits hold a bit for each working ballot.
const WORDS: usize = 16;

const _: () = prove!(64 * WORDS == MOST_BALLOTS as usize);

/// A set of working ballots, which are numbered from 0 and at most 1,024.
#[derive(Clone, Copy)]
pub struct BallotSet {
    words: [u64; WORDS],
}

impl BallotSet {
    /// No ballot.
    pub fn empty() -> BallotSet {
        BallotSet { words: [0; WORDS] }
    }

    /// Whether ballot `j` is in the set.
    pub fn has(&self, j: u16) -> bool {
        (self.words[usize::from(j / 64) % WORDS] >> (j % 64)) & 1 == 1
    }

    /// Puts ballot `j` in.
    pub fn put(&mut self, j: u16) {
        self.words[usize::from(j / 64) % WORDS] |= 1 << (j % 64);
    }

    /// Takes ballot `j` out.
    pub fn take(&mut self, j: u16) {
        self.words[usize::from(j / 64) % WORDS] &= !(1 << (j % 64));
    }

    /// Takes all ballots out.
    pub fn clear(&mut self) {
        self.words = [0; WORDS];
    }

    /// Whether each ballot of this set that is in `among` is in `other` too.
    pub fn is_inside(&self, other: &BallotSet, among: &BallotSet) -> bool {
        for i in 0..WORDS {
            if self.words[i] & among.words[i] & !other.words[i] != 0 {
                return false;
            }
        }
        true
    }
}
