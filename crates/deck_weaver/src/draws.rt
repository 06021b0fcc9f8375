ghost use Rattle.std.specs.Prelude.{◌<◌, ◌≤◌};

// The factor and the step of the linear congruential generator in ISO C's example of `rand`.
const FACTOR: u64 = 1_103_515_245;

const STEP: u64 = 12_345;

// How many states there are.
const MODULUS: u64 = 1 << 31;

/// Numbers that look drawn and are the same in each run. The last eight bits of a state, which
/// repeat soon, are left out.
#[derive(Drop)]
pub struct Draws {
    state: u32,
}

impl Draws {
    /// The sequence that begins at 1.
    pub fn new() -> Draws {
        Draws { state: 1 }
    }

    /// The next number below `n`.
    pub fn below(&mut self, n: usize) -> usize
        requires { 1 ≤ n }
        ensures { result < n }
    {
        let next = (u64::from(self.state) * FACTOR + STEP) % MODULUS;
        self.state = next as u32;
        (self.state / 256) as usize % n
    }

    /// Puts the numbers in another order.
    pub fn shuffle(&mut self, numbers: &mut [u16]) {
        for i in (1..numbers.len()).rev() {
            let j = self.below(i + 1);
            numbers.swap(i, j);
        }
    }
}
