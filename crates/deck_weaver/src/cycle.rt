/// Ballots taken one after the other, going round.
#[derive(Drop)]
pub struct Cycle<'a> {
    ballots: &'a [u16],
    at: usize,
}

impl<'a> Cycle<'a> {
    /// From the first ballot on.
    pub fn new(ballots: &'a [u16]) -> Cycle<'a> {
        Cycle { ballots, at: 0 }
    }

    /// The next ballot, if there is any.
    pub fn step(&mut self) -> Option<u16> {
        let ballot = self.ballots.get(self.at).copied()?;
        self.at += 1;
        if self.at == self.ballots.len() {
            self.at = 0;
        }
        Some(ballot)
    }
}
