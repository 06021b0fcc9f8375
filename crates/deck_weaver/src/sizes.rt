use lat_base::{Rules, Shape};

/// What a woven deck is made of: overvoted ballots, working ballots and blank ones, in this order.
#[derive(Clone, Copy)]
pub struct Sizes {
    /// The least total of a target.
    pub least: u16,
    /// How many ballots mark every target.
    pub over: u16,
    /// How many ballots are neither overvoted nor blank. At least 1.
    pub working: u16,
}

// Whether some contest can be overvoted.
fn has_overvotes(shape: &Shape) -> bool {
    for c in 0..shape.contests() {
        if shape.can_overvote(c) {
            return true;
        }
    }
    false
}

impl Sizes {
    /// The sizes of a deck of `k` ballots; none where no ballot is left to work with. Where no
    /// contest can be overvoted, a ballot that marks every target would show nothing.
    pub fn of(shape: &Shape, rules: &Rules, k: u16) -> Option<Sizes> {
        let over = if has_overvotes(shape) {
            rules.over()
        } else {
            0
        };
        let working = k.checked_sub(over)?.checked_sub(rules.blank())?;
        if working == 0 {
            return None;
        }
        Some(Sizes {
            least: rules.least(),
            over,
            working,
        })
    }
}
