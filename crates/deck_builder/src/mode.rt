ghost use Rattle.std.specs.Prelude.{◌≡◌};
ghost use Rattle.deck_builder.specs.Pattern.{mode_of};

/// How often the targets of a contest are marked. The counts rise from target to target.
#[derive(Clone, Copy, Debug, PartialEq, Eq)]
pub enum Mode {
    /// Each time by one, and then as often as there are votes, the last target first.
    Filled,
    /// Each time by one.
    Least,
    /// Each time by one, and then the last target as often as there are votes.
    LastFilled,
    /// Each time by one, in the whole style.
    Apart,
}

/// How many patterns there are, and how many of them one after the other have the same mode.
pub const PATTERNS: u32 = 32;

pub const STEPS: u32 = 8;

/// The mode of pattern number `turn`.
pub fn mode_of(turn: u32) -> Mode
    ensures { result ≡ mode_of turn }
{
    if turn / STEPS == 0 {
        Mode::Filled
    } else if turn / STEPS == 1 {
        Mode::Least
    } else if turn / STEPS == 2 {
        Mode::LastFilled
    } else {
        Mode::Apart
    }
}
