//! The limits on styles, rules and decks. Contracts cite them by these names.

ghost use Rattle.std.specs.Prelude.{◌≡◌};

/// How many contests a style may have.
pub const MOST_CONTESTS: u16 = 128;

/// How many targets a style may have.
pub const MOST_TARGETS: u16 = 256;

/// How many targets a contest may have.
pub const MOST_IN_CONTEST: u16 = 64;

/// How high the vote limit of a contest may be.
pub const MOST_VOTES: u16 = 64;

/// How many bytes an id may have.
pub const MOST_ID_BYTES: u16 = 64;

/// How many ballots a deck may have.
pub const MOST_BALLOTS: u16 = 1024;

/// How high the rule on the least total may be.
pub const MOST_LEAST: u16 = 64;

/// How many blank ballots the rules may ask for.
pub const MOST_BLANK: u16 = 16;

/// How many overvoted ballots of a contest the rules may ask for.
pub const MOST_OVER: u16 = 16;

/// A law: what these limits are. The call does nothing.
pub fn the_limits()
    ensures contests { MOST_CONTESTS ≡ 128 }
    ensures targets { MOST_TARGETS ≡ 256 }
    ensures in_contest { MOST_IN_CONTEST ≡ 64 }
    ensures votes { MOST_VOTES ≡ 64 }
    ensures id_bytes { MOST_ID_BYTES ≡ 64 }
    ensures ballots { MOST_BALLOTS ≡ 1024 }
    ensures least { MOST_LEAST ≡ 64 }
    ensures blank { MOST_BLANK ≡ 16 }
    ensures over { MOST_OVER ≡ 16 }
{}
