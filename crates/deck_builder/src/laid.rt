ghost use Rattle.std.specs.Prelude.{◌≡◌, ◌<◌, ◌≤◌};
ghost use Rattle.deck_builder.specs.Pattern.{is_laid};

/// Whether one of the marks that are laid from place `first` on, one on each, going round, is on
/// ballot `b`.
pub fn is_laid(ballots: u16, first: u32, marks: u16, b: u16) -> bool
    requires within { b < ballots }
    requires few { marks ≤ ballots }
    ensures { result ≡ is_laid ballots first marks b }
{
    let start = (first % u32::from(ballots)) as u16;
    let after = if start <= b {
        b - start
    } else {
        ballots - start + b
    };
    after < marks
}
