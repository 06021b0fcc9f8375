ghost use Rattle.std.specs.Prelude.{◌≡◌, ◌↔◌, ℕ, IsSome, length};
ghost use Rattle.lat_base.specs.Shape.{target_count};
ghost use Rattle.lat_judge.specs.declared.judging.Judged.{Judged};
ghost use Rattle.lat_judge.specs.Judging.{expected, own_report, Passes, IsFirstDifference};

use cert_types::Cert;
use lat_ballots::Deck;
use lat_base::Shape;
use lat_tabulate::total;

/// What judging a report comes to.
#[derive(Clone, Copy, Debug, PartialEq, Eq)]
pub enum Judged {
    /// Each reported total is the one that the deck must give.
    Pass,
    /// The first target whose total differs, counted from 0; the expected total and the reported
    /// one.
    Differs(u16, u32, u32),
}

// The first target whose reported total isn't that of the deck.
fn first_difference(shape: &Shape, deck: &Deck, reported: &[u32]) -> Judged
    requires targets { deck.now.targets ≡ target_count shape.now }
    requires long { length reported.now ≡ target_count shape.now }
    ensures pass { (result ≡ Judged.Pass) ↔
        (reported.now ≡ own_report shape.now deck.now.ballots) }
    ensures differs { (t e r : ℕ) → (result ≡ Judged.Differs t e r) ↔
        IsFirstDifference (own_report shape.now deck.now.ballots) reported.now t e r }
{
    for t in 0..shape.targets() {
        let votes = total(shape, deck, t);
        let told = reported[t as usize];
        if told != votes {
            return Judged::Differs(t, votes, told);
        }
    }
    Judged::Pass
}

/// Compares reported totals, one for each target in target order, with those that the deck of a
/// certificate must give where each target counts for itself; the certificate has a deck. It
/// passes exactly where all are equal, else it gives the first difference. The trees aren't
/// checked, and no memory is taken.
pub fn judge(cert: &Cert, reported: &[u32]) -> Judged
    requires deck { IsSome cert.now.proved }
    requires long { length reported.now ≡ target_count cert.now.contests }
    ensures pass { (result ≡ Judged.Pass) ↔ Passes cert.now reported.now }
    ensures differs { (t e r : ℕ) → (result ≡ Judged.Differs t e r) ↔
        IsFirstDifference (expected cert.now) reported.now t e r }
{
    let _verdict = cert.verdict();
    match cert.proved() {
        Some(proved) => first_difference(cert.shape(), &proved.deck, reported),
        None => unreachable!(),
    }
}
