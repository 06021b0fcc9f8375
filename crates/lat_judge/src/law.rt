ghost use Rattle.std.specs.Prelude.{◌≡◌, ◌↔◌, ℕ, List};
ghost use Rattle.lat_base.specs.Goodness.{IsRobust};
ghost use Rattle.lat_base.specs.Misassignment.{IsMisassignment, identity};
ghost use Rattle.lat_base.specs.Shape.{target_count};
ghost use Rattle.lat_base.specs.Tally.{report};
ghost use Rattle.cert_types.specs.CertValue.{CertValue};
ghost use Rattle.lat_judge.specs.Judging.{ballots_of, Passes};

/// A law: where the deck of a certificate is robust, the report that it gives under a misassignment
/// passes exactly where that is the identity. So a report that passes comes from a machine in which
/// each target counts for itself, if some misassignment is all that can be wrong with it. The call
/// does nothing.
pub fn robust_decks_show_misassignments()
    ensures { (cert : CertValue) (s : List ℕ) →
        IsRobust cert.contests (ballots_of cert.proved) →
        IsMisassignment (target_count cert.contests) s →
        (Passes cert (report cert.contests (ballots_of cert.proved) s) ↔
        (s ≡ identity (target_count cert.contests))) }
{}
