ghost use Rattle.std.specs.Prelude.{ℕ};
ghost use Rattle.cert_types.specs.declared.part.Part.{Part};
ghost use Rattle.cert_types.specs.CertValue.{CertValue};
ghost use Rattle.cert_types.specs.Holding.{CertHolds, IsCertFault, OpenHolds, IsOpenFault};
ghost use Rattle.cert_types.specs.OpenValue.{OpenValue};

/// A law: a certificate or an open file that has a fault doesn't hold. So a check says yes exactly
/// where one holds. The call does nothing.
pub fn faults_exclude_holding()
    ensures cert { (cert : CertValue) (part : Part) (i : ℕ) →
        IsCertFault cert part i → ¬ CertHolds cert }
    ensures open { (file : OpenValue) (part : Part) (i : ℕ) →
        IsOpenFault file part i → ¬ OpenHolds file }
{}
