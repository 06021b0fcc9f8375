ghost use Rattle.std.specs.Prelude.{◌≡◌, ◌++◌, [], ℕ, List};
ghost use Rattle.cert_types.specs.CertValue.{CertValue};
ghost use Rattle.cert_types.specs.OpenValue.{OpenValue};
ghost use Rattle.cert_format.specs.Files.{cert_text, IsCert, open_text, IsOpen};
ghost use Rattle.cert_format.specs.Files.{EvadeValue, evade_text, IsEvade};

/// A law: where the spelling of a certificate begins that of another, the two are one and nothing
/// follows. So no spelling is a proper prefix of another, and two certificates don't share one. The
/// call does nothing.
#[tactic(auto, using(crate::proofs::Certs::cert_law))]
pub fn cert_spellings()
    ensures { (v w : CertValue) (more : List ℕ) → IsCert v → IsCert w →
        cert_text v ++ more ≡ cert_text w → (v ≡ w) × (more ≡ []) }
{}

/// The same law for open files.
#[tactic(auto, using(crate::proofs::Opens::open_law))]
pub fn open_spellings()
    ensures { (v w : OpenValue) (more : List ℕ) → IsOpen v → IsOpen w →
        open_text v ++ more ≡ open_text w → (v ≡ w) × (more ≡ []) }
{}

/// The same law for evade files.
#[tactic(auto, using(crate::proofs::Evades::evade_law))]
pub fn evade_spellings()
    ensures { (v w : EvadeValue) (more : List ℕ) → IsEvade v → IsEvade w →
        evade_text v ++ more ≡ evade_text w → (v ≡ w) × (more ≡ []) }
{}
