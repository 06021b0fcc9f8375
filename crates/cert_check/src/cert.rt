ghost use Rattle.std.specs.Prelude.{◌≡◌, IfOk, IfSome, Ok};
ghost use Rattle.lat_base.specs.Goodness.{IsGood};
ghost use Rattle.cert_types.specs.Claim.{CertClaim};
ghost use Rattle.cert_types.specs.declared.checked.Checked.{Checked};
ghost use Rattle.cert_types.specs.declared.verdict.Verdict.{Verdict};
ghost use Rattle.cert_check.specs.Checked.{IsChecked};

use crate::parts::parts_fault;
use cert_types::{Cert, Checked};
use std::alloc::{AllocError, Global};

/// Whether a certificate holds, with its own verdict, or its first fault. Where there is a deck it
/// must obey the rules (else `Rules`, 0) and its tree must show that it is robust (else `Robust`
/// and the first node that doesn't hold); where there is a lower part its tree must show that no
/// deck of the part of its size is good (else `Lower` and the node). A yes implies what the
/// certificate claims, whoever made it, and that its deck is good. The only error is want of
/// memory.
pub fn check_cert(alloc: Global, cert: &Cert) -> Result<Checked, AllocError>
    ensures exact { IfOk result (IsChecked cert.now) }
    ensures claim { (verdict : Verdict) → result ≡ Ok (Checked.Yes verdict) →
        CertClaim cert.now }
    ensures good { (verdict : Verdict) → result ≡ Ok (Checked.Yes verdict) →
        IfSome cert.now.proved (λ p. IsGood cert.now.contests cert.now.rules p.deck.ballots) }
{
    let verdict = cert.verdict();
    let shape = cert.shape();
    let _contests = shape.contests();
    match parts_fault(alloc, shape, &cert.rules(), cert.proved(), cert.lower())? {
        Some((part, node)) => Ok(Checked::No(part, node)),
        None => Ok(Checked::Yes(verdict)),
    }
}
