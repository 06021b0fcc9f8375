ghost use Rattle.std.specs.Prelude.{◌≡◌, IfOk, IfSome, Ok, None};
ghost use Rattle.lat_base.specs.Goodness.{IsGood, NoGoodBelow};
ghost use Rattle.cert_check.specs.OpenChecked.{IsOpenChecked};

use crate::license::license_fault;
use crate::parts::parts_fault;
use cert_types::{OpenFile, Part};
use std::alloc::{AllocError, Global};

/// The first fault of an open file, or `None` exactly where it holds. Its best deck and its lower
/// part are tested as those of a certificate, and then what the search left: a tree of decks of
/// `from` ballots, or a canonical deck of `from` ballots that obeys the rules (else `License`, 0)
/// with the tree of an attack on it. Open nodes of these hold. The only error is want of memory.
pub fn check_open_file(alloc: Global, file: &OpenFile) -> Result<Option<(Part, u64)>, AllocError>
    ensures exact { IfOk result (IsOpenChecked file.now) }
    // What holds shows that no deck of fewer ballots than `from` is good, and the best deck is.
    ensures none { result ≡ Ok None → NoGoodBelow file.now.contests file.now.rules file.now.from }
    ensures best { result ≡ Ok None →
        IfSome file.now.best (λ p. IsGood file.now.contests file.now.rules p.deck.ballots) }
{
    let from = file.from();
    let shape = file.shape();
    let rules = file.rules();
    let _contests = shape.contests();
    let fault = parts_fault(alloc, shape, &rules, file.best(), file.lower())?;
    if fault.is_some() {
        return Ok(fault);
    }
    match license_fault(alloc, shape, &rules, from, file.license())? {
        Some(node) => Ok(Some((Part::License, node))),
        None => Ok(None),
    }
}
