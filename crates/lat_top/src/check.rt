ghost use Rattle.std.specs.Prelude.{◌≡◌, IfOk};
ghost use Rattle.cert_stream.specs.Answer.{IsHeadOf};
ghost use Rattle.cert_types.specs.CertValue.{CertValue};
ghost use Rattle.cert_types.specs.Claim.{CertClaim};
ghost use Rattle.lat_top.specs.Asked.{kept_check};
ghost use Rattle.lat_top.specs.CheckJob.{IsCheck, check_job};
ghost use Rattle.lat_top.specs.Job.{Answers};
ghost use Rattle.lat_top.specs.Script.{moment};
ghost use Rattle.lat_top.specs.Written.{texts_of};

use crate::Status;
use crate::cert_pieces::read_held_head;
use crate::check_words::CheckWords;
use crate::output::Output;
use crate::refusal::Refusal;
use cert_stream::Head;
use deck_text::plan_text;
use lat_shelf::Shelf;
use std::alloc::{AllocError, Global};

// What `check` writes for a certificate that holds, by its head.
fn checked(alloc: Global, head: &Head) -> Result<Output, AllocError>
    ensures { IfOk result (λ output. (cert : CertValue) → IsHeadOf cert head.now → CertClaim cert
        → IsCheck cert output.status (texts_of output)) }
{
    let summary = plan_text(alloc, &head.names, head.targets, head.verdict, head.best)?;
    Ok(Output {
        status: Status::Done,
        puts: Vec::new(alloc),
        summary,
    })
}

/// Checks the certificate that the words name.
pub fn check<H: Shelf>(
    alloc: Global,
    asked: &CheckWords<'_>,
    shelf: &mut H,
) -> Result<Output, Refusal>
    ensures { let seen = moment H.files H.faults in
        Answers (check_job (kept_check asked.now)) (seen shelf.old) (seen shelf.new) result }
{
    let head = read_held_head(alloc, shelf, asked.cert)?;
    let output = checked(alloc, &head)?;
    Ok(output)
}
