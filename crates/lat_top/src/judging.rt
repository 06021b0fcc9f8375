ghost use Rattle.std.specs.Prelude.{◌≡◌, ◌≤◌, ◌<◌, ℕ, length, IfOk, IsSome};
ghost use Rattle.lat_base.specs.Shape.{target_count};
ghost use Rattle.cert_types.specs.CertValue.{IsCertValue};
ghost use Rattle.deck_text.specs.TargetNames.{target_names};
ghost use Rattle.lat_judge.specs.declared.judging.Judged.{Judged};
ghost use Rattle.lat_top.specs.Asked.{kept_judge};
ghost use Rattle.lat_top.specs.Job.{Answers};
ghost use Rattle.lat_top.specs.JudgeJob.{IsJudge, IsJudgement, deck_cert_in_file};
ghost use Rattle.lat_top.specs.JudgeJob.{inputs_of, judge_job, judge_reads, judged_status, judged_text};
ghost use Rattle.lat_top.specs.JudgeJob.{report_in_file, table_report, with_deck};
ghost use Rattle.lat_top.specs.Judged.{Judged as IsSaid};
ghost use Rattle.lat_top.specs.Script.{Reads, moment, viewed};
ghost use Rattle.lat_top.specs.Written.{texts_of};

use crate::Status;
use crate::cert_file::read_cert_file;
use crate::judge_words::JudgeWords;
use crate::judgeable::Judgeable;
use crate::output::Output;
use crate::reading::{FILE_LIMIT, read_file};
use crate::refusal::Refusal;
use cert_types::{Cert, Part};
use deck_text::{CsvFail, print_target, read_report_csv};
use lat_judge::{Judged, judge};
use lat_shelf::Shelf;
use std::alloc::{AllocError, Global};

// The certificate, if it has a deck.
fn with_deck(cert: Cert) -> Result<Cert, Refusal>
    ensures said { IsSaid result (with_deck cert cert.proved) }
    ensures deck { IfOk result (λ found. IsSome found.proved) }
{
    if cert.proved().is_some() {
        Ok(cert)
    } else {
        Err(Refusal::CertFalse(Part::Deck, 0))
    }
}

// The certificate in a file; one without a deck is refused.
fn read_deck_cert<H: Shelf>(alloc: Global, shelf: &mut H, name: &str) -> Result<Cert, Refusal>
    ensures reads { let seen = moment H.files H.faults in
        Reads (deck_cert_in_file name.now) (seen shelf.old) (seen shelf.new) result }
    ensures deck { IfOk result (λ found. IsSome found.proved) }
{
    let cert = read_cert_file(alloc, shelf, name)?;
    with_deck(cert)
}

// The totals of a table in the style of a certificate, or its first fault.
fn find_report(alloc: Global, cert: &Cert, table: &[u8]) -> Result<Vec<u32>, Refusal>
    ensures said { IsSaid (viewed (λ totals. totals.items) result)
        (table_report cert.now table.now) }
    ensures long { IfOk result (λ totals. length totals.items ≡ target_count cert.now.contests) }
{
    let _kept = cert.verdict();
    match read_report_csv(alloc, cert.shape(), cert.names(), table) {
        Ok(totals) => Ok(totals),
        Err(CsvFail::Fault(fault)) => Err(Refusal::Csv(fault)),
        Err(CsvFail::Memory) => Err(Refusal::Memory),
    }
}

// The totals in a file.
fn read_report<H: Shelf>(
    alloc: Global,
    shelf: &mut H,
    cert: &Cert,
    name: &str,
) -> Result<Vec<u32>, Refusal>
    ensures reads { let seen = moment H.files H.faults in
        Reads (report_in_file cert.now name.now) (seen shelf.old) (seen shelf.new)
        (viewed (λ totals. totals.items) result) }
    ensures long { IfOk result (λ totals. length totals.items ≡ target_count cert.now.contests) }
{
    let table = read_file(alloc, shelf, name, FILE_LIMIT)?;
    find_report(alloc, cert, &table)
}

// The certificate and the report that the words name.
fn read_judgeable<H: Shelf>(
    alloc: Global,
    shelf: &mut H,
    asked: &JudgeWords<'_>,
) -> Result<Judgeable, Refusal>
    ensures reads { let seen = moment H.files H.faults in
        Reads (judge_reads (kept_judge asked.now)) (seen shelf.old) (seen shelf.new) result }
    ensures deck { IfOk result (λ inputs. IsSome inputs.cert.proved) }
    ensures long { IfOk result (λ inputs.
        length inputs.reported ≡ target_count inputs.cert.contests) }
{
    let cert = read_deck_cert(alloc, shelf, asked.cert)?;
    let reported = read_report(alloc, shelf, &cert, asked.report)?;
    Ok(Judgeable { cert, reported })
}

// How a judgement ends the call.
fn judged_status(judged: Judged) -> Status
    ensures { result ≡ judged_status judged }
{
    match judged {
        Judged::Pass => Status::Done,
        Judged::Differs(t, votes, told) => Status::Differs(t, votes, told),
    }
}

// The line of a judgement.
fn judged_text(alloc: Global, cert: &Cert, judged: Judged) -> Result<Vec<u8>, AllocError>
    requires { (t votes told : ℕ) → judged ≡ Judged.Differs t votes told →
        t < target_count cert.now.contests }
    ensures { IfOk result (λ text.
        text.items ≡ judged_text (target_names cert.now.names.contests) judged) }
{
    let _kept = cert.verdict();
    match judged {
        Judged::Pass => Vec::from_slice(alloc, b"pass\n"),
        Judged::Differs(t, votes, told) => {
            let mut text = Vec::from_slice(alloc, b"differs ")?;
            let target = print_target(alloc, cert.shape(), cert.names(), t)?;
            text.extend_from_slice(&target)?;
            let numbers = format!(in alloc; " expected {votes} reported {told}\n")?;
            text.extend_from_slice(numbers.as_bytes())?;
            Ok(text)
        }
    }
}

// What a report comes to.
fn judgement(cert: &Cert, reported: &[u32]) -> Judged
    requires deck { IsSome cert.now.proved }
    requires long { length reported.now ≡ target_count cert.now.contests }
    ensures is { IsJudgement (inputs_of cert.now reported.now) result }
    ensures within { (t votes told : ℕ) → result ≡ Judged.Differs t votes told →
        t < target_count cert.now.contests }
{
    judge(cert, reported)
}

// What `judge` writes.
fn judged(alloc: Global, inputs: &Judgeable) -> Result<Output, AllocError>
    requires deck { IsSome inputs.now.cert.proved }
    requires long { length inputs.now.reported ≡ target_count inputs.now.cert.contests }
    ensures { IfOk result (λ output. IsJudge inputs.now output.status (texts_of output)) }
{
    let judged = judgement(&inputs.cert, &inputs.reported);
    let summary = judged_text(alloc, &inputs.cert, judged)?;
    Ok(Output {
        status: judged_status(judged),
        puts: Vec::new(alloc),
        summary,
    })
}

/// Compares the report that the words name with the deck of the certificate that they name.
pub fn judge_report<H: Shelf>(
    alloc: Global,
    asked: &JudgeWords<'_>,
    shelf: &mut H,
) -> Result<Output, Refusal>
    ensures { let seen = moment H.files H.faults in
        Answers (judge_job (kept_judge asked.now)) (seen shelf.old) (seen shelf.new) result }
{
    let inputs = read_judgeable(alloc, shelf, asked)?;
    let output = judged(alloc, &inputs)?;
    Ok(output)
}
