ghost use Rattle.std.specs.Prelude.{◌≡◌, ◌↔◌, ◌<◌, true, length, None, IfOk, IfSome};
ghost use Rattle.lat_base.specs.Names.{NamesFit, names_at};
ghost use Rattle.lat_base.specs.Shape.{contest_at};
ghost use Rattle.lat_top.specs.Asked.{kept_match};
ghost use Rattle.lat_top.specs.Job.{Answers};
ghost use Rattle.lat_top.specs.Judged.{Found};
ghost use Rattle.lat_top.specs.MatchJob.{AreSameContests, IsFirstOther, IsMatch, IsOfStyle};
ghost use Rattle.lat_top.specs.MatchJob.{IsSameContest};
ghost use Rattle.lat_top.specs.MatchJob.{match_job, match_reads};
ghost use Rattle.lat_top.specs.Script.{Reads, moment};
ghost use Rattle.lat_top.specs.Written.{texts_of};

use crate::Status;
use crate::asked_style::AskedStyle;
use crate::cert_file::read_cert_file;
use crate::finding::read_style;
use crate::match_words::MatchWords;
use crate::output::Output;
use crate::refusal::Refusal;
use crate::spot::Spot;
use cert_types::Cert;
use lat_base::{ContestNames, Id, Rules};
use lat_shelf::Shelf;
use std::alloc::{AllocError, Global};

fn is_same_id(id: &Id, other: &Id) -> bool
    ensures { (result ≡ true) ↔ (id.now ≡ other.now) }
{
    id.as_bytes() == other.as_bytes()
}

// Whether two lists have the same ids in the same order.
fn are_same_ids(ids: &[Id], others: &[Id]) -> bool
    ensures { (result ≡ true) ↔ (ids.now ≡ others.now) }
{
    if ids.len() != others.len() {
        return false;
    }
    for i in 0..ids.len() {
        if !is_same_id(&ids[i], &others[i]) {
            return false;
        }
    }
    true
}

// Whether a contest has the same id and the same targets as another.
fn are_same_names(names: &ContestNames, others: &ContestNames) -> bool
    ensures { (result ≡ true) ↔ (names.now ≡ others.now) }
{
    is_same_id(&names.id, &others.id)
        && are_same_ids(names.targets.as_slice(), others.targets.as_slice())
}

// Whether contest number c is the same in a style and a certificate, which both have it.
fn is_same_contest(style: &AskedStyle, cert: &Cert, c: u16) -> bool
    requires fits { NamesFit style.now.names.contests style.now.shape }
    requires in_style { c < length style.now.shape }
    requires in_cert { c < length cert.now.contests }
    ensures { (result ≡ true) ↔ IsSameContest style.now cert.now c }
{
    let _kept = cert.verdict();
    let ours = style.shape.contest(c);
    let theirs = cert.shape().contest(c);
    ours.limit == theirs.limit
        && ours.targets == theirs.targets
        && are_same_names(
            &style.names.contests()[usize::from(c)],
            &cert.names().contests()[usize::from(c)],
        )
}

// The first contest that isn't the same; where one list ends before the other, they differ there.
fn first_other(style: &AskedStyle, cert: &Cert) -> Option<u16>
    requires { NamesFit style.now.names.contests style.now.shape }
    ensures none { result ≡ None → AreSameContests style.now cert.now }
    ensures some { IfSome result (IsFirstOther style.now cert.now) }
{
    let ours = style.shape.contests();
    let theirs = cert.shape().contests();
    for c in 0..ours.min(theirs) {
        if !is_same_contest(style, cert, c) {
            return Some(c);
        }
    }
    if ours == theirs {
        None
    } else {
        Some(ours.min(theirs))
    }
}

// Whether rules are the same.
fn are_same_rules(rules: Rules, others: Rules) -> bool
    ensures { (result ≡ true) ↔ (rules ≡ others) }
{
    rules.distinct() == others.distinct()
        && rules.least() == others.least()
        && rules.blank() == others.blank()
        && rules.over() == others.over()
}

// A certificate of the style, or the first difference.
fn compared(style: &AskedStyle, cert: Cert) -> Result<Cert, Refusal>
    requires { NamesFit style.now.names.contests style.now.shape }
    ensures { Found result (IsOfStyle style.now cert) }
{
    if style.names.style().as_bytes() != cert.names().style().as_bytes() {
        return Err(Refusal::OtherStyle(Spot::Style));
    }
    if let Some(c) = first_other(style, &cert) {
        return Err(Refusal::OtherStyle(Spot::Contest(c)));
    }
    if !are_same_rules(style.rules, cert.rules()) {
        return Err(Refusal::OtherStyle(Spot::Rules));
    }
    Ok(cert)
}

// The certificate of a file, where it is of the style of that id of a definition's file.
fn read_matching<H: Shelf>(
    alloc: Global,
    shelf: &mut H,
    asked: &MatchWords<'_>,
) -> Result<Cert, Refusal>
    ensures { let seen = moment H.files H.faults in
        Reads (match_reads (kept_match asked.now)) (seen shelf.old) (seen shelf.new) result }
{
    let style = read_style(alloc, shelf, asked.definition, asked.style)?;
    let cert = read_cert_file(alloc, shelf, asked.cert)?;
    compared(&style, cert)
}

// What `match` writes.
fn matched(alloc: Global, cert: &Cert) -> Result<Output, AllocError>
    ensures { IfOk result (λ output. IsMatch cert.now output.status (texts_of output)) }
{
    Ok(Output {
        status: Status::Done,
        puts: Vec::new(alloc),
        summary: Vec::from_slice(alloc, b"match\n")?,
    })
}

/// Compares the certificate that the words name with a style of a definition.
pub fn match_style<H: Shelf>(
    alloc: Global,
    asked: &MatchWords<'_>,
    shelf: &mut H,
) -> Result<Output, Refusal>
    ensures { let seen = moment H.files H.faults in
        Answers (match_job (kept_match asked.now)) (seen shelf.old) (seen shelf.new) result }
{
    let cert = read_matching(alloc, shelf, asked)?;
    let output = matched(alloc, &cert)?;
    Ok(output)
}
