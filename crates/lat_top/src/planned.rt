ghost use Rattle.std.specs.Prelude.{◌≡◌, ◌≤◌, IfOk, OnOk};
ghost use Rattle.lat_base.specs.Names.{NamesFit};
ghost use Rattle.planner.specs.Answer.{IsLeast, IsNoneWithin, IsSpent, IsAnswer};
ghost use Rattle.planner.specs.declared.answer.Answer.TheVariants as answer;
ghost use Rattle.lat_top.specs.Asked.{kept};
ghost use Rattle.lat_top.specs.PlanFiles.{plan_files};
ghost use Rattle.lat_top.specs.PlanJob.{IsPlan, PutsHold};
ghost use Rattle.lat_top.specs.Writing.{entries};
ghost use Rattle.lat_top.specs.Written.{texts_of};

use crate::asked_style::AskedStyle;
use crate::output::Output;
use crate::plan_answer::{answer_status, answer_verdict, best_size};
use crate::plan_files::{best_files, deck_files, push_cert, push_open};
use crate::plan_words::PlanWords;
use crate::put::Put;
use cert_types::{Cert, Lower, OpenFile, Proved, Verdict};
use deck_text::plan_text;
use planner::{Answer, Kept, plan};
use std::alloc::{AllocError, Global};

// The files of a least deck.
fn least_files(
    alloc: Global,
    asked: &PlanWords<'_>,
    style: AskedStyle,
    proved: Proved,
    lower: Option<Lower>,
) -> Result<Vec<Put>, AllocError>
    requires fits { NamesFit style.names.contests style.shape }
    requires least { IsLeast style.shape style.rules asked.now.max proved lower }
    ensures puts { IfOk result (λ puts. entries puts.items ≡ plan_files (kept asked.now).prefix
        style asked.now.max (answer.Least proved lower)) }
    ensures hold { OnOk result (PutsHold asked.now.max style (answer.Least proved lower)) }
{
    let mut puts = deck_files(alloc, asked.prefix, &style, &proved)?;
    let verdict = Verdict::Least(proved.deck.ballots());
    let AskedStyle {
        names,
        shape,
        rules,
    } = style;
    let cert = Cert::new(names, shape, rules, verdict, Some(proved), lower);
    push_cert(alloc, &mut puts, asked.prefix, &cert)?;
    Ok(puts)
}

// The files where no good deck is within the size cap.
fn none_files(
    alloc: Global,
    asked: &PlanWords<'_>,
    style: AskedStyle,
    lower: Lower,
) -> Result<Vec<Put>, AllocError>
    requires fits { NamesFit style.names.contests style.shape }
    requires none { IsNoneWithin style.shape style.rules asked.now.max lower }
    ensures puts { IfOk result (λ puts. entries puts.items ≡ plan_files (kept asked.now).prefix
        style asked.now.max (answer.NoneWithin lower)) }
    ensures hold { OnOk result (PutsHold asked.now.max style (answer.NoneWithin lower)) }
{
    let mut puts = Vec::new(alloc);
    let verdict = Verdict::NoneWithin(asked.max);
    let AskedStyle {
        names,
        shape,
        rules,
    } = style;
    let cert = Cert::new(names, shape, rules, verdict, None, Some(lower));
    push_cert(alloc, &mut puts, asked.prefix, &cert)?;
    Ok(puts)
}

// The files where sizes are left open.
fn spent_files(
    alloc: Global,
    asked: &PlanWords<'_>,
    style: AskedStyle,
    spent: Kept,
) -> Result<Vec<Put>, AllocError>
    requires fits { NamesFit style.names.contests style.shape }
    requires spent { IsSpent style.shape style.rules asked.now.max asked.now.budget spent }
    ensures puts { IfOk result (λ puts. entries puts.items ≡ plan_files (kept asked.now).prefix
        style asked.now.max (answer.Spent spent)) }
    ensures hold { OnOk result (PutsHold asked.now.max style (answer.Spent spent)) }
{
    let mut puts = best_files(alloc, asked.prefix, &style, &spent.best)?;
    let verdict = Verdict::Bounds(spent.from);
    let AskedStyle {
        names,
        shape,
        rules,
    } = style;
    let Kept {
        from,
        lower,
        best,
        license,
    } = spent;
    let cert = Cert::new(names, shape, rules, verdict, best, lower);
    push_cert(alloc, &mut puts, asked.prefix, &cert)?;
    let (names, shape, rules, _, best, lower) = cert.into_parts();
    let open = OpenFile::new(names, shape, rules, asked.max, from, lower, best, license);
    push_open(alloc, &mut puts, asked.prefix, &open)?;
    Ok(puts)
}

/// The files of an answer.
pub fn answer_files(
    alloc: Global,
    asked: &PlanWords<'_>,
    style: AskedStyle,
    answer: Answer,
) -> Result<Vec<Put>, AllocError>
    requires fits { NamesFit style.names.contests style.shape }
    requires is { IsAnswer style.shape style.rules asked.now.max asked.now.budget answer }
    ensures puts { IfOk result (λ puts. entries puts.items ≡ plan_files (kept asked.now).prefix
        style asked.now.max answer) }
    ensures hold { OnOk result (PutsHold asked.now.max style answer) }
{
    match answer {
        Answer::Least(proved, lower) => least_files(alloc, asked, style, proved, lower),
        Answer::NoneWithin(lower) => none_files(alloc, asked, style, lower),
        Answer::Spent(kept) => spent_files(alloc, asked, style, kept),
    }
}

/// What `plan` writes for a style: its status, its files and its summary, all of one answer of the
/// planner.
pub fn planned(
    alloc: Global,
    asked: &PlanWords<'_>,
    style: AskedStyle,
) -> Result<Output, AllocError>
    requires { NamesFit style.names.contests style.shape }
    ensures { IfOk result (λ output.
        IsPlan (kept asked.now) style output.status (texts_of output)) }
{
    let answer = plan(alloc, &style.shape, &style.rules, asked.max, asked.budget)?;
    let status = answer_status(&answer);
    let verdict = answer_verdict(&answer, asked.max);
    let size = best_size(&answer);
    let summary = plan_text(alloc, &style.names, style.shape.targets(), verdict, size)?;
    let puts = answer_files(alloc, asked, style, answer)?;
    Ok(Output {
        status,
        puts,
        summary,
    })
}
