ghost use Rattle.std.specs.Prelude.{◌≡◌, ◌≤◌, ◌<◌, ◌+◌, ◌^◌, IfOk, OnOk};
ghost use Rattle.lat_top.specs.Asked.{kept_sample};
ghost use Rattle.lat_top.specs.Counted.{AddsDrawn, HoldsSamples};
ghost use Rattle.lat_top.specs.Job.{Answers};
ghost use Rattle.lat_top.specs.SampleJob.{IsSample, sample_job};
ghost use Rattle.lat_top.specs.Script.{moment};
ghost use Rattle.lat_top.specs.Written.{texts_of};

use crate::county::County;
use crate::output::Output;
use crate::refusal::Refusal;
use crate::sample_words::SampleWords;
use lat_shelf::Shelf;
use planner::plan;
use sample_styles::{Samples, sample_rules};
use std::alloc::{AllocError, Global};

// Plans the next generated style, and adds what is said of it.
fn plan_sample(
    alloc: Global,
    asked: &SampleWords,
    samples: &mut Samples,
    county: &mut County,
) -> Result<(), AllocError>
    requires drawn { samples.old.made + 1 < 2 ^ 32 }
    requires counted { county.old.counts.styles + 1 < 2 ^ 32 }
    ensures { OnOk result
        (AddsDrawn (kept_sample asked.now) samples.old samples.new county.old county.new) }
{
    let style = samples.next_style(alloc)?;
    let answer = plan(
        alloc,
        &style.shape,
        &sample_rules(),
        asked.max,
        asked.budget,
    )?;
    county.add_answer(alloc, &style.id, asked.max, &answer)?;
    Ok(())
}

// Plans the generated styles in order.
fn plan_samples(alloc: Global, asked: &SampleWords) -> Result<County, AllocError>
    ensures { IfOk result (HoldsSamples (kept_sample asked.now)) }
{
    let mut samples = Samples::new(asked.seed);
    let mut county = County::new(alloc);
    for _ in 0..asked.styles {
        plan_sample(alloc, asked, &mut samples, &mut county)?;
    }
    Ok(county)
}

// What `sample` writes.
fn sampled(alloc: Global, asked: &SampleWords) -> Result<Output, AllocError>
    ensures { IfOk result (λ output.
        IsSample (kept_sample asked.now) output.status (texts_of output)) }
{
    let county = plan_samples(alloc, asked)?;
    let summary = county.summary(alloc)?;
    Ok(Output {
        status: county.status,
        puts: Vec::new(alloc),
        summary,
    })
}

/// Plans the styles that the words ask for.
pub fn sample<H: Shelf>(
    alloc: Global,
    asked: &SampleWords,
    shelf: &mut H,
) -> Result<Output, Refusal>
    ensures { let seen = moment H.files H.faults in
        Answers (sample_job (kept_sample asked.now)) (seen shelf.old) (seen shelf.new) result }
{
    let output = sampled(alloc, asked)?;
    Ok(output)
}
