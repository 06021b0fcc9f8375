ghost use Rattle.std.specs.Prelude.{◌≡◌, ◌≤◌};
ghost use Rattle.lat_top.specs.Asked.{kept};
ghost use Rattle.lat_top.specs.Job.{Answers};
ghost use Rattle.lat_top.specs.Script.{moment};
ghost use Rattle.lat_top.specs.PlanJob.{plan_job};

use crate::finding::read_style;
use crate::output::Output;
use crate::plan_words::PlanWords;
use crate::planned::planned;
use crate::refusal::Refusal;
use lat_shelf::Shelf;
use std::alloc::Global;

/// Plans the style that the words name.
pub fn plan<H: Shelf>(
    alloc: Global,
    asked: &PlanWords<'_>,
    shelf: &mut H,
) -> Result<Output, Refusal>
    ensures { let seen = moment H.files H.faults in
        Answers (plan_job (kept asked.now)) (seen shelf.old) (seen shelf.new) result }
{
    let style = read_style(alloc, shelf, asked.definition, asked.style)?;
    let output = planned(alloc, asked, style)?;
    Ok(output)
}
