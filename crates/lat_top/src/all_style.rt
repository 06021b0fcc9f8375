ghost use Rattle.std.specs.Prelude.{◌≡◌, ◌≤◌, ◌<◌, ◌+◌, ◌^◌, length, string_bytes, IfOk, OnOk};
ghost use Rattle.lat_base.specs.Names.{NamesFit};
ghost use Rattle.planner.specs.Answer.{IsAnswer};
ghost use Rattle.lat_top.specs.Asked.{kept_all};
ghost use Rattle.lat_top.specs.Counted.{Adds};
ghost use Rattle.lat_top.specs.PlanFiles.{plan_files};
ghost use Rattle.lat_top.specs.PlanJob.{PutsHold};
ghost use Rattle.lat_top.specs.Writing.{entries};

use crate::all_words::AllWords;
use crate::asked_style::AskedStyle;
use crate::county::County;
use crate::finding::ruled_style;
use crate::plan_words::PlanWords;
use crate::planned::answer_files;
use crate::put::Put;
use election_json::Definition;
use lat_base::Id;
use planner::{Answer, plan};
use std::alloc::{AllocError, Global};
use std::str::from_utf8;

// An id as text.
fn id_text(alloc: Global, id: &Id) -> Result<String, AllocError>
    ensures { IfOk result (λ text. string_bytes text ≡ id.now) }
{
    match from_utf8(id.as_bytes()) {
        Ok(text) => String::from_str(alloc, text),
        Err(_) => unreachable!(),
    }
}

// The files of a style's answer, under the style's id.
fn style_files(
    alloc: Global,
    asked: &AllWords<'_>,
    style: AskedStyle,
    answer: Answer,
) -> Result<Vec<Put>, AllocError>
    requires fits { NamesFit style.names.contests style.shape }
    requires is { IsAnswer style.shape style.rules asked.now.max asked.now.budget answer }
    ensures puts { IfOk result (λ puts. entries puts.items
        ≡ plan_files style.names.style style asked.now.max answer) }
    ensures hold { OnOk result (PutsHold asked.now.max style answer) }
{
    let id = id_text(alloc, style.names.style())?;
    let words = PlanWords {
        definition: asked.definition,
        style: id.as_str(),
        prefix: id.as_str(),
        max: asked.max,
        budget: asked.budget,
    };
    let puts = answer_files(alloc, &words, style, answer)?;
    Ok(puts)
}

/// Plans style number i, adds what is said of it, and makes its files.
pub fn planned_style(
    alloc: Global,
    asked: &AllWords<'_>,
    definition: &Definition,
    i: u32,
    county: &mut County,
) -> Result<Vec<Put>, AllocError>
    requires within { i < length definition.now.styles }
    requires few { county.old.counts.styles + 1 < 2 ^ 32 }
    ensures { IfOk result (λ puts.
        Adds (kept_all asked.now) definition.now i county.old county.new puts.items) }
{
    let style = ruled_style(alloc, definition, i)?;
    let answer = plan(alloc, &style.shape, &style.rules, asked.max, asked.budget)?;
    county.add_answer(alloc, style.names.style(), asked.max, &answer)?;
    let puts = style_files(alloc, asked, style, answer)?;
    county.add_files(alloc, &puts)?;
    Ok(puts)
}
