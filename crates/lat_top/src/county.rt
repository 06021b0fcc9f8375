ghost use Rattle.std.specs.Prelude.{◌≡◌, ◌++◌, ◌+◌, ◌<◌, ◌^◌, [], OnOk, IfOk};
ghost use Rattle.deck_text.specs.CountyText.{count_line, counts_of};
ghost use Rattle.lat_top.specs.County.{found, is_spent, with_answer};
ghost use Rattle.lat_top.specs.Manifest.{manifest};
ghost use Rattle.lat_top.specs.Said.{SaysMore};
ghost use Rattle.lat_top.specs.Writing.{entries};

use crate::Status;
use crate::plan_answer::{answer_status, answer_verdict, best_size};
use crate::put::Put;
use deck_text::{Counts, manifest_line, style_line};
use lat_base::Id;
use planner::Answer;
use std::alloc::{AllocError, Global};

/// What is said of the styles that were planned so far: a line for each, a line for each of their
/// files, how many of each answer there are, and how the call ends if no style follows.
#[derive(Drop)]
pub struct County {
    pub lines: Vec<u8>,
    pub manifest: Vec<u8>,
    pub counts: Counts,
    pub status: Status,
}

fn is_spent(status: Status) -> bool
    ensures { result ≡ is_spent status }
{
    matches!(status, Status::Spent(_, _))
}

// The status after one more answer: the first that is spent stays, and else that one has no deck.
fn with_answer(status: Status, answer: &Answer) -> Status
    ensures { result ≡ with_answer status answer.now }
{
    match answer {
        Answer::Least(_, _) => status,
        _ => {
            if is_spent(status) {
                status
            } else {
                answer_status(answer)
            }
        }
    }
}

// Adds the lines of files to a manifest.
fn list_files(alloc: Global, lines: &mut Vec<u8>, puts: &[Put]) -> Result<(), AllocError>
    ensures { OnOk result
        (lines.new.items ≡ lines.old.items ++ manifest (entries puts.now)) }
{
    for put in puts {
        let line = manifest_line(alloc, put.name.as_str(), &put.bytes)?;
        lines.extend_from_slice(&line)?;
    }
    Ok(())
}

impl County {
    /// What is said of no style.
    pub fn new(alloc: Global) -> County
        ensures lines { result.lines.items ≡ [] }
        ensures manifest { result.manifest.items ≡ [] }
        ensures counts { result.counts ≡ counts_of [] }
        ensures status { result.status ≡ Status.Done }
    {
        County {
            lines: Vec::new(alloc),
            manifest: Vec::new(alloc),
            counts: Counts::new(),
            status: Status::Done,
        }
    }

    /// Adds what was found for a style.
    pub fn add_answer(
        &mut self,
        alloc: Global,
        id: &Id,
        max: u16,
        answer: &Answer,
    ) -> Result<(), AllocError>
        requires few { self.old.counts.styles + 1 < 2 ^ 32 }
        ensures says { OnOk result
            (SaysMore max (found id.now answer.now) self.old self.new) }
        ensures manifest { self.new.manifest.items ≡ self.old.manifest.items }
    {
        let verdict = answer_verdict(answer, max);
        let line = style_line(alloc, id, verdict, best_size(answer))?;
        self.lines.extend_from_slice(&line)?;
        self.counts.add(verdict);
        self.status = with_answer(self.status, answer);
        Ok(())
    }

    /// Adds the files of a style to the manifest.
    pub fn add_files(&mut self, alloc: Global, puts: &[Put]) -> Result<(), AllocError>
        ensures lines { self.new.lines.items ≡ self.old.lines.items }
        ensures manifest { OnOk result (self.new.manifest.items
            ≡ self.old.manifest.items ++ manifest (entries puts.now)) }
        ensures counts { self.new.counts ≡ self.old.counts }
        ensures status { self.new.status ≡ self.old.status }
    {
        list_files(alloc, &mut self.manifest, puts)
    }

    /// A line for each style, and the line that counts the answers.
    pub fn summary(&self, alloc: Global) -> Result<Vec<u8>, AllocError>
        ensures { IfOk result (λ text.
            text.items ≡ self.now.lines.items ++ count_line self.now.counts) }
    {
        let mut text = Vec::from_slice(alloc, &self.lines)?;
        let counts = self.counts.line(alloc)?;
        text.extend_from_slice(&counts)?;
        Ok(text)
    }
}
