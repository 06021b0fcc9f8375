ghost use Rattle.std.specs.Prelude.{◌≡◌, ◌≢◌, ◌≤◌, ◌↔◌, Ok, Err};
ghost use Rattle.lat_top.specs.declared.word_fault.WordFault.{WordFault};
ghost use Rattle.lat_top.specs.Words.{Asked, PlansAll, Whole, texts, asked_of};
ghost use Rattle.lat_top.specs.Asked.{asked_by};
ghost use Rattle.lat_top.specs.Outside.{Untouched, outside};
ghost use Rattle.lat_top.specs.Job.{Answers, Ends, Completes};
ghost use Rattle.lat_top.specs.Jobs.{job_of};
ghost use Rattle.lat_top.specs.Script.{moment};

use crate::Status;
use crate::all::plan_all;
use crate::check::check;
use crate::command::Command;
use crate::judging::judge_report;
use crate::matching::match_style;
use crate::output::Output;
use crate::plan::plan;
use crate::refusal::{Refusal, status_of};
use crate::sampling::sample;
use crate::verify::verify;
use crate::words::read_words;
use crate::write::write_output;
use lat_shelf::{Shelf, Sink};
use std::alloc::Global;

// What a command answers that puts no file before it has its answer.
fn answer<H: Shelf>(alloc: Global, command: &Command<'_>, shelf: &mut H) -> Result<Output, Refusal>
    requires { (asked : Whole) → asked_by command.now ≢ PlansAll asked }
    ensures { let seen = moment H.files H.faults in
        Answers (job_of (asked_by command.now)) (seen shelf.old) (seen shelf.new) result }
{
    match command {
        Command::Plan(asked) => plan(alloc, asked, shelf),
        Command::Verify(asked) => verify(alloc, asked, shelf),
        Command::Check(asked) => check(alloc, asked, shelf),
        Command::Match(asked) => match_style(alloc, asked, shelf),
        Command::Judge(asked) => judge_report(alloc, asked, shelf),
        Command::Sample(asked) => sample(alloc, asked, shelf),
        Command::All(_) => unreachable!(),
    }
}

// Does what a command asks for.
fn run_command<H: Shelf, K: Sink>(
    alloc: Global,
    command: &Command<'_>,
    shelf: &mut H,
    out: &mut K,
) -> Status
    ensures { let seen = outside H.files H.faults K.given K.faults in
        Ends (job_of (asked_by command.now)) result
        (seen shelf.old out.old) (seen shelf.new out.new) }
{
    if let Command::All(asked) = command {
        return plan_all(alloc, asked, shelf, out);
    }
    match answer(alloc, command, shelf) {
        Ok(output) => write_output(shelf, out, &output),
        Err(refusal) => status_of(refusal),
    }
}

/// Does what the words after the program's name ask for: reads from the shelf, puts files there,
/// and gives the summary to `out`.
///
/// What a command may read, be refused for, answer and write is its job, in `specs/Jobs.antt`. The
/// status is `Words` exactly where the words are no command in form; then, as after every other
/// refusal, no file changes and nothing is given. Where files are told and no call fails, the files
/// decide whether it is refused, and else one answer for them is written whole, unless memory was
/// wanting.
pub fn run<H: Shelf, K: Sink>(alloc: Global, words: &[String], shelf: &mut H, out: &mut K) -> Status
    // The first fault in the words, exactly where they have one; then nothing is written.
    ensures words { let asked = asked_of (texts words.now) in
        (fault : WordFault) → (result ≡ Status.Words fault) ↔ (asked ≡ Err fault) }
    ensures refused { let seen = outside H.files H.faults K.given K.faults in
        (fault : WordFault) → asked_of (texts words.now) ≡ Err fault →
        Untouched (seen shelf.old out.old) (seen shelf.new out.new) }

    // What the call leaves.
    ensures ends { let seen = outside H.files H.faults K.given K.faults in
        (asked : Asked) → asked_of (texts words.now) ≡ Ok asked →
        Ends (job_of asked) result (seen shelf.old out.old) (seen shelf.new out.new) }

    // Where files are told and nothing fails, the files say how the call ends.
    ensures complete { let seen = outside H.files H.faults K.given K.faults in
        (asked : Asked) → asked_of (texts words.now) ≡ Ok asked →
        Completes (job_of asked) result (seen shelf.old out.old) (seen shelf.new out.new) }
{
    match read_words(words) {
        Ok(command) => run_command(alloc, &command, shelf, out),
        Err(fault) => Status::Words(fault),
    }
}
