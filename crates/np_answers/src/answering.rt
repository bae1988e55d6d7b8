ghost use Rattle.std.specs.Prelude.{◌≡◌, ◌≢◌, Err, None, Ok};
ghost use Rattle.np_answers.specs.Answers.{Answers, end_status, without_run, status_at};

use super::answer::Answer;
use np_io::{Sink, write_all};
use np_on_sites::Record;
use np_sources::{Job, MadeRun};
use np_syntax::End;
use np_verdict::{BUDGET_SPENT, DONE, NO_MEMORY, Refusal, WRITE_FAILED, line, status};
use std::alloc::Global;

/// Writes the text that was made on `out`, or the line of its refusal on `err`. `Answers` says what the answer means.
pub fn answer_of<O: Sink, E: Sink>(
    alloc: Global,
    made: Result<Job, Refusal>,
    out: &mut O,
    err: &mut E,
) -> Answer
    ensures { Answers made (record {
      before = O.faults out.old;
      now = O.faults out.new;
      old = O.written out.old;
      new = O.written out.new;
    }) (record {
      before = E.faults err.old;
      now = E.faults err.new;
      old = E.written err.old;
      new = E.written err.new;
    }) result }
{
    match made {
        Ok(Job { kept, high, text }) => match write_all(out, text.as_slice()) {
            Ok(()) => Answer {
                status: status_at(&kept, &high),
                kept,
                high,
            },
            Err(_) => Answer {
                status: WRITE_FAILED,
                kept,
                high,
            },
        },
        Err(Refusal::Memory) => without_run(NO_MEMORY),
        Err(refusal) => match line(alloc, refusal) {
            Ok(text) => match write_all(err, text.as_slice()) {
                Ok(()) => without_run(status(refusal)),
                Err(_) => without_run(WRITE_FAILED),
            },
            Err(_) => without_run(NO_MEMORY),
        },
    }
}

/// The exit status once the whole text was written: 1 for a run whose budget is spent, otherwise 0.
fn status_at(kept: &Option<Record>, high: &Option<MadeRun>) -> u8
    ensures { result ≡ status_at kept.now high.now }
{
    match (kept, high) {
        (Some(made), _) => end_status(made.end),
        (None, Some(made)) => end_status(made.end),
        (None, None) => DONE,
    }
}

fn end_status(end: End) -> u8
    ensures { result ≡ end_status end }
{
    match end {
        End::Rest => DONE,
        End::Spent => BUDGET_SPENT,
    }
}

/// The answer of that status where no run is kept.
fn without_run(status: u8) -> Answer
    ensures { result ≡ without_run status }
{
    Answer {
        status,
        kept: None,
        high: None,
    }
}
