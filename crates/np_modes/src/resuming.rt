//! The mode that goes on with a run from its history.

ghost use Rattle.std.specs.Prelude.{◌≡◌, ◌≢◌, ◌+◌, ◌<◌, ◌≤◌, ◌⊎◌, ◌^◌, length, None, IfOk, IfErr};
ghost use Rattle.np_io.specs.Causes.{NoneFell};
ghost use Rattle.np_io.specs.Bytes.{StayHeld};
ghost use Rattle.np_syntax.specs.declared.limits.TheConstants.{LARGEST_BUDGET, LONGEST_SOURCE, MOST_SITES};
ghost use Rattle.np_sources.specs.Makes.{KeepsResumed, high_of, in_two_steps};
ghost use Rattle.np_sources.specs.Reaches.{Reach, IsCompiled, barred};
ghost use Rattle.np_sources.specs.declared.sites.Shown.TheVariants as shown;
ghost use Rattle.np_verdict.specs.Faults.{IsWellTyped};
ghost use Rattle.np_modes.specs.Readings.{IsText, seen};
ghost use Rattle.np_modes.specs.Causes.{CanRun, GoesOnFrom, IsUnfit, OfResume, OfSaved, RefusesResume, RefusesSaved, RefusesSource};
ghost use Rattle.np_modes.specs.Causes.{StopsFrom};

use super::reading::read_text;
use np_check::Checked;
use np_histories::{LONGEST_HISTORY, check_run, events_of};
use np_io::{Texts, Word};
use np_on_sites::Gate;
use np_sources::{Compiled, Course, Job, Shown, compiled_of, job_redone, stop_of};
use np_syntax::{Event, LONGEST_SOURCE, List, LowProgram};
use np_verdict::Refusal;
use np_words::{HighText, Infrastructure};
use std::alloc::Global;
use std::sync::Wait;
use std::thread::Threads;

/// A source that was read, checked and translated.
#[derive(Drop)]
pub(crate) struct Source {
    pub bytes: List<u8>,
    pub checked: Checked,
    pub low: LowProgram,
}

/// What the report of a resumed run shows.
#[derive(Clone, Copy)]
pub(crate) struct Report {
    pub history: bool,
    pub high: bool,
}

/// The high text of migration in two steps, if it is asked for.
fn in_two_steps(high: bool) -> HighText
    ensures { result ≡ in_two_steps high }
{
    if high {
        HighText::TwoSteps
    } else {
        HighText::Absent
    }
}

/// Goes on with the run of a source from a history.
pub(crate) fn resume<R: Threads + Wait + Sync, G: Gate, T: Texts>(
    alloc: Global,
    rt: &R,
    gate: &G,
    texts: &mut T,
    source: &Word,
    saved: &Word,
    course: Course,
    report: Report,
) -> Result<Job, Refusal>
    requires some { 1 ≤ course.budget }
    requires within { course.budget ≤ LARGEST_BUDGET }
    ensures begins { T.begins texts.new ≤ T.begins texts.old + 2 }
    ensures made { let seen = seen (T.held texts.old) (T.faults texts.old) (T.faults texts.new) (T.taken texts.new) (T.begins texts.old)
        (T.begins texts.new)
        in IfOk result (λ job. OfResume seen source.now saved.now course.infrastructure course.budget
        (shown.Printed report.history (in_two_steps report.high)) job.kept job.high job.text) }
    ensures refused { let seen = seen (T.held texts.old) (T.faults texts.old) (T.faults texts.new) (T.taken texts.new) (T.begins texts.old)
        (T.begins texts.new)
        in IfErr result (λ refusal. refusal ≢ Refusal.Memory
        → RefusesSource seen source.now (Reach.low course.infrastructure) refusal
        ⊎ RefusesResume seen source.now saved.now course.infrastructure course.budget refusal) }
{
    match read_source(alloc, texts, course.infrastructure, source) {
        Ok(source) => {
            let made = resume_source(alloc, rt, gate, texts, &source, saved, course, report);
            drop(source);
            made
        }
        Err(refusal) => Err(refusal),
    }
}

/// The source of this name, with its low program.
fn read_source<T: Texts>(
    alloc: Global,
    texts: &mut T,
    infrastructure: Infrastructure,
    name: &Word,
) -> Result<Source, Refusal>
    ensures held { StayHeld (T.held texts.old) (T.held texts.new) }
    ensures later { NoneFell (T.faults texts.old) (T.faults texts.new) }
    ensures begins { T.begins texts.new ≤ T.begins texts.old + 1 }
    ensures read { let seen = seen (T.held texts.old) (T.faults texts.old) (T.faults texts.new) (T.taken texts.new) (T.begins texts.old)
        (T.begins texts.new)
        in IfOk result (λ made. IsText seen name.now LONGEST_SOURCE made.bytes) }
    ensures typed { IfOk result (λ made. IsWellTyped made.bytes made.checked) }
    ensures compiled { IfOk result (λ made. IsCompiled infrastructure made.checked made.low) }
    ensures runs { IfOk result (λ made. CanRun made.low) }
    ensures refused { let seen = seen (T.held texts.old) (T.faults texts.old) (T.faults texts.new) (T.taken texts.new) (T.begins texts.old)
        (T.begins texts.new)
        in IfErr result (λ refusal. refusal ≢ Refusal.Memory → RefusesSource seen name.now (Reach.low infrastructure) refusal) }
{
    let bytes = read_text(alloc, texts, name, LONGEST_SOURCE, Refusal::TooLong)?;
    match compiled_of(alloc, infrastructure, bytes.as_slice()) {
        Ok(Compiled { checked, low }) => Ok(Source {
            bytes,
            checked,
            low,
        }),
        Err(refusal) => Err(refusal),
    }
}

/// Goes on with the run of a source that was read from the history of this name.
fn resume_source<R: Threads + Wait + Sync, G: Gate, T: Texts>(
    alloc: Global,
    rt: &R,
    gate: &G,
    texts: &mut T,
    source: &Source,
    saved: &Word,
    course: Course,
    report: Report,
) -> Result<Job, Refusal>
    requires typed { IsWellTyped source.now.bytes source.now.checked }
    requires compiled { IsCompiled course.infrastructure source.now.checked source.now.low }
    requires runs { CanRun source.now.low }
    requires some { 1 ≤ course.budget }
    requires within { course.budget ≤ LARGEST_BUDGET }
    ensures begins { T.begins texts.new ≤ T.begins texts.old + 1 }
    ensures made { let seen = seen (T.held texts.old) (T.faults texts.old) (T.faults texts.new) (T.taken texts.new) (T.begins texts.old)
        (T.begins texts.new)
        in IfOk result (λ job. OfSaved seen saved.now course.infrastructure course.budget
        (shown.Printed report.history (in_two_steps report.high)) source.now.bytes job.kept job.high job.text) }
    ensures refused { let seen = seen (T.held texts.old) (T.faults texts.old) (T.faults texts.new) (T.taken texts.new) (T.begins texts.old)
        (T.begins texts.new)
        in IfErr result (λ refusal. refusal ≢ Refusal.Memory → RefusesSaved seen saved.now source.now.low course.budget refusal) }
{
    let bytes = read_text(
        alloc,
        texts,
        saved,
        LONGEST_HISTORY,
        Refusal::HistoryTooLong,
    )?;
    resume_from(alloc, rt, gate, source, bytes.as_slice(), course, report)
}

/// Goes on with the run of a source from the events of a history.
fn resume_from<R: Threads + Wait + Sync, G: Gate>(
    alloc: Global,
    rt: &R,
    gate: &G,
    source: &Source,
    saved: &[u8],
    course: Course,
    report: Report,
) -> Result<Job, Refusal>
    requires short { length saved.now ≤ LONGEST_HISTORY }
    requires typed { IsWellTyped source.now.bytes source.now.checked }
    requires compiled { IsCompiled course.infrastructure source.now.checked source.now.low }
    requires runs { CanRun source.now.low }
    requires some { 1 ≤ course.budget }
    requires within { course.budget ≤ LARGEST_BUDGET }
    ensures made { IfOk result (λ job. GoesOnFrom course.infrastructure course.budget
        (shown.Printed report.history (in_two_steps report.high)) source.now.bytes saved.now job.kept job.high job.text) }
    ensures refused { IfErr result (λ refusal. refusal ≢ Refusal.Memory → IsUnfit course.budget source.now.low saved.now refusal) }
{
    let shown = Shown::Printed {
        history: report.history,
        high: in_two_steps(report.high),
    };
    let events = events_of(alloc, saved)?;
    job_from(alloc, rt, gate, source, events.as_slice(), course, shown)
}

/// Goes on with the run of a source from events: the sites do them again by themselves. Where they cannot, it is told why; for that the
/// events are gone through again, as a run of one configuration.
fn job_from<R: Threads + Wait + Sync, G: Gate>(
    alloc: Global,
    rt: &R,
    gate: &G,
    source: &Source,
    events: &[Event],
    course: Course,
    shown: Shown,
) -> Result<Job, Refusal>
    requires few { length events.now < 2 ^ 32 }
    requires typed { IsWellTyped source.now.bytes source.now.checked }
    requires compiled { IsCompiled course.infrastructure source.now.checked source.now.low }
    requires free { barred (high_of shown) source.now.checked ≡ None }
    requires runs { CanRun source.now.low }
    requires some { 1 ≤ course.budget }
    requires within { course.budget ≤ LARGEST_BUDGET }
    ensures made { IfOk result
        (λ job. KeepsResumed course.infrastructure course.budget shown source.now.bytes events.now job.kept job.high job.text) }
    ensures refused { IfErr result (λ refusal. refusal ≢ Refusal.Memory → StopsFrom course.budget source.now.low events.now refusal) }
{
    let bytes = source.bytes.as_slice();
    let Source { checked, low, .. } = source;
    match job_redone(alloc, rt, gate, course, shown, bytes, checked, low, events)? {
        Some(job) => Ok(job),
        None => {
            check_run(alloc, low, events)?;
            Err(stop_of(alloc, course.budget, low, events))
        }
    }
}
