//! Runs of the low program of a source on its sites, with their reports.

ghost use Rattle.std.specs.Prelude.{◌≡◌, ◌≢◌, ◌<◌, ◌*◌, ◌≤◌, ◌++◌, nat_lt, length, None, Some, IsSome, IfOk, IfErr};
ghost use Rattle.np_syntax.specs.declared.limits.TheConstants.{LARGEST_BUDGET, MOST_EVENTS, MOST_SITES};
ghost use Rattle.np_calculus.specs.Reductions.{run};
ghost use Rattle.np_calculus.specs.Starts.{start_high};
ghost use Rattle.np_code.specs.Programs.{program};
ghost use Rattle.np_verdict.specs.Faults.{IsWellTyped};
ghost use Rattle.np_verdict.specs.Report.{load_text};
ghost use Rattle.np_on_sites.specs.ByInfrastructure.{lift_by, low_by};
ghost use Rattle.np_sources.specs.Reaches.{Reach, CannotRun, FaultyTo, IsCompiled, barred};
ghost use Rattle.np_sources.specs.Kept.{IsShownSo, high_part, history_part, merged, run_report, said};
ghost use Rattle.np_sources.specs.Makes.{KeepsRun, KeepsSites, RunsOnSites, high_of, report_of};

use super::high::{checked_for, high_part};
use super::job::Job;
use super::lowering::{Lowered, low_with_code};
use history_text::write_in;
use np_check::Checked;
use np_lift::lift_cached;
use np_on_sites::{Gate, Record, law_low_runs_safely, law_source_runs, run_on_sites};
use np_syntax::{Event, LARGEST_BUDGET, LONGEST_SOURCE, List, MOST_EVENTS, Memory, Text};
use np_verdict::{Refusal, load_report, report};
use np_words::{HighText, Infrastructure, Links, format_for};
use run_merge::{lift, merge, said};
use std::alloc::Global;
use std::sync::Wait;
use std::thread::Threads;

/// How the sites run: the infrastructure of the low program; each site makes at most so many events; with `serial` they take
/// turns one after another; and what carries agents and packets from one to another.
#[derive(Clone, Copy)]
pub struct Course {
    pub infrastructure: Infrastructure,
    pub budget: u32,
    pub serial: bool,
    pub links: Links,
}

/// What the report of a run shows: what was printed, with the texts of its events that are asked for; or how much was
/// printed by a generated source.
#[derive(Clone, Copy)]
pub enum Shown {
    Printed { history: bool, high: HighText },
    Counted { agents: u32 },
}

/// The high text that is shown.
fn high_of(shown: Shown) -> HighText
    ensures { result ≡ high_of shown }
{
    match shown {
        Shown::Printed { high, .. } => high,
        Shown::Counted { .. } => HighText::Absent,
    }
}

/// Runs the low program of a source on its sites, and makes the report.
pub(crate) fn job_on_sites<R: Threads + Wait + Sync, G: Gate>(
    alloc: Global,
    rt: &R,
    gate: &G,
    course: Course,
    shown: Shown,
    bytes: &[u8],
) -> Result<Job, Refusal>
    requires short { length bytes.now ≤ LONGEST_SOURCE }
    requires some { 1 ≤ course.budget }
    requires within { course.budget ≤ LARGEST_BUDGET }
    ensures made { IfOk result (λ job. KeepsSites course.infrastructure course.budget shown bytes.now job.kept job.high job.text) }
    ensures refused { IfErr result (λ refusal. refusal ≢ Refusal.Memory
        → FaultyTo (Reach.shown (high_of shown) (Reach.sites course.infrastructure course.budget)) bytes.now refusal) }
{
    law_source_runs();
    let checked = checked_to_run(alloc, course, shown, bytes)?;
    let made = job_of_program(alloc, rt, gate, course, shown, &checked);
    drop(checked);
    made
}

/// The checked program of a source that is to be run on its sites, or the first refusal.
fn checked_to_run(
    alloc: Global,
    _course: Course,
    shown: Shown,
    bytes: &[u8],
) -> Result<Checked, Refusal>
    requires { length bytes.now ≤ LONGEST_SOURCE }
    ensures found { IfOk result (IsWellTyped bytes.now) }
    ensures free { IfOk result (λ checked. barred (high_of shown) checked ≡ None) }
    ensures refused { IfErr result (λ refusal. refusal ≢ Refusal.Memory
        → FaultyTo (Reach.shown (high_of shown) (Reach.sites _course.infrastructure _course.budget)) bytes.now refusal) }
{
    checked_for(alloc, high_of(shown), bytes)
}

/// Runs the low program of a checked program on its sites, and makes the report.
fn job_of_program<R: Threads + Wait + Sync, G: Gate>(
    alloc: Global,
    rt: &R,
    gate: &G,
    course: Course,
    shown: Shown,
    checked: &Checked,
) -> Result<Job, Refusal>
    requires free { barred (high_of shown) checked.now ≡ None }
    requires some { 1 ≤ course.budget }
    requires within { course.budget ≤ LARGEST_BUDGET }
    ensures made { IfOk result (λ job. KeepsRun course.infrastructure course.budget shown checked.now job.kept job.high job.text) }
    ensures refused { IfErr result (λ refusal. refusal ≢ Refusal.Memory
        → CannotRun course.infrastructure course.budget checked.now refusal) }
{
    law_source_runs();
    let kept = run_of(alloc, rt, gate, course, checked)?;
    job_of_kept(alloc, course.infrastructure, shown, checked, kept)
}

/// The report of what is kept of a run of a checked program, with that.
pub(crate) fn job_of_kept(
    alloc: Global,
    infrastructure: Infrastructure,
    shown: Shown,
    checked: &Checked,
    kept: Record,
) -> Result<Job, Refusal>
    requires free { barred (high_of shown) checked.now ≡ None }
    requires run { IsSome (run (start_high checked.now) (lift_by infrastructure (merged kept))) }
    ensures kept { IfOk result (λ job. job.kept ≡ Some kept) }
    ensures high { IfOk result (λ job. job.high ≡ None) }
    ensures text { IfOk result (λ job. job.text ≡ report_of infrastructure shown checked.now kept) }
    ensures shown { IfOk result (λ _. IsShownSo (high_of shown) checked.now (lift_by infrastructure (merged kept))) }
    ensures refused { IfErr result (λ refusal. refusal ≡ Refusal.Memory) }
{
    match text_of(alloc, infrastructure, shown, checked, &kept) {
        Ok(text) => Ok(Job {
            kept: Some(kept),
            high: None,
            text,
        }),
        Err(Memory) => {
            drop(kept);
            Err(Refusal::Memory)
        }
    }
}

/// What is kept of the run of the low program of a checked program.
fn run_of<R: Threads + Wait + Sync, G: Gate>(
    alloc: Global,
    rt: &R,
    gate: &G,
    course: Course,
    checked: &Checked,
) -> Result<Record, Refusal>
    requires some { 1 ≤ course.budget }
    requires within { course.budget ≤ LARGEST_BUDGET }
    ensures made { IfOk result (λ kept. RunsOnSites course.infrastructure course.budget checked.now
        (low_by course.infrastructure checked.now) kept) }
    ensures refused { IfErr result (λ refusal. refusal ≢ Refusal.Memory
        → CannotRun course.infrastructure course.budget checked.now refusal) }
{
    let Course {
        infrastructure,
        budget,
        serial,
        links,
    } = course;
    law_low_runs_safely();
    let Lowered { low, code } = lowered_within(alloc, infrastructure, budget, checked)?;
    let made = run_on_sites(alloc, rt, gate, &low, code, budget, serial, links);
    drop(low);
    match made {
        Ok(kept) => Ok(kept),
        Err(Memory) => Err(Refusal::Memory),
    }
}

/// The low program of a checked program with its table, where its sites make few events within the budget.
fn lowered_within(
    alloc: Global,
    infrastructure: Infrastructure,
    budget: u32,
    checked: &Checked,
) -> Result<Lowered, Refusal>
    requires within { budget ≤ LARGEST_BUDGET }
    ensures compiled { IfOk result (λ made. IsCompiled infrastructure checked.now made.low) }
    ensures code { IfOk result (λ made. program made.code ≡ made.low) }
    ensures sites { IfOk result (λ made. length made.low.sites ≤ MOST_SITES) }
    ensures site { IfOk result (λ made. made.low.at < length made.low.sites) }
    ensures few { IfOk result (λ made. length made.low.sites * budget ≤ MOST_EVENTS) }
    ensures refused { IfErr result (λ refusal. refusal ≢ Refusal.Memory → CannotRun infrastructure budget checked.now refusal) }
{
    let made = low_with_code(alloc, infrastructure, checked)?;
    if are_many(made.low.sites.len(), budget) {
        drop(made);
        return Err(Refusal::TooManyEvents);
    }
    Ok(made)
}

/// Whether so many sites could make too many events within the budget.
pub(crate) fn are_many(sites: usize, budget: u32) -> bool
    requires sites { sites ≤ MOST_SITES }
    requires within { budget ≤ LARGEST_BUDGET }
    ensures { result ≡ nat_lt MOST_EVENTS (sites * budget) }
{
    MOST_EVENTS < sites as u32 * budget
}

/// The report of a run of the low program of a checked program.
fn text_of(
    alloc: Global,
    infrastructure: Infrastructure,
    shown: Shown,
    checked: &Checked,
    kept: &Record,
) -> Result<Text, Memory>
    requires free { barred (high_of shown) checked.now ≡ None }
    requires run { IsSome (run (start_high checked.now) (lift_by infrastructure (merged kept.now))) }
    ensures text { IfOk result (λ text. text ≡ report_of infrastructure shown checked.now kept.now) }
    ensures shown { IfOk result (λ _. IsShownSo (high_of shown) checked.now (lift_by infrastructure (merged kept.now))) }
{
    match shown {
        Shown::Printed { history, high } => {
            printed_text(alloc, infrastructure, checked, kept, history, high)
        }
        Shown::Counted { agents } => counted_text(alloc, agents, kept),
    }
}

/// What was printed, with the texts of the events that are asked for.
fn printed_text(
    alloc: Global,
    infrastructure: Infrastructure,
    checked: &Checked,
    kept: &Record,
    history: bool,
    high: HighText,
) -> Result<Text, Memory>
    requires free { barred high checked.now ≡ None }
    requires run { IsSome (run (start_high checked.now) (lift_by infrastructure (merged kept.now))) }
    ensures text { IfOk result (λ text. text ≡ run_report infrastructure history high checked.now kept.now) }
    ensures shown { IfOk result (λ _. IsShownSo high checked.now (lift_by infrastructure (merged kept.now))) }
{
    let between = asked_for(alloc, infrastructure, checked, kept, history, high)?;
    let values = said(alloc, kept.histories.as_slice())?;
    report(
        alloc,
        &checked.program().sites,
        values.as_slice(),
        between.as_slice(),
        kept.end,
    )
}

/// The texts of the events that are asked for. No list of the events is made for those that are not.
fn asked_for(
    alloc: Global,
    infrastructure: Infrastructure,
    checked: &Checked,
    kept: &Record,
    history: bool,
    high: HighText,
) -> Result<Text, Memory>
    requires free { barred high checked.now ≡ None }
    requires run { IsSome (run (start_high checked.now) (lift_by infrastructure (merged kept.now))) }
    ensures text { IfOk result (λ text. text ≡ history_part infrastructure history (merged kept.now)
        ++ high_part high (start_high checked.now) (lift_by infrastructure (merged kept.now))) }
    ensures shown { IfOk result (λ _. IsShownSo high checked.now (lift_by infrastructure (merged kept.now))) }
{
    match high {
        HighText::Absent => history_alone(alloc, infrastructure, kept, history),
        HighText::TwoSteps | HighText::OneStep => {
            let events = merge(alloc, kept.histories.as_slice())?;
            between(
                alloc,
                infrastructure,
                checked,
                history,
                high,
                events.as_slice(),
            )
        }
    }
}

/// The history text of a run, where it is asked for, and nothing where it is not.
fn history_alone(
    alloc: Global,
    infrastructure: Infrastructure,
    kept: &Record,
    history: bool,
) -> Result<Text, Memory>
    ensures { IfOk result (λ text. text ≡ history_part infrastructure history (merged kept.now)) }
{
    if history {
        let events = merge(alloc, kept.histories.as_slice())?;
        write_in(alloc, format_for(infrastructure), events.as_slice())
    } else {
        Ok(List::new(alloc))
    }
}

/// The texts of events that are asked for.
fn between(
    alloc: Global,
    infrastructure: Infrastructure,
    checked: &Checked,
    history: bool,
    high: HighText,
    events: &[Event],
) -> Result<Text, Memory>
    requires free { barred high checked.now ≡ None }
    requires run { IsSome (run (start_high checked.now) (lift_by infrastructure events.now)) }
    ensures text { IfOk result (λ text. text ≡ history_part infrastructure history events.now
        ++ high_part high (start_high checked.now) (lift_by infrastructure events.now)) }
    ensures shown { IfOk result (λ _. IsShownSo high checked.now (lift_by infrastructure events.now)) }
{
    let mut text = history_part(alloc, infrastructure, history, events)?;
    let lifted = lifted(alloc, infrastructure, events)?;
    let high = high_part(alloc, high, checked, lifted.as_slice())?;
    text.append(high.as_slice())?;
    Ok(text)
}

/// The run of the high level that is read off the events.
fn lifted(
    alloc: Global,
    infrastructure: Infrastructure,
    events: &[Event],
) -> Result<List<Event>, Memory>
    ensures { IfOk result (λ made. made ≡ lift_by infrastructure events.now) }
{
    match infrastructure {
        Infrastructure::Central => lift(alloc, events),
        Infrastructure::Cache => lift_cached(alloc, events),
    }
}

/// The history text of the events where it is asked for, and nothing where it is not.
fn history_part(
    alloc: Global,
    infrastructure: Infrastructure,
    history: bool,
    events: &[Event],
) -> Result<Text, Memory>
    ensures { IfOk result (λ text. text ≡ history_part infrastructure history events.now) }
{
    if history {
        write_in(alloc, format_for(infrastructure), events)
    } else {
        Ok(List::new(alloc))
    }
}

/// How many values were printed, and their sum.
fn counted_text(alloc: Global, agents: u32, kept: &Record) -> Result<Text, Memory>
    ensures { IfOk result (λ text. text ≡ load_text agents (said kept.now) kept.now.end) }
{
    let values = said(alloc, kept.histories.as_slice())?;
    load_report(alloc, agents, values.as_slice(), kept.end)
}
