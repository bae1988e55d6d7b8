//! Runs of the low program of a source on its sites that go on from saved events.

ghost use Rattle.std.specs.Prelude.{◌≡◌, ◌≢◌, ◌<◌, ◌≤◌, ◌^◌, length, None, IfNone, IfSome, IsSome, IfOk, IfErr};
ghost use Rattle.np_syntax.specs.declared.limits.TheConstants.{LARGEST_BUDGET, MOST_SITES};
ghost use Rattle.np_calculus.specs.Reductions.{run};
ghost use Rattle.np_calculus.specs.Starts.{start_low};
ghost use Rattle.run_merge.specs.Merged.{past};
ghost use Rattle.run_save.specs.following.Following.{IsResumed};
ghost use Rattle.np_verdict.specs.Faults.{IsWellTyped};
ghost use Rattle.np_sources.specs.Makes.{KeepsResumed, RunsOnSites, high_of};
ghost use Rattle.np_sources.specs.Reaches.{CanGoOn, CannotGoOn, IsCompiled, NeverGoesOn, barred};

use super::job::Job;
use super::lowering::code_of;
use super::sites::{Course, Shown, are_many, job_of_kept};
use np_check::Checked;
use np_on_sites::{FollowFail, Gate, Record, law_low_runs_safely, law_source_runs, redo_on_sites};
use np_syntax::{Event, LowProgram, Memory};
use np_verdict::Refusal;
use site_crew::refusal;
use std::alloc::Global;
use std::sync::Wait;
use std::thread::Threads;

/// The run of the low program of a source on its sites goes on from events, whatever they are, if the sites can do them all again: so they
/// are a run, and it need not be known before. The report is made. None where the sites cannot, as they can with each run that they make by
/// themselves, within the budget; `stop_of` tells why.
pub fn job_redone<R: Threads + Wait + Sync, G: Gate>(
    alloc: Global,
    rt: &R,
    gate: &G,
    course: Course,
    shown: Shown,
    _bytes: &[u8],
    checked: &Checked,
    low: &LowProgram,
    events: &[Event],
) -> Result<Option<Job>, Refusal>
    requires typed { IsWellTyped _bytes.now checked.now }
    requires compiled { IsCompiled course.infrastructure checked.now low.now }
    requires free { barred (high_of shown) checked.now ≡ None }
    requires sites { length low.now.sites ≤ MOST_SITES }
    requires site { low.now.at < length low.now.sites }
    requires some { 1 ≤ course.budget }
    requires within { course.budget ≤ LARGEST_BUDGET }
    ensures made { IfOk result (λ made. IfSome made
        (λ job. KeepsResumed course.infrastructure course.budget shown _bytes.now events.now job.kept job.high job.text)) }
    ensures never { IfOk result (λ made. IfNone made (NeverGoesOn course.budget low.now events.now)) }
    ensures refused { IfErr result (λ refusal. refusal ≡ Refusal.Memory) }
{
    law_source_runs();
    match redone(alloc, rt, gate, course, checked, low, events)? {
        Some(kept) => match job_of_kept(alloc, course.infrastructure, shown, checked, kept) {
            Ok(job) => Ok(Some(job)),
            Err(refusal) => Err(refusal),
        },
        None => Ok(None),
    }
}

/// What is kept of the run of a low program that goes on from events that its sites can do again.
fn redone<R: Threads + Wait + Sync, G: Gate>(
    alloc: Global,
    rt: &R,
    gate: &G,
    course: Course,
    _checked: &Checked,
    low: &LowProgram,
    events: &[Event],
) -> Result<Option<Record>, Refusal>
    requires compiled { IsCompiled course.infrastructure _checked.now low.now }
    requires sites { length low.now.sites ≤ MOST_SITES }
    requires site { low.now.at < length low.now.sites }
    requires some { 1 ≤ course.budget }
    requires within { course.budget ≤ LARGEST_BUDGET }
    ensures made { IfOk result (λ made. IfSome made (λ kept. RunsOnSites course.infrastructure course.budget _checked.now low.now kept)) }
    ensures resumed { IfOk result (λ made. IfSome made (λ kept. IsResumed events.now (past kept.histories))) }
    ensures run { IfOk result (λ made. IfSome made (λ _. IsSome (run (start_low low.now) events.now))) }
    ensures can { IfOk result (λ made. IfSome made (λ _. CanGoOn course.budget low.now events.now)) }
    ensures never { IfOk result (λ made. IfNone made (NeverGoesOn course.budget low.now events.now)) }
    ensures refused { IfErr result (λ refusal. refusal ≡ Refusal.Memory) }
{
    law_low_runs_safely();
    let Course {
        budget,
        serial,
        links,
        ..
    } = course;
    if are_many(low.sites.len(), budget) {
        return Ok(None);
    }
    let code = code_of(alloc, low)?;
    match redo_on_sites(alloc, rt, gate, low, code, events, budget, serial, links) {
        Ok(made) => Ok(made),
        Err(Memory) => Err(Refusal::Memory),
    }
}

/// Why the sites of a low program do not go on from the events of a run of it. It goes through them a second time.
pub fn stop_of(alloc: Global, budget: u32, low: &LowProgram, events: &[Event]) -> Refusal
    requires sites { length low.now.sites ≤ MOST_SITES }
    requires within { budget ≤ LARGEST_BUDGET }
    requires few { length events.now < 2 ^ 32 }
    requires run { IsSome (run (start_low low.now) events.now) }
    requires never { NeverGoesOn budget low.now events.now }
    ensures { result ≢ Refusal.Memory → CannotGoOn budget low.now events.now result }
{
    let sites = low.sites.len();
    if are_many(sites, budget) {
        return Refusal::TooManyEvents;
    }
    match refusal(alloc, low, sites as u32, budget, events) {
        FollowFail::BudgetPast(site) => Refusal::BudgetPast(site),
        FollowFail::NotOurs(index) => Refusal::NotOurs(index),
        FollowFail::Memory => Refusal::Memory,
    }
}
