//! From the words to what they ask for.

ghost use Rattle.std.specs.Prelude.{◌≡◌, ◌≢◌, ◌+◌, ◌≤◌, IfOk, IfErr};
ghost use Rattle.np_words.specs.Plans.{HasBudget, IsWithinLimits, plan};
ghost use Rattle.np_modes.specs.Readings.{seen};
ghost use Rattle.np_sources.specs.Reaches.{reach_of};
ghost use Rattle.np_modes.specs.Causes.{OfSource, OfNumber, RefusesSource, Does, RefusesPlan, HasMade, Stands, texts_of, texts_read};

use super::histories::{replay, upgrade};
use super::reading::read_text;
use super::resuming::{Report, resume};
use np_generate::{MOST_AGENTS, generated};
use np_io::{Texts, Word};
use np_on_sites::Gate;
use np_sources::{Course, Job, job_of, load_of, text_alone};
use np_syntax::{LONGEST_SOURCE, Memory};
use np_verdict::Refusal;
use np_words::{Plan, PlanFail, Task, plan_of};
use std::alloc::Global;
use std::sync::Wait;
use std::thread::Threads;

/// Does what the words ask for.
pub fn work<R: Threads + Wait + Sync, G: Gate, T: Texts>(
    alloc: Global,
    rt: &R,
    gate: &G,
    words: &[Word],
    texts: &mut T,
) -> Result<Job, Refusal>
    ensures begins { T.begins texts.new ≤ T.begins texts.old + texts_read (plan words.now) }
    ensures made { let seen = seen (T.held texts.old) (T.faults texts.old) (T.faults texts.new) (T.taken texts.new) (T.begins texts.old)
        (T.begins texts.new)
        in IfOk result (λ job. HasMade words.now seen job.kept job.high job.text) }
    ensures refused { let seen = seen (T.held texts.old) (T.faults texts.old) (T.faults texts.new) (T.taken texts.new) (T.begins texts.old)
        (T.begins texts.new)
        in IfErr result (λ refusal. refusal ≢ Refusal.Memory → Stands words.now seen refusal) }
{
    match plan_of(alloc, words) {
        Ok(plan) => done(alloc, rt, gate, texts, &plan),
        Err(PlanFail::Usage) => Err(Refusal::Usage),
        Err(PlanFail::Memory) => Err(Refusal::Memory),
    }
}

/// Does what is planned.
fn done<R: Threads + Wait + Sync, G: Gate, T: Texts>(
    alloc: Global,
    rt: &R,
    gate: &G,
    texts: &mut T,
    plan: &Plan,
) -> Result<Job, Refusal>
    requires { IsWithinLimits plan.now }
    ensures begins { T.begins texts.new ≤ T.begins texts.old + texts_of plan.now }
    ensures made { let seen = seen (T.held texts.old) (T.faults texts.old) (T.faults texts.new) (T.taken texts.new) (T.begins texts.old)
        (T.begins texts.new)
        in IfOk result (λ job. Does seen plan.now job.kept job.high job.text) }
    ensures refused { let seen = seen (T.held texts.old) (T.faults texts.old) (T.faults texts.new) (T.taken texts.new) (T.begins texts.old)
        (T.begins texts.new)
        in IfErr result (λ refusal. refusal ≢ Refusal.Memory → RefusesPlan seen plan.now refusal) }
{
    match plan {
        Plan::Source { file, task } => on_source(alloc, rt, gate, texts, file, *task),
        Plan::Replay {
            source,
            history,
            infrastructure,
            view,
        } => replay(alloc, texts, source, history, *infrastructure, *view),
        Plan::Resume {
            source,
            saved,
            budget,
            history,
            high,
            serial,
            links,
            infrastructure,
        } => {
            let course = Course {
                infrastructure: *infrastructure,
                budget: *budget,
                serial: *serial,
                links: *links,
            };
            let report = Report {
                history: *history,
                high: *high,
            };
            resume(alloc, rt, gate, texts, source, saved, course, report)
        }
        Plan::Upgrade { history } => upgrade(alloc, texts, history),
        Plan::Generate { agents } => generate(alloc, *agents),
        Plan::Load {
            agents,
            serial,
            links,
            infrastructure,
        } => load_of(alloc, rt, gate, *agents, *serial, *links, *infrastructure),
    }
}

/// Does with the source of this name what is asked for.
fn on_source<R: Threads + Wait + Sync, G: Gate, T: Texts>(
    alloc: Global,
    rt: &R,
    gate: &G,
    texts: &mut T,
    file: &Word,
    task: Task,
) -> Result<Job, Refusal>
    requires { HasBudget task }
    ensures begins { T.begins texts.new ≤ T.begins texts.old + 1 }
    ensures made { let seen = seen (T.held texts.old) (T.faults texts.old) (T.faults texts.new) (T.taken texts.new) (T.begins texts.old)
        (T.begins texts.new)
        in IfOk result (λ job. OfSource seen file.now task job.kept job.high job.text) }
    ensures refused { let seen = seen (T.held texts.old) (T.faults texts.old) (T.faults texts.new) (T.taken texts.new) (T.begins texts.old)
        (T.begins texts.new)
        in IfErr result (λ refusal. refusal ≢ Refusal.Memory → RefusesSource seen file.now (reach_of task) refusal) }
{
    let bytes = read_text(alloc, texts, file, LONGEST_SOURCE, Refusal::TooLong)?;
    job_of(alloc, rt, gate, task, bytes.as_slice())
}

/// The generated source.
fn generate(alloc: Global, agents: u32) -> Result<Job, Refusal>
    requires some { 1 ≤ agents }
    requires within { agents ≤ MOST_AGENTS }
    ensures made { IfOk result (λ job. OfNumber agents job.kept job.high job.text) }
    ensures refused { IfErr result (λ refusal. refusal ≡ Refusal.Memory) }
{
    match generated(alloc, agents) {
        Ok(text) => Ok(text_alone(text)),
        Err(Memory) => Err(Refusal::Memory),
    }
}
