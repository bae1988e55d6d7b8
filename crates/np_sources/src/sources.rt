//! The modes that read one source.

ghost use Rattle.std.specs.Prelude.{◌≢◌, ◌≤◌, length, IfOk, IfErr};
ghost use Rattle.np_verdict.specs.Faults.{Stage, Faulty};
ghost use Rattle.np_sources.specs.Reaches.{Reach, FaultyTo, reach_of};
ghost use Rattle.np_words.specs.Plans.{HasBudget};
ghost use Rattle.np_sources.specs.Makes.{KeepsHigh, Shows, Checks, Lowers, DoesTask};

use super::job::{Job, text_alone};
use super::lowering::low_of;
use super::runs::run_of;
use super::sites::{Course, Shown, job_on_sites};
use np_low_text::print_low;
use np_on_sites::Gate;
use np_show::show;
use np_syntax::{LONGEST_SOURCE, List, Memory};
use np_verdict::{Refusal, checked_source, tokens_of, tree_of};
use np_words::{HighText, Infrastructure, Task};
use std::alloc::Global;
use std::sync::Wait;
use std::thread::Threads;

/// Does with the bytes of a source what is asked for.
pub fn job_of<R: Threads + Wait + Sync, G: Gate>(
    alloc: Global,
    rt: &R,
    gate: &G,
    task: Task,
    bytes: &[u8],
) -> Result<Job, Refusal>
    requires short { length bytes.now ≤ LONGEST_SOURCE }
    requires budget { HasBudget task }
    ensures made { IfOk result (λ job. DoesTask task bytes.now job.kept job.high job.text) }
    ensures refused { IfErr result (λ refusal. refusal ≢ Refusal.Memory → FaultyTo (reach_of task) bytes.now refusal) }
{
    match task {
        Task::Run {
            budget,
            history,
            high,
            serial,
            links,
            infrastructure,
        } => {
            let course = Course {
                infrastructure,
                budget,
                serial,
                links,
            };
            job_on_sites(
                alloc,
                rt,
                gate,
                course,
                Shown::Printed { history, high },
                bytes,
            )
        }
        Task::High { budget, history } => high_source(alloc, budget, history, bytes),
        Task::Show => show_source(alloc, bytes),
        Task::Check => check_source(alloc, bytes),
        Task::Low { infrastructure } => low_source(alloc, infrastructure, bytes),
    }
}

/// Runs a source in the mode `high`: keeps the whole run.
fn high_source(alloc: Global, budget: u32, history: HighText, bytes: &[u8]) -> Result<Job, Refusal>
    requires { length bytes.now ≤ LONGEST_SOURCE }
    ensures made { IfOk result (λ job. KeepsHigh budget history bytes.now job.kept job.high job.text) }
    ensures refused { IfErr result (λ refusal. refusal ≢ Refusal.Memory → FaultyTo (Reach.shown history Reach.program) bytes.now refusal) }
{
    let (made, text) = run_of(alloc, budget, history, bytes)?;
    Ok(Job {
        kept: None,
        high: Some(made),
        text,
    })
}

/// The canonical text of a source.
fn show_source(alloc: Global, bytes: &[u8]) -> Result<Job, Refusal>
    requires { length bytes.now ≤ LONGEST_SOURCE }
    ensures made { IfOk result (λ job. Shows bytes.now job.kept job.high job.text) }
    ensures refused { IfErr result (λ refusal. refusal ≢ Refusal.Memory → Faulty Stage.tree bytes.now refusal) }
{
    let tokens = tokens_of(alloc, bytes)?;
    let read = tree_of(alloc, &tokens);
    drop(tokens);
    let tree = read?;
    let shown = show(alloc, &tree);
    drop(tree);
    match shown {
        Ok(text) => Ok(text_alone(text)),
        Err(Memory) => Err(Refusal::Memory),
    }
}

/// Checks a source, and makes the text `well typed`.
fn check_source(alloc: Global, bytes: &[u8]) -> Result<Job, Refusal>
    requires { length bytes.now ≤ LONGEST_SOURCE }
    ensures made { IfOk result (λ job. Checks bytes.now job.kept job.high job.text) }
    ensures refused { IfErr result (λ refusal. refusal ≢ Refusal.Memory → Faulty Stage.program bytes.now refusal) }
{
    let checked = checked_source(alloc, bytes)?;
    drop(checked);
    match List::from_slice(alloc, b"well typed\n") {
        Ok(text) => Ok(text_alone(text)),
        Err(Memory) => Err(Refusal::Memory),
    }
}

/// The low text of a source.
fn low_source(alloc: Global, infrastructure: Infrastructure, bytes: &[u8]) -> Result<Job, Refusal>
    requires { length bytes.now ≤ LONGEST_SOURCE }
    ensures made { IfOk result (λ job. Lowers infrastructure bytes.now job.kept job.high job.text) }
    ensures refused { IfErr result (λ refusal. refusal ≢ Refusal.Memory → FaultyTo (Reach.low infrastructure) bytes.now refusal) }
{
    let low = low_of(alloc, infrastructure, bytes)?;
    match print_low(alloc, &low) {
        Ok(text) => Ok(text_alone(text)),
        Err(Memory) => Err(Refusal::Memory),
    }
}
