//! The run of a generated source.

ghost use Rattle.std.specs.Prelude.{◌≢◌, ◌≤◌, length, IfOk, IfErr};
ghost use Rattle.np_syntax.specs.declared.limits.TheConstants.{LONGEST_SOURCE};
ghost use Rattle.np_generate.specs.Generated.{generated};
ghost use Rattle.np_sources.specs.declared.limits.TheConstants.{LOAD_BUDGET};
ghost use Rattle.np_sources.specs.Reaches.{Reach, FaultyTo};
ghost use Rattle.np_sources.specs.Makes.{DoesLoad};

use super::job::Job;
use super::limits::LOAD_BUDGET;
use super::sites::{Course, Shown, job_on_sites};
use np_generate::{MOST_AGENTS, generated};
use np_on_sites::Gate;
use np_syntax::Memory;
use np_verdict::Refusal;
use np_words::{Infrastructure, Links};
use std::alloc::Global;
use std::sync::Wait;
use std::thread::Threads;

/// Runs the generated source of so many agents on its sites. It is no longer than a source may be.
pub fn load_of<R: Threads + Wait + Sync, G: Gate>(
    alloc: Global,
    rt: &R,
    gate: &G,
    agents: u32,
    serial: bool,
    links: Links,
    infrastructure: Infrastructure,
) -> Result<Job, Refusal>
    requires some { 1 ≤ agents }
    requires within { agents ≤ MOST_AGENTS }
    ensures short { length (generated agents) ≤ LONGEST_SOURCE }
    ensures made { IfOk result (λ job. DoesLoad infrastructure agents job.kept job.high job.text) }
    ensures refused { IfErr result (λ refusal. refusal ≢ Refusal.Memory
        → FaultyTo (Reach.sites infrastructure LOAD_BUDGET) (generated agents) refusal) }
{
    let course = Course {
        infrastructure,
        budget: LOAD_BUDGET,
        serial,
        links,
    };
    let shown = Shown::Counted { agents };
    match generated(alloc, agents) {
        Ok(source) => job_on_sites(alloc, rt, gate, course, shown, source.as_slice()),
        Err(Memory) => Err(Refusal::Memory),
    }
}
