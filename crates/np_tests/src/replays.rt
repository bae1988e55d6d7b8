//! Runs on sites at hand, which the laws replay: the sites print what the source prints, and come to the same rest.

ghost use Rattle.std.specs.Prelude.{◌≡◌, ◌<◌, ◌≤◌, ◌^◌, length, IfOk};
ghost use Rattle.np_syntax.specs.declared.limits.TheConstants.{MOST_SITES};
ghost use Rattle.np_calculus.specs.Reductions.{run};
ghost use Rattle.np_calculus.specs.Starts.{start_low};
ghost use Rattle.np_calculus.specs.Well.{Has};
ghost use Rattle.daemon_encode.specs.Encoded.{encoded};
ghost use Rattle.cache_encode.specs.Encoded.{encoded_cached};
ghost use Rattle.run_merge.specs.Merged.{items, merged, past};
ghost use Rattle.simulate_laws.specs.Lifted.{EndsAtRest};
ghost use Rattle.np_on_sites.specs.SitesRuns.{IsSitesRun};
ghost use Rattle.site_crew.specs.Runs.{RunsSafely};

use super::sources::{LETTER, SHOP, TOUR, checked};
use cache_encode::encode_cached;
use daemon_encode::encode;
use np_check::Checked;
use np_code::flatten;
use np_on_sites::{Free, Record, law_low_runs_safely, run_on_sites};
use np_syntax::{End, Event, LowProgram, Memory, Value};
use np_words::Links;
use run_merge::merge;
use simulate_laws::{law_cached, law_lift, law_merge, law_rest};
use stamp_history::History;
use std::alloc::Global;
use std::sync::Wait;
use std::test::Fail;
use std::thread::Threads;

/// Two migrations of one agent.
const MOVES: &str =
    "sites home far ; main at home = (migrate to far -> print 1 | migrate to home -> print 2)";

/// A message of an agent to itself.
const ITSELF: &str = "sites home ; main at home = new c : ^Int in (<main@?>c!9 | c?x -> print x)";

/// How many events each site may make.
const BUDGET: u32 = 1_000;

/// The run of a low program on its sites, which take turns one after another.
pub(crate) fn kept_of<R: Threads + Wait + Sync>(
    rt: &R,
    alloc: Global,
    low: &LowProgram,
) -> Result<Record, Memory>
    requires sites { length low.now.sites ≤ MOST_SITES }
    requires site { low.now.at < length low.now.sites }
    requires safe { RunsSafely low.now }
    ensures { IfOk result (λ kept. IsSitesRun low.now BUDGET (past kept.histories) kept.end) }
{
    match flatten(alloc, low) {
        Ok(code) => run_on_sites(alloc, rt, &Free, low, code, BUDGET, true, Links::Rings),
        Err(_) => Err(Memory),
    }
}

/// Whether values were printed at the same sites.
fn same_values(ours: &[(u32, Value)], theirs: &[(u32, Value)]) -> bool {
    if ours.len() != theirs.len() {
        return false;
    }
    for at in 0..ours.len() {
        if ours[at].0 != theirs[at].0 || !ours[at].1.same(&theirs[at].1) {
            return false;
        }
    }
    true
}

/// Whether the merged histories print what the lifted events print.
fn print_alike(
    alloc: Global,
    program: &Checked,
    low: &LowProgram,
    histories: &[History],
    events: &[Event],
) -> Result<bool, Memory>
    requires sites { length low.now.sites < 2 ^ 32 }
    requires merged { Has (run (start_low low.now) (items (merged (past histories.now)))) }
    requires run { Has (run (start_low (encoded program.now)) events.now) }
{
    let merged = law_merge(alloc, low, histories)?;
    let lifted = law_lift(alloc, program, events)?;
    let alike = same_values(merged.said(), lifted.said());
    drop(merged);
    drop(lifted);
    Ok(alike)
}

/// Whether the run is at rest, and the lifted events lead to rest.
fn rests(alloc: Global, program: &Checked, events: &[Event], end: End) -> Result<bool, Memory>
    requires { end ≡ End.Rest → EndsAtRest program.now events.now }
{
    match end {
        End::Rest => {
            let last = law_rest(alloc, program, events)?;
            let idle = last.idle();
            drop(last);
            Ok(idle)
        }
        End::Spent => Ok(false),
    }
}

/// Whether the laws replay what is kept of a run.
fn replays(
    alloc: Global,
    program: &Checked,
    low: &LowProgram,
    kept: &Record,
) -> Result<bool, Memory>
    requires sites { length low.now.sites ≤ MOST_SITES }
    requires low { low.now ≡ encoded program.now }
    requires run { IsSitesRun low.now BUDGET (past kept.now.histories) kept.now.end }
{
    let histories = kept.histories.as_slice();
    let merged = merge(alloc, histories)?;
    let events = merged.as_slice();
    Ok(
        print_alike(alloc, program, low, histories, events)?
            && rests(alloc, program, events, kept.end)?,
    )
}

/// The same of the run of a low program.
fn low_replays<R: Threads + Wait + Sync>(
    rt: &R,
    alloc: Global,
    program: &Checked,
    low: &LowProgram,
) -> Result<bool, Memory>
    requires sites { length low.now.sites ≤ MOST_SITES }
    requires site { low.now.at < length low.now.sites }
    requires safe { RunsSafely low.now }
    requires low { low.now ≡ encoded program.now }
{
    let kept = kept_of(rt, alloc, low)?;
    let replays = replays(alloc, program, low, &kept);
    drop(kept);
    replays
}

/// The same of the run of a program.
fn program_replays<R: Threads + Wait + Sync>(
    rt: &R,
    alloc: Global,
    program: &Checked,
) -> Result<bool, Memory> {
    law_low_runs_safely();
    let _ = program.program();
    let low = encode(alloc, program)?;
    let replays = low_replays(rt, alloc, program, &low);
    drop(low);
    replays
}

/// The same of the run of a source.
fn source_replays<R: Threads + Wait + Sync>(
    rt: &R,
    alloc: Global,
    source: &str,
) -> Result<bool, Memory> {
    let program = checked(alloc, source)?;
    let replays = program_replays(rt, alloc, &program);
    drop(program);
    replays
}

#[test]
fn the_laws_replay_runs_at_hand(rt: HostRuntime) -> Result<(), Fail> {
    for source in [LETTER, MOVES, ITSELF, TOUR, SHOP] {
        let replays = source_replays(&rt, rt.alloc(), source)?;
        assert!(rt; replays);
    }
    Ok(())
}

/// Whether the lifted events of a run with caches lead to rest.
fn rests_cached(alloc: Global, program: &Checked, events: &[Event]) -> Result<bool, Memory>
    requires { Has (run (start_low (encoded_cached program.now)) events.now) }
{
    let last = law_cached(alloc, program, events)?;
    let idle = last.idle();
    drop(last);
    Ok(idle)
}

/// Whether the law of caches replays what is kept of a run, and to rest.
fn cached_replays(alloc: Global, program: &Checked, kept: &Record) -> Result<bool, Memory>
    requires { IsSitesRun (encoded_cached program.now) BUDGET (past kept.now.histories) kept.now.end }
{
    let histories = kept.histories.as_slice();
    let merged = merge(alloc, histories)?;
    rests_cached(alloc, program, merged.as_slice())
}

/// The same of the run of a low program.
fn low_cached_replays<R: Threads + Wait + Sync>(
    rt: &R,
    alloc: Global,
    program: &Checked,
    low: &LowProgram,
) -> Result<bool, Memory>
    requires sites { length low.now.sites ≤ MOST_SITES }
    requires site { low.now.at < length low.now.sites }
    requires safe { RunsSafely low.now }
    requires low { low.now ≡ encoded_cached program.now }
{
    let kept = kept_of(rt, alloc, low)?;
    let replays = cached_replays(alloc, program, &kept);
    drop(kept);
    replays
}

/// The same of the run of a program.
fn program_cached_replays<R: Threads + Wait + Sync>(
    rt: &R,
    alloc: Global,
    program: &Checked,
) -> Result<bool, Memory> {
    law_low_runs_safely();
    let _ = program.program();
    let low = encode_cached(alloc, program)?;
    let replays = low_cached_replays(rt, alloc, program, &low);
    drop(low);
    replays
}

#[test]
fn the_law_of_caches_replays_a_run_at_hand(rt: HostRuntime) -> Result<(), Fail> {
    let program = checked(rt.alloc(), SHOP)?;
    let replays = program_cached_replays(&rt, rt.alloc(), &program);
    drop(program);
    assert_eq!(rt; replays, Ok(true));
    Ok(())
}
