//! What is told of a run of a low program: what led to its first line, the run in which migration is one step, and whether sites make it by
//! themselves.

ghost use Rattle.std.specs.Prelude.{◌≡◌, ◌<◌, ◌^◌, length, IsSome};
ghost use Rattle.np_calculus.specs.Reductions.{run};
ghost use Rattle.np_calculus.specs.Runs.{RunsWell};
ghost use Rattle.np_calculus.specs.Starts.{start_low};
ghost use Rattle.np_calculus.specs.Well.{Has};
ghost use Rattle.daemon_encode.specs.Encoded.{encoded};
ghost use Rattle.np_lift.specs.Lift as spec;

use super::sources::checked;
use daemon_encode::{encode, law_low_runs_well};
use np_check::Checked;
use np_serial::{SerialRun, run_serial_low};
use np_syntax::{Event, Kind, LARGEST_BUDGET, LowProgram, Memory};
use run_merge::lift;
use run_save::ours_until;
use run_views::{first_test, one_step, past};
use simulate_laws::law_lift;
use std::alloc::Global;
use std::test::Fail;

/// The least source that prints.
const SEVEN: &str = "sites home ; main at home = print 7";

/// An agent moves once, and prints there.
const MOVE: &str = "sites home far ; main at home = migrate to far -> print 1";

/// How many events led to the first line.
fn led_to_first(alloc: Global, low: &LowProgram, events: &[Event]) -> Result<usize, Memory>
    requires sites { length low.now.sites < 2 ^ 32 }
    requires run { IsSome (run (start_low low.now) events.now) }
    requires few { length events.now < 2 ^ 32 }
{
    for index in 0..events.len() {
        if let Kind::Print = events[index].kind {
            let led = past(alloc, low, events, index as u32)?;
            return Ok(led.len());
        }
    }
    Ok(0)
}

/// How many events the run that is read off has where migration is one step.
fn steps_of(
    alloc: Global,
    program: &Checked,
    events: &[Event],
    high: &[Event],
) -> Result<usize, Memory>
    requires run { Has (run (start_low (encoded program.now)) events.now) }
    requires high { high.now ≡ spec.lift events.now }
{
    let last = law_lift(alloc, program, events)?;
    drop(last);
    match first_test(program) {
        Some(_) => Ok(0),
        None => {
            let steps = one_step(alloc, program, high)?;
            Ok(steps.len())
        }
    }
}

/// How many events led to the first line of a run, how many the run has where migration is one step, and whether sites make it so.
fn told_of(
    alloc: Global,
    program: &Checked,
    low: &LowProgram,
    events: &[Event],
) -> Result<(usize, usize, bool), Memory>
    requires sites { length low.now.sites < 2 ^ 32 }
    requires low { low.now ≡ encoded program.now }
    requires run { Has (run (start_low low.now) events.now) }
    requires few { length events.now < 2 ^ 32 }
{
    let led = led_to_first(alloc, low, events)?;
    let ours = ours_until(alloc, low, events)?.is_none();
    let high = lift(alloc, events)?;
    let steps = steps_of(alloc, program, events, high.as_slice())?;
    Ok((led, steps, ours))
}

/// The same of the run of a low program in one thread.
fn told_of_low(
    alloc: Global,
    program: &Checked,
    low: &LowProgram,
) -> Result<(usize, usize, bool), Memory>
    requires sites { length low.now.sites < 2 ^ 32 }
    requires low { low.now ≡ encoded program.now }
    requires runs { RunsWell (start_low low.now) low.now.at }
{
    let SerialRun {
        events,
        last,
        end: _,
    } = run_serial_low(alloc, low, LARGEST_BUDGET)?;
    drop(last);
    told_of(alloc, program, low, events.as_slice())
}

/// The same of that of a program.
fn told_of_program(alloc: Global, program: &Checked) -> Result<(usize, usize, bool), Memory> {
    law_low_runs_well();
    let _ = program.program();
    let low = encode(alloc, program)?;
    let told = told_of_low(alloc, program, &low);
    drop(low);
    told
}

/// The same of that of a source.
fn told_of_source(alloc: Global, source: &str) -> Result<(usize, usize, bool), Memory> {
    let program = checked(alloc, source)?;
    let told = told_of_program(alloc, &program);
    drop(program);
    told
}

#[test]
fn tells_of_runs(rt: HostRuntime) {
    let (led, steps, _) = told_of_source(rt.alloc(), SEVEN).unwrap_or((0, 0, true));
    assert_eq!(rt; (led, steps), (3, 1));
    let (_, steps, ours) = told_of_source(rt.alloc(), MOVE).unwrap_or((0, 0, true));
    assert_eq!(rt; (steps, ours), (3, false));
}
