//! Crews: one that was just made has not failed.

ghost use Rattle.std.specs.Prelude.{◌<◌, ◌≤◌, length};
ghost use Rattle.np_syntax.specs.declared.limits.TheConstants.{MOST_SITES};
ghost use Rattle.site_crew.specs.Runs.{RunsSafely};

use super::sources::{LETTER, checked};
use agent_move::Item;
use daemon_encode::encode;
use np_check::Checked;
use np_code::flatten;
use np_on_sites::law_low_runs_safely;
use np_syntax::{LowProgram, Memory};
use site_crew::Crew;
use site_links::Rings;
use std::alloc::Global;
use std::test::Fail;
use std::thread::Threads;

/// How many events each site may make.
const BUDGET: u32 = 100;

/// Whether the crew of a low program has failed before its first round.
fn has_failed<R: Threads + Sync>(_rt: &R, alloc: Global, low: &LowProgram) -> Result<bool, Memory>
    requires sites { length low.now.sites ≤ MOST_SITES }
    requires site { low.now.at < length low.now.sites }
    requires safe { RunsSafely low.now }
{
    let Ok(code) = flatten(alloc, low) else {
        return Err(Memory);
    };
    let crew = Crew::<R, Rings<Item>>::new(alloc, low, code, BUDGET)?;
    let failed = crew.failed();
    drop(crew);
    Ok(failed)
}

/// Whether that of the low program of a program has.
fn crew_has_failed<R: Threads + Sync>(
    rt: &R,
    alloc: Global,
    program: &Checked,
) -> Result<bool, Memory> {
    law_low_runs_safely();
    let _ = program.program();
    let low = encode(alloc, program)?;
    let failed = has_failed(rt, alloc, &low);
    drop(low);
    failed
}

#[test]
fn a_crew_begins_sound(rt: HostRuntime) -> Result<(), Fail> {
    let program = checked(rt.alloc(), LETTER)?;
    let failed = crew_has_failed(&rt, rt.alloc(), &program);
    drop(program);
    assert_eq!(rt; failed, Ok(false));
    Ok(())
}
