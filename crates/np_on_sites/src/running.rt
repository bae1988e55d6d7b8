//! The run of a low program on its sites, from its start or from events that are done again.

ghost use Rattle.std.specs.Prelude.{◌≡◌, ◌<◌, ◌≤◌, ◌^◌, length, IfErr, IfNone, IfOk, IfSome, IsSome, OnOk};
ghost use Rattle.np_syntax.specs.declared.limits.TheConstants.{LARGEST_BUDGET, MOST_SITES};
ghost use Rattle.np_code.specs.Programs.{program};
ghost use Rattle.np_calculus.specs.Reductions.{run};
ghost use Rattle.np_calculus.specs.Starts.{start_low};
ghost use Rattle.run_merge.specs.Merged.{past};
ghost use Rattle.run_save.specs.following.Following.{IsResumed};
ghost use Rattle.run_save.specs.Ours.{IsOurs};
ghost use Rattle.site_crew.specs.Lists.{AreWithin, IsRefused, IsToFollow};
ghost use Rattle.site_crew.specs.Runs.{RunsSafely};
ghost use Rattle.crew_resumes.specs.ToGoOn.{IsToGoOn};
ghost use Rattle.np_on_sites.specs.Beginnings.{HasBegun, IsStopped};
ghost use Rattle.np_on_sites.specs.SitesRuns.{IsSitesRun};

use super::beginning::{Beginning, begin};
use super::record::Record;
use agent_move::Item;
use crew_inboxes::Inboxes;
use np_code::Code;
use np_syntax::{End, Event, LowProgram, Memory};
use np_words::Links;
use site_crew::{Crew, FollowFail, refusal};
use site_links::{Port, Rings, Tray};
use site_turn::Gate;
use std::alloc::Global;
use std::sync::Wait;
use std::thread::Threads;

/// Runs a low program on its sites until none can act, or none that has made fewer events than the budget. Each site has a
/// thread of its own; with `serial` they take turns one after another.
pub fn run_on_sites<R: Threads + Wait + Sync, G: Gate>(
    alloc: Global,
    rt: &R,
    gate: &G,
    low: &LowProgram,
    code: Code,
    budget: u32,
    serial: bool,
    links: Links,
) -> Result<Record, Memory>
    requires code { program code ≡ low.now }
    requires sites { length low.now.sites ≤ MOST_SITES }
    requires site { low.now.at < length low.now.sites }
    requires safe { RunsSafely low.now }
    requires some { 1 ≤ budget }
    requires within { budget ≤ LARGEST_BUDGET }
    ensures { IfOk result (λ kept. IsSitesRun low.now budget (past kept.histories) kept.end) }
{
    match on_links(
        alloc,
        rt,
        gate,
        low,
        code,
        Beginning::Anew,
        &[],
        budget,
        serial,
        links,
    ) {
        Ok(Some(kept)) => Ok(kept),
        Ok(None) => unreachable!(),
        Err(memory) => Err(memory),
    }
}

/// Goes on with a list of events, whatever it is, if the sites of a low program can do them all again, in their order: so they are a run of
/// it, within the budget, which the sites make by themselves. Then they run as in `run_on_sites`, and these events count for the
/// budget too. None where the sites cannot do them all, as they can with each such run; `refusal` tells why.
pub fn redo_on_sites<R: Threads + Wait + Sync, G: Gate>(
    alloc: Global,
    rt: &R,
    gate: &G,
    low: &LowProgram,
    code: Code,
    events: &[Event],
    budget: u32,
    serial: bool,
    links: Links,
) -> Result<Option<Record>, Memory>
    requires code { program code ≡ low.now }
    requires sites { length low.now.sites ≤ MOST_SITES }
    requires site { low.now.at < length low.now.sites }
    requires safe { RunsSafely low.now }
    requires some { 1 ≤ budget }
    requires within { budget ≤ LARGEST_BUDGET }
    ensures run { IfOk result (λ made. IfSome made (λ kept. IsSitesRun low.now budget (past kept.histories) kept.end)) }
    ensures resumed { IfOk result (λ made. IfSome made (λ kept. IsResumed events.now (past kept.histories))) }
    ensures followed { IfOk result (λ made. IfSome made (λ _. IsToGoOn low.now budget events.now)) }
    ensures never { IfOk result (λ made. IfNone made (IsToFollow low.now budget events.now → ⊥)) }
{
    on_links(
        alloc,
        rt,
        gate,
        low,
        code,
        Beginning::Again,
        events,
        budget,
        serial,
        links,
    )
}

/// Goes on with a run of a low program: the sites do its events again, in their order, and then run as in `run_on_sites`. These
/// events count for the budget too.
pub fn resume_on_sites<R: Threads + Wait + Sync, G: Gate>(
    alloc: Global,
    rt: &R,
    gate: &G,
    low: &LowProgram,
    code: Code,
    events: &[Event],
    budget: u32,
    serial: bool,
    links: Links,
) -> Result<Record, FollowFail>
    requires code { program code ≡ low.now }
    requires sites { length low.now.sites ≤ MOST_SITES }
    requires site { low.now.at < length low.now.sites }
    requires safe { RunsSafely low.now }
    requires some { 1 ≤ budget }
    requires within { budget ≤ LARGEST_BUDGET }
    requires few { length events.now < 2 ^ 32 }
    requires run { IsSome (run (start_low low.now) events.now) }
    ensures run { IfOk result (λ kept. IsSitesRun low.now budget (past kept.histories) kept.end) }
    ensures resumed { IfOk result (λ kept. IsResumed events.now (past kept.histories)) }
    ensures followed { OnOk result (AreWithin (length low.now.sites) budget events.now × IsOurs low.now events.now) }
    ensures refused { IfErr result (IsRefused low.now budget events.now) }
{
    let sites = code.sites();
    match redo_on_sites(alloc, rt, gate, low, code, events, budget, serial, links) {
        Ok(Some(kept)) => Ok(kept),
        Ok(None) => Err(refusal(alloc, low, sites, budget, events)),
        Err(Memory) => Err(FollowFail::Memory),
    }
}

/// The run, over the kind of links that is asked for. None where the sites cannot do the events again.
fn on_links<R: Threads + Wait + Sync, G: Gate>(
    alloc: Global,
    rt: &R,
    gate: &G,
    low: &LowProgram,
    code: Code,
    beginning: Beginning,
    events: &[Event],
    budget: u32,
    serial: bool,
    links: Links,
) -> Result<Option<Record>, Memory>
    requires code { program code ≡ low.now }
    requires sites { length low.now.sites ≤ MOST_SITES }
    requires site { low.now.at < length low.now.sites }
    requires safe { RunsSafely low.now }
    requires some { 1 ≤ budget }
    requires within { budget ≤ LARGEST_BUDGET }
    ensures run { IfOk result (λ made. IfSome made (λ kept. IsSitesRun low.now budget (past kept.histories) kept.end)) }
    ensures begun { IfOk result (λ made. IfSome made (λ kept. HasBegun beginning low.now budget events.now (past kept.histories))) }
    ensures stopped { IfOk result (λ made. IfNone made (IsStopped beginning low.now budget events.now)) }
{
    match links {
        Links::Tray => over::<R, Tray<Item>, G>(
            alloc, rt, gate, low, code, beginning, events, budget, serial,
        ),
        Links::Rings => over::<R, Rings<Item>, G>(
            alloc, rt, gate, low, code, beginning, events, budget, serial,
        ),
        Links::Inbox => over::<R, Inboxes, G>(
            alloc, rt, gate, low, code, beginning, events, budget, serial,
        ),
    }
}

/// So over one kind of links.
fn over<R: Threads + Sync, P: Port<R, Item>, G: Gate>(
    alloc: Global,
    rt: &R,
    gate: &G,
    low: &LowProgram,
    code: Code,
    beginning: Beginning,
    events: &[Event],
    budget: u32,
    serial: bool,
) -> Result<Option<Record>, Memory>
    requires code { program code ≡ low.now }
    requires sites { length low.now.sites ≤ MOST_SITES }
    requires site { low.now.at < length low.now.sites }
    requires safe { RunsSafely low.now }
    requires some { 1 ≤ budget }
    requires within { budget ≤ LARGEST_BUDGET }
    ensures run { IfOk result (λ made. IfSome made (λ kept. IsSitesRun low.now budget (past kept.histories) kept.end)) }
    ensures begun { IfOk result (λ made. IfSome made (λ kept. HasBegun beginning low.now budget events.now (past kept.histories))) }
    ensures stopped { IfOk result (λ made. IfNone made (IsStopped beginning low.now budget events.now)) }
{
    let mut crew = Crew::<R, P>::new(alloc, low, code, budget)?;
    match begin(&mut crew, rt, gate, low, beginning, events, serial) {
        Ok(Some(end)) => match kept(crew, end) {
            Ok(record) => Ok(Some(record)),
            Err(memory) => Err(memory),
        },
        Ok(None) => Ok(None),
        Err(memory) => Err(memory),
    }
}

/// The record of a crew whose run has ended.
fn kept<R, P: Port<R, Item>>(crew: Crew<R, P>, end: End) -> Result<Record, Memory>
    ensures histories { IfOk result (λ kept. past kept.histories ≡ crew.histories) }
    ensures end { IfOk result (λ kept. kept.end ≡ end) }
{
    let histories = crew.into_histories()?;
    Ok(Record { histories, end })
}
