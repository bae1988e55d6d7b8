//! The replay of a history of a low program.

ghost use Rattle.std.specs.Prelude.{◌≡◌, ◌≢◌, ◌<◌, ◌≤◌, ◌⊎◌, ◌^◌, length, Some, IsSome, IfOk, IfErr, OnOk};
ghost use Rattle.np_calculus.specs.Reductions.{run};
ghost use Rattle.np_calculus.specs.Starts.{start_low};
ghost use Rattle.np_verdict.specs.Report.{replay_text};
ghost use Rattle.np_words.specs.Plans.{HasLine};
ghost use Rattle.np_histories.specs.Histories.{Replays, Ends, Lacks, Shows, Stops, IsFaulty, of_replay};

use super::events::events_of;
use super::limits::LONGEST_HISTORY;
use super::pasts::past_told;
use np_configuration::Cfg;
use np_serial::{ReplayFail, replay};
use np_syntax::{Event, LowProgram, Memory, Text};
use np_verdict::{Refusal, replay_report};
use np_words::{Infrastructure, View, format_for};
use std::alloc::Global;

/// The refusal of `replay` as a refusal of the program.
fn of_replay(fail: ReplayFail) -> Refusal
    ensures { result ≡ of_replay fail }
{
    match fail {
        ReplayFail::Memory => Refusal::Memory,
        ReplayFail::NotARun(index) => Refusal::NotARun(index),
    }
}

/// The configuration after all the events.
pub(crate) fn end_of(alloc: Global, low: &LowProgram, events: &[Event]) -> Result<Cfg, Refusal>
    requires sites { length low.now.sites < 2 ^ 32 }
    requires events { length events.now < 2 ^ 32 }
    ensures reached { IfOk result (λ last. run (start_low low.now) events.now ≡ Some last) }
    ensures refused { IfErr result (λ refusal. refusal ≢ Refusal.Memory → Stops (start_low low.now) events.now refusal) }
{
    match replay(alloc, low, events) {
        Ok(last) => Ok(last),
        Err(fail) => Err(of_replay(fail)),
    }
}

/// The report of a replay that ended so.
fn report_of(alloc: Global, low: &LowProgram, last: &Cfg, events: usize) -> Result<Text, Refusal>
    ensures made { IfOk result (λ text. text ≡ replay_text low.now.sites last.now.said events) }
    ensures refused { IfErr result (λ refusal. refusal ≡ Refusal.Memory) }
{
    match replay_report(alloc, &low.sites, last.said(), events) {
        Ok(text) => Ok(text),
        Err(Memory) => Err(Refusal::Memory),
    }
}

/// Replays the events of a low program, and makes the report.
fn replayed_events(alloc: Global, low: &LowProgram, events: &[Event]) -> Result<Text, Refusal>
    requires sites { length low.now.sites < 2 ^ 32 }
    requires events { length events.now < 2 ^ 32 }
    ensures made { IfOk result (Ends low.now events.now) }
    ensures refused { IfErr result (λ refusal. refusal ≢ Refusal.Memory → Stops (start_low low.now) events.now refusal) }
{
    match end_of(alloc, low, events) {
        Ok(last) => {
            let report = report_of(alloc, low, &last, events.len());
            drop(last);
            report
        }
        Err(refusal) => Err(refusal),
    }
}

/// Replays the events of a low program, and makes the report of what is to be shown.
fn shown_events(
    alloc: Global,
    infrastructure: Infrastructure,
    low: &LowProgram,
    view: View,
    events: &[Event],
) -> Result<Text, Refusal>
    requires sites { length low.now.sites < 2 ^ 32 }
    requires events { length events.now < 2 ^ 32 }
    requires line { HasLine view }
    ensures made { IfOk result (Shows infrastructure view low.now events.now) }
    ensures refused { IfErr result (λ refusal. refusal ≢ Refusal.Memory
        → Stops (start_low low.now) events.now refusal ⊎ Lacks view low.now events.now refusal) }
{
    match view {
        View::Said => replayed_events(alloc, low, events),
        View::Past { line } => past_told(alloc, format_for(infrastructure), low, events, line),
    }
}

/// Replays a history of a low program, and makes the report of what is to be shown.
pub fn replayed(
    alloc: Global,
    infrastructure: Infrastructure,
    low: &LowProgram,
    view: View,
    bytes: &[u8],
) -> Result<Text, Refusal>
    requires sites { length low.now.sites < 2 ^ 32 }
    requires short { length bytes.now ≤ LONGEST_HISTORY }
    requires line { HasLine view }
    ensures made { IfOk result (Replays infrastructure low.now view bytes.now) }
    ensures refused { IfErr result (λ refusal. refusal ≢ Refusal.Memory → IsFaulty low.now view bytes.now refusal) }
{
    let events = events_of(alloc, bytes)?;
    shown_events(alloc, infrastructure, low, view, events.as_slice())
}

/// Refuses events that are no run of a low program.
pub fn check_run(alloc: Global, low: &LowProgram, events: &[Event]) -> Result<(), Refusal>
    requires sites { length low.now.sites < 2 ^ 32 }
    requires events { length events.now < 2 ^ 32 }
    ensures run { OnOk result (IsSome (run (start_low low.now) events.now)) }
    ensures refused { IfErr result (λ refusal. refusal ≢ Refusal.Memory → Stops (start_low low.now) events.now refusal) }
{
    let last = end_of(alloc, low, events)?;
    drop(last);
    Ok(())
}
