//! The past of a line that a run printed. Lines are counted from 1.

ghost use Rattle.std.specs.Prelude.{◌≡◌, ◌≢◌, ◌<◌, ◌≤◌, ◌⊎◌, ◌^◌, length, IfOk, IfErr, MatchOption};
ghost use Rattle.np_calculus.specs.Config.{Config};
ghost use Rattle.np_calculus.specs.Starts.{start_low};
ghost use Rattle.history_text.specs.Spelling.{history_text};
ghost use Rattle.np_verdict.specs.Report.{past_text};
ghost use Rattle.run_views.specs.Past.{is_print};
ghost use Rattle.run_views.specs.Saying.{prints};
ghost use Rattle.np_histories.specs.Histories.{Stops};
ghost use Rattle.np_histories.specs.Pasts.{HasPrinted, IsLine, IsPrintOf, IsPastOfLine, LacksLine, PrintsLine, TellsPast};

use super::replaying::end_of;
use history_text::{Format, write_in};
use np_syntax::{Event, Kind, List, LowProgram, Memory, Text, Value};
use np_verdict::{Refusal, past_report};
use run_views::{law_said_by_prints, past};
use std::alloc::Global;

/// Whether an event prints a value.
fn is_print(event: &Event) -> bool
    ensures { result ≡ is_print event.now.kind }
{
    matches!(event.kind, Kind::Print)
}

/// The index of the event that printed a line.
fn index_of(events: &[Event], line: u32) -> Option<u32>
    requires some { 1 ≤ line }
    requires fits { length events.now < 2 ^ 32 }
    ensures { MatchOption result (prints events.now < line) (IsPrintOf events.now line) }
{
    let mut printed = 0;
    for index in 0..events.len() {
        if is_print(&events[index]) {
            printed += 1;
            if printed == line {
                return Some(index as u32);
            }
        }
    }
    None
}

/// The past of the event that printed a line.
fn past_of(
    alloc: Global,
    low: &LowProgram,
    events: &[Event],
    line: u32,
) -> Result<List<Event>, Memory>
    requires sites { length low.now.sites < 2 ^ 32 }
    requires fits { length events.now < 2 ^ 32 }
    requires line { PrintsLine low.now events.now line }
    ensures { IfOk result (IsPastOfLine low.now events.now line) }
{
    match index_of(events, line) {
        Some(index) => past(alloc, low, events, index),
        None => unreachable!(),
    }
}

/// The report of the events that led to a value.
fn report_of(
    alloc: Global,
    format: Format,
    sites: &List<Text>,
    site: u32,
    value: &Value,
    led: &[Event],
) -> Result<Text, Memory>
    ensures { IfOk result (λ text. text ≡ past_text sites.now (site, value.now) (history_text format led.now) (length led.now)) }
{
    let history = write_in(alloc, format, led)?;
    past_report(alloc, sites, site, value, history.as_slice(), led.len())
}

/// The report of the past of a line, which has this value.
fn told(
    alloc: Global,
    format: Format,
    low: &LowProgram,
    events: &[Event],
    line: u32,
    site: u32,
    value: &Value,
) -> Result<Text, Memory>
    requires sites { length low.now.sites < 2 ^ 32 }
    requires fits { length events.now < 2 ^ 32 }
    requires line { IsLine low.now events.now line (site, value.now) }
    ensures { IfOk result (TellsPast format low.now events.now line) }
{
    law_said_by_prints();
    let led = past_of(alloc, low, events, line)?;
    report_of(alloc, format, &low.sites, site, value, led.as_slice())
}

/// The report of the past of a line of what was said.
fn told_of(
    alloc: Global,
    format: Format,
    low: &LowProgram,
    events: &[Event],
    said: &[(u32, Value)],
    line: u32,
) -> Result<Text, Refusal>
    requires sites { length low.now.sites < 2 ^ 32 }
    requires fits { length events.now < 2 ^ 32 }
    requires some { 1 ≤ line }
    requires said { HasPrinted low.now events.now said.now }
    ensures made { IfOk result (TellsPast format low.now events.now line) }
    ensures refused { IfErr result (λ refusal. refusal ≢ Refusal.Memory → LacksLine low.now events.now line refusal) }
{
    let Some((site, value)) = said.get(line as usize - 1) else {
        return Err(Refusal::NoLine(said.len() as u32));
    };
    match told(alloc, format, low, events, line, *site, value) {
        Ok(text) => Ok(text),
        Err(Memory) => Err(Refusal::Memory),
    }
}

/// The report of the past of a line that the events of a low program printed, with its events in a format.
pub(crate) fn past_told(
    alloc: Global,
    format: Format,
    low: &LowProgram,
    events: &[Event],
    line: u32,
) -> Result<Text, Refusal>
    requires sites { length low.now.sites < 2 ^ 32 }
    requires fits { length events.now < 2 ^ 32 }
    requires some { 1 ≤ line }
    ensures made { IfOk result (TellsPast format low.now events.now line) }
    ensures refused { IfErr result (λ refusal. refusal ≢ Refusal.Memory
        → Stops (start_low low.now) events.now refusal ⊎ LacksLine low.now events.now line refusal) }
{
    match end_of(alloc, low, events) {
        Ok(last) => {
            let report = told_of(alloc, format, low, events, last.said(), line);
            drop(last);
            report
        }
        Err(refusal) => Err(refusal),
    }
}
