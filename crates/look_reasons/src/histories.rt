//! What is told of a history of a source.

ghost use Rattle.std.specs.Prelude.{◌≡◌, ◌<◌, ◌≤◌, ◌^◌, length, IfErr, IsSome, OnOk};
ghost use Rattle.np_calculus.specs.Reductions.{run};
ghost use Rattle.np_calculus.specs.Starts.{start_low};
ghost use Rattle.np_syntax.specs.declared.limits.TheConstants.{LONGEST_SOURCE};
ghost use Rattle.np_histories.specs.declared.limits.TheConstants.{LONGEST_HISTORY};
ghost use Rattle.look_reasons.specs.Unread.{IsUnread};

use super::notes::{front_note, noted, run_note};
use super::sources::{are_many, told};
use history_reasons::{
    Layout, layout_of, no_line, not_a_run, not_ours, past_budget, syntax_reasons,
};
use np_histories::{LONGEST_HISTORY, check_run, events_of};
use np_io::Word;
use np_syntax::{Event, Kind, LONGEST_SOURCE, LowProgram, Memory};
use np_verdict::Refusal;
use np_words::Infrastructure;
use refusal_diagnoses::{Told, nothing, told_of};
use run_save::ours_until;
use source_places::{Reasons, without_marks};
use std::alloc::Global;

/// What np does with a history: it replays it, shows the past of a line, or goes on from it within a budget.
#[derive(Clone, Copy)]
pub enum Purpose {
    Replay,
    Past(u32),
    Resume(u32),
}

/// What is done with a history, with an infrastructure.
#[derive(Clone, Copy)]
pub struct History {
    pub infrastructure: Infrastructure,
    pub purpose: Purpose,
}

/// How many events print.
fn prints(events: &[Event]) -> u32 {
    let count = events
        .iter()
        .filter(|event| event.kind == Kind::Print)
        .count();
    u32::try_from(count).unwrap_or(u32::MAX)
}

/// The first site that has more events than a budget.
fn first_past(events: &[Event], sites: usize, budget: u32) -> Option<u32> {
    for site in 0..u32::try_from(sites).unwrap_or(0) {
        let count = events.iter().filter(|event| event.site == site).count();
        if count > budget as usize {
            return Some(site);
        }
    }
    None
}

/// Why the sites of a low program do not go on from a run of it, if they do not.
fn unresumed(alloc: Global, low: &LowProgram, events: &[Event], budget: u32) -> Result<(), Refusal>
    requires sites { length low.now.sites < 2 ^ 32 }
    requires events { length events.now < 2 ^ 32 }
    requires run { IsSome (run (start_low low.now) events.now) }
{
    let sites = low.sites.len();
    if are_many(sites, budget) {
        return Err(Refusal::TooManyEvents);
    }
    if let Some(site) = first_past(events, sites, budget) {
        return Err(Refusal::BudgetPast(site));
    }
    match ours_until(alloc, low, events) {
        Ok(None) => Ok(()),
        Ok(Some(index)) => Err(Refusal::NotOurs(index)),
        Err(Memory) => Err(Refusal::Memory),
    }
}

/// Why np does not do with events of a low program what is to be done, if it does not.
fn unfit(alloc: Global, low: &LowProgram, events: &[Event], purpose: Purpose) -> Result<(), Refusal>
    requires sites { length low.now.sites < 2 ^ 32 }
    requires events { length events.now < 2 ^ 32 }
{
    check_run(alloc, low, events)?;
    match purpose {
        Purpose::Replay => Ok(()),
        Purpose::Past(line) if prints(events) < line => Err(Refusal::NoLine(prints(events))),
        Purpose::Past(_) => Ok(()),
        Purpose::Resume(budget) => unresumed(alloc, low, events, budget),
    }
}

/// A source and its low program.
#[derive(Clone, Copy)]
pub(super) struct Compiled<'a> {
    pub source: &'a [u8],
    pub low: &'a LowProgram,
}

/// A history that is told of.
#[derive(Clone, Copy)]
struct Text<'a> {
    alloc: Global,
    low: &'a LowProgram,
    bytes: &'a [u8],
    layout: Layout,
    purpose: Purpose,
}

/// The budget of what is done with a history.
fn budget_of(purpose: Purpose) -> u32 {
    match purpose {
        Purpose::Resume(budget) => budget,
        Purpose::Replay | Purpose::Past(_) => 0,
    }
}

/// What is told of events, where there is something.
fn event_reasons(
    text: Text<'_>,
    events: &[Event],
    refusal: Refusal,
) -> Result<Option<Reasons>, Memory>
    requires sites { length text.low.now.sites < 2 ^ 32 }
    requires events { length events.now < 2 ^ 32 }
{
    let Text {
        alloc,
        low,
        bytes,
        layout,
        purpose,
    } = text;
    match refusal {
        Refusal::NotARun(index) => not_a_run(alloc, low, bytes, layout, events, index as usize),
        Refusal::NotOurs(index) => not_ours(alloc, low, bytes, layout, events, index as usize),
        Refusal::NoLine(_) => Ok(Some(no_line(alloc, bytes, layout, events)?)),
        Refusal::BudgetPast(site) => {
            let names = low.sites.as_slice();
            past_budget(
                alloc,
                bytes,
                layout,
                names,
                events,
                site,
                budget_of(purpose),
            )
        }
        _ => Ok(None),
    }
}

/// The reasons that were found, or none.
fn or_none(alloc: Global, found: Option<Reasons>) -> Result<Reasons, Memory> {
    match found {
        Some(reasons) => Ok(reasons),
        None => without_marks(alloc, b"", b""),
    }
}

/// What is told of a refusal of the text of a history, where these reasons were found.
fn text_told(
    alloc: Global,
    name: &Word,
    bytes: &[u8],
    refusal: Refusal,
    found: Result<Option<Reasons>, Memory>,
) -> Result<Told, Refusal>
    requires { length bytes.now ≤ LONGEST_HISTORY }
    ensures { IfErr result IsUnread }
{
    let Ok(found) = found else {
        return Err(Refusal::Memory);
    };
    match or_none(alloc, found) {
        Ok(reasons) => told(told_of(alloc, name.text().as_bytes(), bytes, refusal, &reasons)),
        Err(Memory) => Err(Refusal::Memory),
    }
}

/// What is told of lines that are no history's.
fn lines_reasons(alloc: Global, bytes: &[u8], refusal: Refusal) -> Result<Option<Reasons>, Memory> {
    match refusal {
        Refusal::HistSyntax(line) => {
            let layout = layout_of(bytes);
            Ok(Some(syntax_reasons(alloc, bytes, layout, line as usize)?))
        }
        _ => Ok(None),
    }
}

/// What is told of the text of a history that is only read.
pub(super) fn of_lines(alloc: Global, name: &Word, bytes: &[u8]) -> Result<Told, Refusal>
    requires { length bytes.now ≤ LONGEST_HISTORY }
    ensures { IfErr result IsUnread }
{
    match events_of(alloc, bytes) {
        Ok(_) => Ok(nothing(alloc)),
        Err(Refusal::Memory) => Err(Refusal::Memory),
        Err(refusal) => {
            let found = lines_reasons(alloc, bytes, refusal);
            text_told(alloc, name, bytes, refusal, found)
        }
    }
}

/// What is noted of events that are refused so.
fn refusal_note(
    alloc: Global,
    compiled: Compiled<'_>,
    infrastructure: Infrastructure,
    events: &[Event],
    refusal: Refusal,
) -> Result<Option<np_syntax::Text>, Memory>
    requires source { length compiled.source.now ≤ LONGEST_SOURCE }
    requires events { length events.now < 2 ^ 32 }
{
    match refusal {
        Refusal::NotARun(_) => run_note(alloc, infrastructure, compiled.source, events),
        _ => Ok(None),
    }
}

/// What is told of a history of a source.
pub(super) fn of_history(
    alloc: Global,
    compiled: Compiled<'_>,
    name: &Word,
    bytes: &[u8],
    history: History,
) -> Result<Told, Refusal>
    requires source { length compiled.source.now ≤ LONGEST_SOURCE }
    requires sites { length compiled.low.now.sites < 2 ^ 32 }
    requires short { length bytes.now ≤ LONGEST_HISTORY }
    ensures { IfErr result IsUnread }
{
    let History {
        infrastructure,
        purpose,
    } = history;
    let low = compiled.low;
    let events = match events_of(alloc, bytes) {
        Ok(events) => events,
        Err(_) => return of_lines(alloc, name, bytes),
    };
    match unfit(alloc, low, events.as_slice(), purpose) {
        Ok(()) => {
            let note = front_note(alloc, infrastructure, low, bytes);
            noted(alloc, Ok(nothing(alloc)), note)
        }
        Err(Refusal::Memory) => Err(Refusal::Memory),
        Err(refusal) => {
            let text = Text {
                alloc,
                low,
                bytes,
                layout: layout_of(bytes),
                purpose,
            };
            let found = event_reasons(text, events.as_slice(), refusal);
            let note = refusal_note(alloc, compiled, infrastructure, events.as_slice(), refusal);
            noted(alloc, text_told(alloc, name, bytes, refusal, found), note)
        }
    }
}
