//! What is told of a source for what np does with it.

ghost use Rattle.std.specs.Prelude.{◌<◌, ◌≤◌, ◌^◌, length, IfErr, IfOk};
ghost use Rattle.np_syntax.specs.declared.limits.TheConstants.{LONGEST_SOURCE};
ghost use Rattle.np_sources.specs.Reaches.{IsLowOf};
ghost use Rattle.look_reasons.specs.Unread.{IsUnread};

use np_io::Word;
use np_sources::low_of;
use np_syntax::{LONGEST_SOURCE, List, LowProgram, MOST_EVENTS, Memory, Text};
use np_verdict::{Refusal, checked_source, tokens_of, tree_of};
use np_words::{HighText, Infrastructure, Task};
use refusal_diagnoses::{Told, nothing, source_reasons, told_of};
use run_views::first_test;
use source_places::{Reasons, counted, filled, filled_by, number_text};
use std::alloc::Global;

/// What was told, or out of memory.
pub(super) fn told(told: Result<Told, Memory>) -> Result<Told, Refusal>
    ensures { IfErr result IsUnread }
{
    match told {
        Ok(told) => Ok(told),
        Err(Memory) => Err(Refusal::Memory),
    }
}

/// Reasons without a place.
fn placeless(
    alloc: Global,
    wanted: Result<Text, Memory>,
    next: Result<Text, Memory>,
) -> Result<Reasons, Memory> {
    Ok(Reasons {
        refused: None,
        beside: None,
        wanted: wanted?,
        why: List::new(alloc),
        next: next?,
    })
}

/// What is told of a low program with too many nodes.
fn nodes_reasons(alloc: Global, nodes: u64) -> Result<Reasons, Memory> {
    let count = counted(alloc, nodes)?;
    let wanted = b"at most 65,536 process nodes, compiled; here are %";
    let next = b"write what is repeated once: as a `*` input that is sent to";
    placeless(
        alloc,
        filled(alloc, wanted, count.as_slice()),
        List::from_slice(alloc, next),
    )
}

/// What is told of so many sites that could make too many events within a budget.
fn events_reasons(alloc: Global, sites: u64, budget: u64) -> Result<Reasons, Memory> {
    let all = counted(alloc, sites.saturating_mul(budget))?;
    let each = counted(alloc, budget)?;
    let count = number_text(alloc, sites)?;
    let front = filled_by(
        alloc,
        b"at most 6,400,000 events, and % times # are ",
        count.as_slice(),
        each.as_slice(),
    )?;
    let mut wanted = front;
    wanted.append(all.as_slice())?;
    let most = number_text(alloc, u64::from(MOST_EVENTS) / sites.max(1))?;
    let next = filled(alloc, b"give `--budget %` or less", most.as_slice());
    placeless(alloc, Ok(wanted), next)
}

/// What is told of a refusal of a source, at whatever stage it came.
fn reasons_for(alloc: Global, bytes: &[u8], refusal: Refusal) -> Result<Reasons, Memory>
    requires { length bytes.now ≤ LONGEST_SOURCE }
{
    match refusal {
        Refusal::TooManyNodes(nodes) => nodes_reasons(alloc, nodes),
        _ => source_reasons(alloc, bytes, refusal),
    }
}

/// What is told of a refusal of the source of a file.
pub(super) fn source_told(
    alloc: Global,
    file: &Word,
    bytes: &[u8],
    refusal: Refusal,
) -> Result<Told, Refusal>
    requires { length bytes.now ≤ LONGEST_SOURCE }
    ensures { IfErr result IsUnread }
{
    if let Refusal::Memory = refusal {
        return Err(Refusal::Memory);
    }
    match reasons_for(alloc, bytes, refusal) {
        Ok(reasons) => told(told_of(alloc, file.text().as_bytes(), bytes, refusal, &reasons)),
        Err(Memory) => Err(Refusal::Memory),
    }
}

/// What is told of so many sites that could make too many events within a budget.
pub(super) fn events_told(
    alloc: Global,
    file: &Word,
    sites: usize,
    budget: u32,
) -> Result<Told, Refusal>
    ensures { IfErr result IsUnread }
{
    match events_reasons(alloc, sites as u64, u64::from(budget)) {
        Ok(reasons) => told(told_of(
            alloc,
            file.text().as_bytes(),
            b"",
            Refusal::TooManyEvents,
            &reasons,
        )),
        Err(Memory) => Err(Refusal::Memory),
    }
}

/// Whether so many sites could make too many events within a budget.
pub(super) fn are_many(sites: usize, budget: u32) -> bool {
    u64::from(MOST_EVENTS) < (sites as u64).saturating_mul(u64::from(budget))
}

/// Refuses a source that has no tree.
fn unshown(alloc: Global, bytes: &[u8]) -> Result<(), Refusal>
    requires { length bytes.now ≤ LONGEST_SOURCE }
{
    let tokens = tokens_of(alloc, bytes)?;
    let tree = tree_of(alloc, &tokens)?;
    drop(tree);
    Ok(())
}

/// Refuses a source that is not well typed, or that tests a location where migration is one step.
fn unchecked(alloc: Global, bytes: &[u8], high: HighText) -> Result<(), Refusal>
    requires { length bytes.now ≤ LONGEST_SOURCE }
{
    let checked = checked_source(alloc, bytes)?;
    let test = match high {
        HighText::OneStep => first_test(&checked),
        HighText::Absent | HighText::TwoSteps => None,
    };
    drop(checked);
    match test {
        Some(at) => Err(Refusal::LocationTest(at)),
        None => Ok(()),
    }
}

/// The low program of a source, or its refusal.
pub(super) fn lowered(
    alloc: Global,
    infrastructure: Infrastructure,
    bytes: &[u8],
) -> Result<LowProgram, Refusal>
    requires { length bytes.now ≤ LONGEST_SOURCE }
    ensures few { IfOk result (λ low. length low.sites < 2 ^ 32) }
    ensures made { IfOk result (IsLowOf infrastructure bytes.now) }
{
    low_of(alloc, infrastructure, bytes)
}

/// Refuses a source whose low program cannot be made, or gives the number of its sites.
fn unlowered(alloc: Global, bytes: &[u8], infrastructure: Infrastructure) -> Result<usize, Refusal>
    requires { length bytes.now ≤ LONGEST_SOURCE }
{
    let low = lowered(alloc, infrastructure, bytes)?;
    let sites = low.sites.len();
    drop(low);
    Ok(sites)
}

/// How many sites a source has that np takes so far, or the refusal.
fn refused_to(alloc: Global, bytes: &[u8], task: Task) -> Result<usize, Refusal>
    requires { length bytes.now ≤ LONGEST_SOURCE }
{
    match task {
        Task::Run {
            high,
            infrastructure,
            ..
        } => {
            unchecked(alloc, bytes, high)?;
            unlowered(alloc, bytes, infrastructure)
        }
        Task::High { history, .. } => {
            unchecked(alloc, bytes, history)?;
            Ok(0)
        }
        Task::Check => {
            unchecked(alloc, bytes, HighText::Absent)?;
            Ok(0)
        }
        Task::Show => {
            unshown(alloc, bytes)?;
            Ok(0)
        }
        Task::Low { infrastructure } => unlowered(alloc, bytes, infrastructure),
    }
}

/// The budget of a task that runs sites.
fn budget_of(task: Task) -> u32 {
    match task {
        Task::Run { budget, .. } => budget,
        _ => 0,
    }
}

/// What is told of the source of a file before np does with it what a task says.
pub(super) fn of_task(alloc: Global, file: &Word, bytes: &[u8], task: Task) -> Result<Told, Refusal>
    requires { length bytes.now ≤ LONGEST_SOURCE }
    ensures { IfErr result IsUnread }
{
    let budget = budget_of(task);
    match refused_to(alloc, bytes, task) {
        Ok(sites) if are_many(sites, budget) => events_told(alloc, file, sites, budget),
        Ok(_) => Ok(nothing(alloc)),
        Err(refusal) => source_told(alloc, file, bytes, refusal),
    }
}
