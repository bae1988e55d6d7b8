//! The rows of the table of a level.

ghost use Rattle.std.specs.Prelude.{◌≡◌, ◌+◌, ◌-◌, ◌≤◌, length, map, take, drop, IfOk};
ghost use Rattle.history_text.specs.Spelling.{event_line};
ghost use Rattle.history_text.specs.declared.format.Format.TheVariants.{First};
ghost use Rattle.look_pages.specs.ShownPages.{line_of};

use super::codes::{Code, Codes};
use history_text::{Format, write_in};
use np_syntax::{Event, List, Memory, Role, Text};
use page_html::Row;
use picture_svg::{Hue, Saying};
use run_pictures::Step;
use run_views::Causes;
use std::alloc::Global;

/// How many bytes stand before the line of an event in a history that has no other, and behind it.
const BEFORE: usize = 10;

const BEHIND: usize = 5;

/// What is known of the events of a level, each by its number, beside the events themselves.
#[derive(Clone, Copy)]
pub(super) struct Facts<'a> {
    pub sites: &'a [Text],
    pub codes: &'a Codes,
    pub sayings: &'a [Saying],
    pub causes: &'a [Causes],
    pub twins: &'a [u32],
}

/// What stands in a history of one event between its first line and its last.
fn inner(history: &[u8]) -> &[u8]
    requires { BEFORE + BEHIND ≤ length history.now }
    ensures { result.now ≡ drop BEFORE (take (length history.now - BEHIND) history.now) }
{
    let (front, _) = history.split_at(history.len() - BEHIND);
    let (_, line) = front.split_at(BEFORE);
    line
}

/// The line of an event in a history.
fn line_of(alloc: Global, event: &Event) -> Result<Text, Memory>
    ensures { IfOk result (λ text. text ≡ event_line First event.now) }
{
    let one = [*event];
    let history = write_in(alloc, Format::First, one.as_slice())?;
    let bytes = history.as_slice();
    let line = inner(bytes);
    List::from_slice(alloc, line)
}

/// Adds the number of an event of this place, counted from 1, unless it is there.
fn add_need(needs: &mut List<u32>, place: Option<u32>) -> Result<(), Memory> {
    let Some(place) = place else {
        return Ok(());
    };
    let number = place.saturating_add(1);
    if needs.as_slice().contains(&number) {
        return Ok(());
    }
    needs.add(number)
}

/// The numbers of the events that caused one.
fn needs_of(alloc: Global, causes: Option<&Causes>) -> Result<List<u32>, Memory> {
    let mut needs = List::new(alloc);
    if let Some(causes) = causes {
        add_need(&mut needs, causes.actor)?;
        add_need(&mut needs, causes.other)?;
        add_need(&mut needs, causes.agent)?;
        add_need(&mut needs, causes.asked)?;
    }
    Ok(needs)
}

fn is_own(event: &Event) -> bool {
    match event.tag.role {
        Role::Plain | Role::Post => true,
        Role::Infra => false,
    }
}

/// What is told of an event, or nothing.
fn told_of(alloc: Global, saying: Option<&Saying>) -> Result<Saying, Memory> {
    match saying {
        Some(saying) => {
            let name = saying.name.copy(alloc)?;
            let words = saying.words.copy(alloc)?;
            let hue = saying.hue;
            Ok(Saying { hue, name, words })
        }
        None => Ok(Saying {
            hue: Hue::Plain,
            name: List::new(alloc),
            words: List::new(alloc),
        }),
    }
}

/// The words of the process of a node, or nothing.
fn code_of(alloc: Global, codes: &Codes, node: u32) -> Result<Code, Memory> {
    match codes.at(node) {
        Some(code) => {
            let text = code.text.copy(alloc)?;
            let line = code.line;
            Ok(Code { node, line, text })
        }
        None => Ok(Code {
            node: 0,
            line: 0,
            text: List::new(alloc),
        }),
    }
}

fn site_name(alloc: Global, sites: &[Text], site: u32) -> Result<Text, Memory> {
    match sites.get(site as usize) {
        Some(name) => name.copy(alloc),
        None => Ok(List::new(alloc)),
    }
}

fn twin_at(twins: &[u32], place: usize) -> u32 {
    match twins.get(place).copied() {
        Some(twin) => twin,
        None => 0,
    }
}

/// The row of the event at a place.
fn row_of(alloc: Global, facts: &Facts<'_>, place: usize, event: &Event) -> Result<Row, Memory>
    ensures { IfOk result (λ row. row.event ≡ event_line First event.now) }
{
    let line = line_of(alloc, event)?;
    let site = site_name(alloc, facts.sites, event.site)?;
    let needs = needs_of(alloc, facts.causes.get(place))?;
    let Saying { hue, name, words } = told_of(alloc, facts.sayings.get(place))?;
    let Code {
        node,
        line: at,
        text,
    } = code_of(alloc, facts.codes, event.tag.node)?;
    Ok(Row {
        event: line,
        own: is_own(event),
        hue,
        agent: name,
        words,
        site,
        node,
        line: at,
        code: text,
        needs,
        twin: twin_at(facts.twins, place),
    })
}

/// A row for each step, in their order.
fn rows_for(alloc: Global, facts: &Facts<'_>, steps: &[Step]) -> Result<List<Row>, Memory>
    ensures { IfOk result (λ rows. map (λ row. row.event) rows ≡ map line_of steps.now) }
{
    let mut rows = List::new(alloc);
    let mut place = 0usize;
    for step in steps {
        rows.add(row_of(alloc, facts, place, &step.event)?)?;
        place = place.saturating_add(1);
    }
    Ok(rows)
}

/// A row for each of the first steps, at most so many, in their order.
pub(super) fn rows_of(
    alloc: Global,
    facts: &Facts<'_>,
    steps: &[Step],
    most: usize,
) -> Result<List<Row>, Memory>
    ensures { IfOk result (λ rows. map (λ row. row.event) rows ≡ map line_of (take most steps.now)) }
{
    let (front, _) = steps.split_at(most.min(steps.len()));
    rows_for(alloc, facts, front)
}
