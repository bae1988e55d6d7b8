//! Histories from which the sites of a source do not go on.

ghost use Rattle.std.specs.Prelude.{◌≡◌, ◌<◌, ◌≤◌, ◌^◌, ℕ, length};
ghost use Rattle.history_reasons.specs.Counts.{events_at};

use super::field::{ACTOR, MADE1, MADE2, SITE};
use super::layout::{Layout, range_of};
use super::names::name_text;
use np_calculus::Place;
use np_configuration::Cfg;
use np_serial::{ReplayFail, replay};
use np_syntax::{Event, Kind, List, LowProgram, Made, Memory, Name, Text};
use source_places::{Mark, Range, Reasons, counted, filled, filled_by, marked, number_text};
use std::alloc::Global;

const OURS: &[u8] = b"give a history that `np run` wrote; `np replay` follows this one too";

/// How many events of a site there are.
fn count_at(events: &[Event], site: u32) -> usize
    ensures { result ≡ events_at site events.now }
{
    events.iter().filter(|event| event.site == site).count()
}

/// The index of the event of a site behind so many others of it.
fn nth_at(events: &[Event], site: u32, before: usize) -> Option<usize> {
    let mut seen: usize = 0;
    for index in 0..events.len() {
        if events[index].site == site {
            if seen == before {
                return Some(index);
            }
            seen = seen.saturating_add(1);
        }
    }
    None
}

/// How many events the site with the most of them has.
fn most_at(events: &[Event], sites: u32) -> usize
    ensures { (site : ℕ) → site < sites → events_at site events.now ≤ result }
{
    let mut most: usize = 0;
    for site in 0..sites {
        most = most.max(count_at(events, site));
    }
    most
}

/// What is told of a site that has more events than the budget.
pub fn past_budget(
    alloc: Global,
    bytes: &[u8],
    layout: Layout,
    names: &[Text],
    events: &[Event],
    site: u32,
    budget: u32,
) -> Result<Option<Reasons>, Memory> {
    let Some(index) = nth_at(events, site, budget as usize) else {
        return Ok(None);
    };
    let name: &[u8] = match names.get(site as usize) {
        Some(name) => name.as_slice(),
        None => b"",
    };
    let number = counted(alloc, u64::from(budget).saturating_add(1))?;
    let label = filled_by(alloc, b"event % of #", number.as_slice(), name)?;
    let most = counted(alloc, u64::from(budget))?;
    let words = b"at most % events of each site, as `--budget` says";
    let wanted = filled(alloc, words, most.as_slice())?;
    let sites = u32::try_from(names.len()).unwrap_or(u32::MAX);
    let need = number_text(alloc, most_at(events, sites) as u64)?;
    let next = b"give `--budget %` or more: the saved events count too";
    let range = range_of(bytes, layout, index, SITE);
    Ok(Some(Reasons {
        refused: Some(marked(range, range.from, label)),
        beside: None,
        wanted,
        why: List::new(alloc),
        next: filled(alloc, next, need.as_slice())?,
    }))
}

/// How many names the events of a site make.
fn names_made(events: &[Event], site: u32) -> u32 {
    let mut count: u32 = 0;
    for event in events {
        if event.site == site {
            let made = match event.made {
                Made::Nothing => 0,
                Made::One(_) => 1,
                Made::Two(_, _) => 2,
            };
            count = count.saturating_add(made);
        }
    }
    count
}

/// The field of an event whose name is not the next one of its site, and that name.
fn unexpected(event: &Event, made: u32) -> Option<(usize, Name)> {
    let first = Name {
        site: event.site,
        n: made,
    };
    let second = Name {
        site: event.site,
        n: made.saturating_add(1),
    };
    match event.made {
        Made::One(name) | Made::Two(name, _) if name != first => Some((MADE1, first)),
        Made::Two(_, name) if name != second => Some((MADE2, second)),
        _ => None,
    }
}

/// What is told of a name that its site would not make.
fn name_reasons(alloc: Global, range: Range, next: Name) -> Result<Reasons, Memory> {
    let name = name_text(alloc, next)?;
    let label = List::from_slice(alloc, b"another name")?;
    let why = b"a site counts the names that it makes, from 0";
    Ok(Reasons {
        refused: Some(marked(range, range.from, label)),
        beside: None,
        wanted: filled(alloc, b"`%`", name.as_slice())?,
        why: List::from_slice(alloc, why)?,
        next: List::from_slice(alloc, OURS)?,
    })
}

/// Whether an event puts an item on the link to a site, which is on its way still.
fn is_under_way(reached: &Cfg, event: &Event, to: u32) -> bool {
    match event.kind {
        Kind::Send => match reached.packet(event.actor) {
            Some(packet) => packet.to == to,
            None => false,
        },
        Kind::Depart => match reached.atom(event.actor) {
            Some(atom) => reached.place(atom.agent) == Some(Place::Way(to)),
            None => false,
        },
        _ => false,
    }
}

/// Whether an event puts the item on its way that arrives or lands in another event.
fn puts(reached: &Cfg, event: &Event, comes: &Event) -> bool {
    match (event.kind, comes.kind) {
        (Kind::Send, Kind::Land) => event.actor == comes.actor,
        (Kind::Depart, Kind::Arrive) => match reached.atom(event.actor) {
            Some(atom) => atom.agent == comes.actor,
            None => false,
        },
        _ => false,
    }
}

/// The site from which the item of an event was sent, last.
fn sent_from(reached: &Cfg, before: &[Event], comes: &Event) -> Option<u32> {
    let mut site = None;
    for event in before {
        if puts(reached, event, comes) {
            site = Some(event.site);
        }
    }
    site
}

/// The index of the event that put the first item of the link.
fn overtaken(reached: &Cfg, before: &[Event], comes: &Event) -> Option<usize> {
    let from = sent_from(reached, before, comes)?;
    for index in 0..before.len() {
        let event = &before[index];
        if event.site == from && is_under_way(reached, event, comes.site) {
            return Some(index);
        }
    }
    None
}

/// What is told of an item that overtakes another one.
fn order_reasons(alloc: Global, range: Range, before: Option<Range>) -> Result<Reasons, Memory> {
    let label = List::from_slice(alloc, b"comes first")?;
    let wanted = List::from_slice(alloc, b"what was put on the link first")?;
    let words = b"agents and packets from one site to another do not overtake each other";
    let why = List::from_slice(alloc, words)?;
    let beside = match before {
        Some(range) => Some(Mark {
            range,
            label: List::from_slice(alloc, b"was put on the link before")?,
        }),
        None => None,
    };
    Ok(Reasons {
        refused: Some(marked(range, range.from, label)),
        beside,
        wanted,
        why,
        next: List::from_slice(alloc, OURS)?,
    })
}

/// The event that put the first item of the link on which an event comes.
fn overtaken_in(
    alloc: Global,
    low: &LowProgram,
    before: &[Event],
    comes: &Event,
) -> Result<Option<usize>, Memory>
    requires sites { length low.now.sites < 2 ^ 32 }
    requires events { length before.now < 2 ^ 32 }
{
    match replay(alloc, low, before) {
        Ok(reached) => {
            let found = overtaken(&reached, before, comes);
            drop(reached);
            Ok(found)
        }
        Err(ReplayFail::Memory) => Err(Memory),
        Err(ReplayFail::NotARun(_)) => Ok(None),
    }
}

/// What is told of the event of an index, at which a run stops being one that the sites make by themselves.
pub fn not_ours(
    alloc: Global,
    low: &LowProgram,
    bytes: &[u8],
    layout: Layout,
    events: &[Event],
    index: usize,
) -> Result<Option<Reasons>, Memory>
    requires sites { length low.now.sites < 2 ^ 32 }
    requires events { length events.now < 2 ^ 32 }
{
    let (before, rest) = events.split_at(index.min(events.len()));
    let Some(event) = rest.first() else {
        return Ok(None);
    };
    if let Some((field, next)) = unexpected(event, names_made(before, event.site)) {
        let range = range_of(bytes, layout, index, field);
        return Ok(Some(name_reasons(alloc, range, next)?));
    }
    let range = range_of(bytes, layout, index, ACTOR);
    let before = match overtaken_in(alloc, low, before, event)? {
        Some(first) => Some(range_of(bytes, layout, first, ACTOR)),
        None => None,
    };
    Ok(Some(order_reasons(alloc, range, before)?))
}
