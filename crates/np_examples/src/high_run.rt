//! The run of the source that is read off a run on sites: it is made again at the high level.

use super::counting::moves_in;
use np_check::Checked;
use np_configuration::{Cfg, start_high};
use np_lift::lift_cached;
use np_run::{Record, Refusal};
use np_serial::{ReplayFail, follow};
use np_syntax::{End, Event, Kind, LONGEST_SOURCE, Made, Memory, Role, Value};
use np_verdict::checked_source;
use run_merge::{merge, said};
use std::alloc::Global;

/// What is seen of the events of a run on sites.
#[derive(Clone, Copy)]
pub(crate) struct Reading {
    /// How many letters are opened: each is a message that was handed over.
    pub opens: usize,
    /// How many events the first site makes, if there is one.
    pub first: Option<usize>,
    /// How often an agent departs and then arrives, if no other departs before it does.
    pub moves: Option<usize>,
    /// Whether what is read off is a run of the source that prints the same; at no place more messages are handed over than
    /// sent; and at rest that run rests, and as many are handed over as sent.
    pub is_run: bool,
}

/// How many messages to agents were sent, to the daemon or by a messenger, and how many were handed over.
#[derive(Clone, Copy)]
struct Letters {
    posts: usize,
    /// As letters that were opened.
    opens: usize,
    /// By messengers that found their agents.
    finds: usize,
    /// Whether at some place more were handed over than sent.
    early: bool,
}

impl Letters {
    fn handed(&self) -> usize {
        self.opens.saturating_add(self.finds)
    }
}

fn letters_in(events: &[Event]) -> Letters {
    let mut letters = Letters {
        posts: 0,
        opens: 0,
        finds: 0,
        early: false,
    };
    for event in events {
        match (event.tag.role, event.kind, event.made) {
            (Role::Post, Kind::Send | Kind::Agent, _) => {
                letters.posts = letters.posts.saturating_add(1);
            }
            (_, Kind::Open, _) => letters.opens = letters.opens.saturating_add(1),
            (Role::Infra, Kind::Local, Made::One(_)) => {
                letters.finds = letters.finds.saturating_add(1);
            }
            _ => {}
        }
        letters.early = letters.early || letters.posts < letters.handed();
    }
    letters
}

/// Whether values were printed at the same sites.
fn same_values(ours: &[(u32, Value)], theirs: &[(u32, Value)]) -> bool {
    if ours.len() != theirs.len() {
        return false;
    }
    for at in 0..ours.len() {
        if ours[at].0 != theirs[at].0 || !ours[at].1.same(&theirs[at].1) {
            return false;
        }
    }
    true
}

/// The program of a source that was run.
fn checked_of(alloc: Global, source: &[u8]) -> Result<Option<Checked>, Memory> {
    if source.len() > LONGEST_SOURCE {
        return Ok(None);
    }
    match checked_source(alloc, source) {
        Ok(checked) => Ok(Some(checked)),
        Err(Refusal::Memory) => Err(Memory),
        Err(_) => Ok(None),
    }
}

/// The configuration to which the events lead from the high start of the program, if they are a run.
fn high_end(alloc: Global, program: &Checked, events: &[Event]) -> Result<Option<Cfg>, Memory> {
    if u32::try_from(events.len()).is_err() {
        return Ok(None);
    }
    let start = start_high(alloc, program.program())?;
    match follow(alloc, start, events) {
        Ok(last) => Ok(Some(last)),
        Err(ReplayFail::Memory) => Err(Memory),
        Err(_) => Ok(None),
    }
}

/// Whether the end of what is read off is what the sites printed, and rests if they do.
fn ends_alike(last: &Cfg, values: &[(u32, Value)], end: End) -> bool {
    same_values(last.said(), values) && (end == End::Spent || last.idle())
}

/// Whether the events are a run of the program at the high level, which ends so.
fn runs_alike(
    alloc: Global,
    program: &Checked,
    events: &[Event],
    values: &[(u32, Value)],
    end: End,
) -> Result<bool, Memory> {
    match high_end(alloc, program, events) {
        Ok(Some(last)) => {
            let alike = ends_alike(&last, values, end);
            drop(last);
            Ok(alike)
        }
        Ok(None) => Ok(false),
        Err(memory) => Err(memory),
    }
}

/// Whether the events are a run of the source at the high level, which ends so.
fn is_run_of(
    alloc: Global,
    source: &[u8],
    events: &[Event],
    values: &[(u32, Value)],
    end: End,
) -> Result<bool, Memory> {
    match checked_of(alloc, source) {
        Ok(Some(program)) => {
            let alike = runs_alike(alloc, &program, events, values, end);
            drop(program);
            alike
        }
        Ok(None) => Ok(false),
        Err(memory) => Err(memory),
    }
}

/// Whether what is read off the events is a run of the source at the high level, which ends as the sites do. Without messengers
/// the list for caches is that of the central infrastructure.
fn is_high_run(
    alloc: Global,
    source: &[u8],
    record: &Record,
    events: &[Event],
) -> Result<bool, Memory> {
    let lifted = lift_cached(alloc, events)?;
    let values = said(alloc, record.histories.as_slice())?;
    let is_run = is_run_of(
        alloc,
        source,
        lifted.as_slice(),
        values.as_slice(),
        record.end,
    );
    drop(values);
    is_run
}

/// How many events the first site makes.
fn first_site(record: &Record) -> Option<usize> {
    let history = record.histories.as_slice().first()?;
    Some(history.len() as usize)
}

/// What is seen of a run on the sites of this source.
pub(crate) fn reading_of(alloc: Global, source: &[u8], record: &Record) -> Result<Reading, Memory> {
    let events = merge(alloc, record.histories.as_slice())?;
    let letters = letters_in(events.as_slice());
    let all = record.end == End::Spent || letters.posts == letters.handed();
    let is_run = is_high_run(alloc, source, record, events.as_slice())?;
    Ok(Reading {
        opens: letters.opens,
        first: first_site(record),
        moves: moves_in(events.as_slice()),
        is_run: is_run && all && !letters.early,
    })
}
