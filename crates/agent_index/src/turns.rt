//! Who is to be served next. All of it are hints: nothing is promised of them.

use super::lanes::Lanes;
use super::wait::Wait;
use np_syntax::Name;
use np_tables::Table;
use std::alloc::Global;
use std::collections::VecDeque;

/// Marks that act alone, and channels on which an input and an output wait, in the order in which they are served. One
/// may be missing, for want of memory; one that is first and is served no more is given up.
#[derive(Drop)]
pub struct Turns {
    alone: VecDeque<Name>,
    busy: VecDeque<Name>,
}

/// Whether an input and an output wait on a channel.
fn meet(lanes: &Lanes, chan: Name) -> bool {
    match lanes.get(chan) {
        Some(waiters) => waiters.first_input().is_some() && waiters.first_output().is_some(),
        None => false,
    }
}

/// The channel of what waits on one.
fn chan_of(wait: Wait) -> Option<Name> {
    match wait {
        Wait::Gives(chan) | Wait::Takes(chan) => Some(chan),
        Wait::Acts | Wait::Stuck => None,
    }
}

impl Turns {
    pub fn new(alloc: Global) -> Turns {
        Turns {
            alone: VecDeque::new(alloc),
            busy: VecDeque::new(alloc),
        }
    }

    /// The mark that acts alone and is served next.
    pub fn alone(&self) -> Option<Name> {
        self.alone.front().copied()
    }

    /// The channel that is served next.
    pub fn busy(&self) -> Option<Name> {
        self.busy.front().copied()
    }

    /// A mark came. Its channel is served from now on if it was the first of its side there, and the other side waits.
    pub fn enter(&mut self, lanes: &Lanes, wait: Wait, mark: Name) {
        match wait {
            Wait::Acts => {
                let _ = self.alone.push_back(mark);
            }
            Wait::Gives(chan) => self.begin(lanes, chan, false),
            Wait::Takes(chan) => self.begin(lanes, chan, true),
            Wait::Stuck => {}
        }
    }

    fn begin(&mut self, lanes: &Lanes, chan: Name, input: bool) {
        let Some(waiters) = lanes.get(chan) else {
            return;
        };
        let (own, other) = if input {
            (waiters.inputs(), waiters.outputs())
        } else {
            (waiters.outputs(), waiters.inputs())
        };
        if own == 1 && other > 0 {
            let _ = self.busy.push_back(chan);
        }
    }

    /// A mark went. What was served is served last from now on, and what is served no more is given up.
    pub fn leave<V>(&mut self, kept: &Table<(Wait, V)>, lanes: &Lanes, wait: Wait, mark: Name) {
        if self.alone() == Some(mark) {
            let _ = self.alone.pop_front();
        }
        if self.busy() == chan_of(wait) {
            self.turn(lanes);
        }
        self.tidy(kept, lanes);
    }

    /// The first channel comes last.
    fn turn(&mut self, lanes: &Lanes) {
        if let Some(chan) = self.busy.pop_front() {
            if meet(lanes, chan) {
                let _ = self.busy.push_back(chan);
            }
        }
    }

    /// Gives up what is first and is served no more.
    fn tidy<V>(&mut self, kept: &Table<(Wait, V)>, lanes: &Lanes) {
        while let Some(mark) = self.alone.front().copied() {
            if let Some((Wait::Acts, _)) = kept.get(mark) {
                break;
            }
            let _ = self.alone.pop_front();
        }
        while let Some(chan) = self.busy.front().copied() {
            if meet(lanes, chan) {
                break;
            }
            let _ = self.busy.pop_front();
        }
    }
}
