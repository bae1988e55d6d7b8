//! How sites, agents and names are told.

use super::layout::Layout;
use history_conditions::makes;
use np_calculus::Place;
use np_configuration::Cfg;
use np_syntax::{Event, List, Memory, Name, Text};
use source_places::{filled, filled_by, number_text};
use std::alloc::Global;

/// A history up to an event that is looked at: the names of the sites, all events, where the lines stand, the index of the event,
/// and the configuration before it.
#[derive(Clone, Copy)]
pub(super) struct Seen<'a> {
    pub alloc: Global,
    pub sites: &'a [Text],
    pub events: &'a [Event],
    pub layout: Layout,
    pub index: usize,
    pub reached: &'a Cfg,
}

/// What is told of a condition that an event fails: what is there, what was wanted, and how to go on.
#[derive(Drop)]
pub(super) struct Wrong {
    pub label: Text,
    pub wanted: Text,
    pub next: Text,
}

const BELONG: &[u8] = b"see that history, source and `--infra` belong together";

/// A name as it is written.
pub(super) fn name_text(alloc: Global, name: Name) -> Result<Text, Memory> {
    let site = number_text(alloc, u64::from(name.site))?;
    let n = number_text(alloc, u64::from(name.n))?;
    filled_by(alloc, b"%.#", site.as_slice(), n.as_slice())
}

impl<'a> Seen<'a> {
    /// A text of its own.
    pub(super) fn text(&self, words: &[u8]) -> Result<Text, Memory> {
        List::from_slice(self.alloc, words)
    }

    /// Words in which a text stands.
    pub(super) fn with(&self, words: &[u8], text: &Text) -> Result<Text, Memory> {
        filled(self.alloc, words, text.as_slice())
    }

    /// What is there and what was wanted; nothing is told of how to go on.
    pub(super) fn wrong(&self, label: Text, wanted: Text) -> Wrong {
        Wrong {
            label,
            wanted,
            next: List::new(self.alloc),
        }
    }

    /// The same, where history and source may not belong together.
    pub(super) fn alien(&self, label: Text, wanted: Text) -> Result<Wrong, Memory> {
        let next = self.text(BELONG)?;
        Ok(Wrong {
            label,
            wanted,
            next,
        })
    }

    /// The same, where a later event makes or sends what is missing, if there is one.
    pub(super) fn early(
        &self,
        label: Text,
        wanted: Text,
        later: Option<usize>,
    ) -> Result<Wrong, Memory> {
        let Some(later) = later else {
            return self.alien(label, wanted);
        };
        let line = self.line_text(later)?;
        let words = b"put this line behind %, or take the history from np again";
        let next = self.with(words, &line)?;
        Ok(Wrong {
            label,
            wanted,
            next,
        })
    }

    /// The line of an event.
    pub(super) fn line_text(&self, index: usize) -> Result<Text, Memory> {
        let number = number_text(self.alloc, self.layout.line_of(index) as u64)?;
        self.with(b"line %", &number)
    }

    /// The name of a site.
    pub(super) fn site_text(&self, site: u32) -> Result<Text, Memory> {
        match self.sites.get(site as usize) {
            Some(name) => name.copy(self.alloc),
            None => {
                let number = number_text(self.alloc, u64::from(site))?;
                self.with(b"site %", &number)
            }
        }
    }

    /// How an agent is told.
    pub(super) fn agent_text(&self, agent: Name) -> Result<Text, Memory> {
        let first = agent.site as usize == self.sites.len();
        match agent.n {
            0 if first => self.text(b"main"),
            1 if first => self.text(b"the daemon"),
            _ => {
                let name = name_text(self.alloc, agent)?;
                self.with(b"agent %", &name)
            }
        }
    }

    /// Where an agent is.
    pub(super) fn where_text(&self, agent: Name) -> Result<Text, Memory> {
        match self.reached.place(agent) {
            None => self.text(b"at no site"),
            Some(Place::At(site)) => self.with(b"at %", &self.site_text(site)?),
            Some(Place::Way(site)) => self.with(b"under way to %", &self.site_text(site)?),
        }
    }

    /// An agent and where it is.
    pub(super) fn agent_where(&self, agent: Name) -> Result<Text, Memory> {
        let name = self.agent_text(agent)?;
        let place = self.where_text(agent)?;
        filled_by(self.alloc, b"% is #", name.as_slice(), place.as_slice())
    }

    /// The index of the first event from one on that makes a name.
    pub(super) fn maker_from(&self, name: Name, from: usize) -> Option<usize> {
        let events = self.events.get(from..).unwrap_or(&[]);
        let before = events
            .iter()
            .take_while(|event| !makes(event.made, name))
            .count();
        if before < events.len() {
            Some(from.saturating_add(before))
        } else {
            None
        }
    }
}
