//! The agents and the channels of a run, with their names and colours.

ghost use Rattle.std.specs.Prelude.{◌≡◌};
ghost use Rattle.std.specs.FinMap as map;
ghost use Rattle.picture_svg.specs.Casts as spec;

use super::shapes::Hue;
use itoa::Buffer;
use np_syntax::{Event, Kind, List, Made, Memory, Name, Role, Text};
use np_tables::Table;
use run_pictures::Step;
use std::alloc::Global;

/// How many colours there are for agents.
const HUES: u32 = 7;

/// The numbers of the agents that are there from the start, which are their numbers among the names of a program too.
const MAIN: u32 = 0;

const DAEMON: u32 = 1;

/// How many names a low program has of its own.
const OWN_NAMES: u32 = 17;

/// What a low program calls its own channel of this number.
fn own_channel(n: u32) -> &'static [u8] {
    match n {
        2 => b"register",
        3 => b"migrating",
        4 => b"migrated",
        5 => b"message",
        6 => b"deliver",
        7 => b"ack",
        8 => b"dack",
        9 => b"currentloc",
        10 => b"lock",
        13 => b"here",
        14 => b"cache",
        15 => b"where",
        16 => b"found",
        _ => b"?",
    }
}

/// A node of the source that makes agents or channels, and how it names them.
#[derive(Drop)]
pub struct Binder {
    pub node: u32,
    pub name: Text,
}

/// The colour of the agent of a number.
fn hue_by(number: u32) -> Hue
    ensures { result ≡ spec.hue_by number }
{
    if number == MAIN {
        Hue::Main
    } else if number == DAEMON {
        Hue::Daemon
    } else {
        Hue::Agent(number.saturating_sub(2) % HUES)
    }
}

/// Agents, or channels, in the order in which they are made, each by its number, with their names.
#[derive(Drop)]
pub(crate) struct Roll {
    numbers: Table<u32>,
    names: List<Text>,
}

impl Roll {
    fn new(alloc: Global) -> Roll {
        Roll {
            numbers: Table::new(alloc),
            names: List::new(alloc),
        }
    }

    fn add(&mut self, made: Name, name: Text) -> Result<(), Memory> {
        if self.numbers.has(made) {
            return Ok(());
        }
        let Ok(number) = u32::try_from(self.names.len()) else {
            return Err(Memory);
        };
        self.numbers.insert(made, number)?;
        self.names.add(name)
    }

    /// The name of what was made.
    fn name(&self, made: Name) -> &[u8]
        ensures { result.now ≡ spec.name_of (map.get self.now.numbers.items made) self.now.names }
    {
        let Some(number) = self.numbers.get(made).copied() else {
            return b"?";
        };
        match self.names.as_slice().get(number as usize) {
            Some(name) => name.as_slice(),
            None => b"?",
        }
    }
}

/// The agents in order of birth, with main and the daemon before them, and the channels.
#[derive(Drop)]
pub(crate) struct Cast {
    agents: Roll,
    channels: Roll,
}

impl Cast {
    /// The agents and the channels that a program of so many sites has from the start.
    fn new(alloc: Global, sites: u32) -> Result<Cast, Memory> {
        let mut agents = Roll::new(alloc);
        agents.add(
            Name {
                site: sites,
                n: MAIN,
            },
            List::from_slice(alloc, b"main")?,
        )?;
        agents.add(
            Name {
                site: sites,
                n: DAEMON,
            },
            List::from_slice(alloc, b"daemon")?,
        )?;
        let mut channels = Roll::new(alloc);
        for n in 0..OWN_NAMES {
            let name = List::from_slice(alloc, own_channel(n))?;
            channels.add(Name { site: sites, n }, name)?;
        }
        Ok(Cast { agents, channels })
    }

    /// The colour of an agent.
    pub fn hue(&self, agent: Name) -> Hue
        ensures { result ≡ spec.hue_of (map.get self.now.agents.numbers.items agent) }
    {
        match self.agents.numbers.get(agent).copied() {
            Some(number) => hue_by(number),
            None => Hue::Plain,
        }
    }

    /// The name of an agent.
    pub fn name(&self, agent: Name) -> &[u8]
        ensures { result.now ≡ spec.name_of (map.get self.now.agents.numbers.items agent) self.now.agents.names }
    {
        self.agents.name(agent)
    }

    /// The name of a channel.
    pub fn channel(&self, chan: Name) -> &[u8]
        ensures { result.now ≡ spec.name_of (map.get self.now.channels.numbers.items chan) self.now.channels.names }
    {
        self.channels.name(chan)
    }
}

/// The names that nodes of the source give, and how many agents and channels each node has made.
#[derive(Drop)]
struct Naming {
    names: Table<u32>,
    counts: Table<u32>,
}

/// A node as a key of a table.
fn key_of(node: u32) -> Name {
    Name { site: 0, n: node }
}

impl Naming {
    fn new(alloc: Global, binders: &[Binder]) -> Result<Naming, Memory> {
        let mut names = Table::new(alloc);
        let mut place = 0u32;
        for binder in binders {
            names.insert(key_of(binder.node), place)?;
            place = place.saturating_add(1);
        }
        Ok(Naming {
            names,
            counts: Table::new(alloc),
        })
    }

    /// How many the node has made, with this one.
    fn count(&mut self, node: u32) -> Result<u32, Memory> {
        let before = self.counts.get(key_of(node)).copied().unwrap_or(0);
        let count = before.saturating_add(1);
        self.counts.insert(key_of(node), count)?;
        Ok(count)
    }

    /// How an event names what it makes: by the node, from the second on with a number. What the infrastructure makes has this
    /// other name.
    fn name_for(
        &mut self,
        alloc: Global,
        binders: &[Binder],
        event: &Event,
        other: &[u8],
    ) -> Result<Text, Memory> {
        let node = event.tag.node;
        let place = match event.tag.role {
            Role::Plain => self.names.get(key_of(node)).copied(),
            Role::Post | Role::Infra => None,
        };
        let Some(binder) = binders.get(place.unwrap_or(u32::MAX) as usize) else {
            return List::from_slice(alloc, other);
        };
        let mut name = binder.name.copy(alloc)?;
        let count = self.count(node)?;
        if 1 < count {
            name.append(b".")?;
            name.append(Buffer::new().format(count).as_bytes())?;
        }
        Ok(name)
    }
}

/// Notes what an event makes.
fn note(
    alloc: Global,
    cast: &mut Cast,
    naming: &mut Naming,
    binders: &[Binder],
    event: &Event,
) -> Result<(), Memory> {
    match (event.kind, event.made) {
        (Kind::Agent, Made::Two(agent, _)) => {
            let name = naming.name_for(alloc, binders, event, b"messenger")?;
            cast.agents.add(agent, name)
        }
        (Kind::New, Made::One(chan)) => {
            let name = naming.name_for(alloc, binders, event, b"lock")?;
            cast.channels.add(chan, name)
        }
        _ => Ok(()),
    }
}

/// The agents and channels of a run of a program of so many sites. `makers` are those of its events that make some, where not
/// all of its steps are there.
pub(crate) fn cast_of(
    alloc: Global,
    sites: u32,
    makers: &[Event],
    steps: &[Step],
    binders: &[Binder],
) -> Result<Cast, Memory> {
    let mut cast = Cast::new(alloc, sites)?;
    let mut naming = Naming::new(alloc, binders)?;
    for event in makers {
        note(alloc, &mut cast, &mut naming, binders, event)?;
    }
    if makers.len() == 0 {
        for step in steps {
            note(alloc, &mut cast, &mut naming, binders, &step.event)?;
        }
    }
    Ok(cast)
}
