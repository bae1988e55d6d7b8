ghost use Rattle.std.specs.Prelude.{◌≡◌, List as Items, [], ◌∷◌, ◌++◌, IfOk, OnOk, MatchOption, Some, slice_get};
ghost use Rattle.np_syntax.specs.declared.event.Event.{Event as OneEvent};
ghost use Rattle.np_calculus.specs.Config.{Config as OneConfig};
ghost use Rattle.np_calculus.specs.Reductions.{apply, run};
ghost use Rattle.run_save.specs.Ours.{IsOursFrom};
ghost use Rattle.run_save.specs.Left.{link_first, noted_count, noted_first};
ghost use Rattle.run_save.specs.Notes.{AreNoted, IsNoted, IsTold, SetsQueue, TakesFirst, Tells, waiting};
ghost use Rattle.run_save.specs.Travels.{Travels, none_yet, puts, takes, travels_on};

use super::counts::{count, makes};
use super::queue::Queue;
use super::trips::{Item, Link, Trip, departure, sending};
use indexmap::IndexMap;
use np_configuration::Cfg;
use np_syntax::{Event, Kind, Memory};
use std::alloc::Global;

/// The links in code: from which site each item was put last, and what waits on each link, in the order in which the links
/// were first used.
pub struct Links {
    alloc: Global,
    senders: IndexMap<Item, u32>,
    queues: IndexMap<Link, Queue>,
}

impl Drop for Links {
    fn drop(self) {
        let Links {
            alloc: _,
            senders: _,
            queues: _,
        } = self;
    }
}

/// What is noted of the events of a run: how many names each site has made, and the links.
pub struct Notes {
    made: IndexMap<u32, u64>,
    links: Links,
}

impl Drop for Notes {
    fn drop(self) {
        let Notes { made: _, links: _ } = self;
    }
}

/// An item is the last that waits on a link.
fn enter(
    alloc: Global,
    queues: &mut IndexMap<Link, Queue>,
    link: Link,
    item: Item,
) -> Result<(), Memory>
    ensures { OnOk result (SetsQueue queues.old queues.new link (waiting queues.old link ++ item ∷ [])) }
{
    match queues.get_mut(&link) {
        Some(queue) => queue.push(item),
        None => {
            let mut queue = Queue::new(alloc);
            queue.push(item)?;
            match queues.insert(link, queue) {
                Ok(_) => Ok(()),
                Err(_) => Err(Memory),
            }
        }
    }
}

/// Takes the first that waits on a link.
fn take_first(queues: &mut IndexMap<Link, Queue>, link: Link) -> Option<Item>
    ensures { MatchOption result (waiting queues.old link ≡ []) (TakesFirst queues.old queues.new link) }
{
    let queue = queues.get_mut(&link)?;
    queue.pop()
}

/// The first that waits on a link.
fn first_on(queues: &IndexMap<Link, Queue>, link: Link) -> Option<Item>
    ensures { result ≡ slice_get (waiting queues.now link) 0 }
{
    match queues.get(&link) {
        Some(queue) => queue.first(),
        None => None,
    }
}

impl Links {
    /// Nothing was put yet. It takes no memory.
    fn new(alloc: Global) -> Links
        ensures { Tells result none_yet }
    {
        Links {
            alloc,
            senders: IndexMap::new(alloc),
            queues: IndexMap::new(alloc),
        }
    }

    /// An item is put on its link, if one is.
    fn put(&mut self, trip: Option<Trip>) -> Result<(), Memory>
        ensures { OnOk result ((t : Travels) → Tells self.old t → Tells self.new (puts t trip)) }
    {
        let Some(trip) = trip else {
            return Ok(());
        };
        self.senders.insert(trip.item, trip.link.from)?;
        enter(self.alloc, &mut self.queues, trip.link, trip.item)
    }

    /// A site takes an item from the link on which it was put last, and this tells whether it was the first there. What was
    /// never put is not.
    fn take(&mut self, item: Item, site: u32) -> bool
        ensures { (t : Travels) → Tells self.old t → IsTold result self.new (takes t item site) }
    {
        let Some(from) = self.senders.get(&item).copied() else {
            return false;
        };
        let link = Link { from, to: site };
        match take_first(&mut self.queues, link) {
            Some(first) => first == item,
            None => false,
        }
    }

    /// The first on the link on which an item was put last, to this site.
    fn first_beside(&self, item: Item, to: u32) -> Option<Item>
        ensures { result ≡ link_first self.now item to }
    {
        let from = self.senders.get(&item).copied()?;
        first_on(&self.queues, Link { from, to })
    }

    /// Notes what an event puts on a link or takes from one, and tells whether what it takes was the first there.
    fn note(&mut self, after: &Cfg, e: &Event) -> Result<bool, Memory>
        ensures { IfOk result (λ met. (t : Travels) → Tells self.old t → IsTold met self.new (travels_on e.now.kind t after.now e.now)) }
    {
        match e.kind {
            Kind::Depart => {
                self.put(departure(after, e))?;
                Ok(true)
            }
            Kind::Send => {
                self.put(sending(after, e))?;
                Ok(true)
            }
            Kind::Arrive => Ok(self.take(Item::Agent(e.actor), e.site)),
            Kind::Land => Ok(self.take(Item::Packet(e.actor), e.site)),
            _ => Ok(true),
        }
    }
}

impl Notes {
    /// No event was noted yet. It takes no memory.
    pub fn new(alloc: Global) -> Notes
        ensures { (start : OneConfig) → AreNoted result start [] }
    {
        Notes {
            made: IndexMap::new(alloc),
            links: Links::new(alloc),
        }
    }

    /// Notes one event more, told with the configuration after it, and tells whether the sites make it so. Where they do not,
    /// the notes are of no use from then on.
    pub fn note(&mut self, after: &Cfg, e: &Event) -> Result<bool, Memory>
        ensures { IfOk result (λ met. (start before : OneConfig) (events : Items OneEvent) → AreNoted self.old start events
            → run start events ≡ Some before
            → apply before e.now ≡ Some after.now → IsOursFrom start events → IsNoted met self.new start (events ++ e.now ∷ [])) }
    {
        if !makes(&mut self.made, e.site, e.made)? {
            return Ok(false);
        }
        self.links.note(after, e)
    }
    /// How many names a site has made.
    pub fn count(&self, site: u32) -> u64
        ensures { result ≡ noted_count self.now site }
    {
        count(&self.made, site)
    }

    /// The first on the link on which an item was put last, to this site.
    pub fn first_beside(&self, item: Item, to: u32) -> Option<Item>
        ensures { result ≡ noted_first self.now item to }
    {
        self.links.first_beside(item, to)
    }
}
