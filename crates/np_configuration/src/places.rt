ghost use Rattle.std.specs.Prelude.{◌≡◌, ◌<◌, ◌≤◌, Some, IfSome, IfNone, OnOk, is_some};
ghost use Rattle.std.specs.FinMap as map;
ghost use Rattle.np_configuration.specs.Placed.{NoneTravels};
ghost use Rattle.np_calculus.specs.Sight.{at_site};
ghost use Rattle.np_calculus.specs.declared.config.Place.TheVariants as place;

use np_calculus::Place;
use np_conditions::at_site;
use np_syntax::{Memory, Name};
use np_tables::{Names, Table};
use std::alloc::Global;
use std::marker::Model;

/// Where each agent is. Beside the map stand the agents that are under way, so that the next arrival is found without
/// a walk over the agents.
pub struct Places {
    placed: Table<Place>,
    under_way: Names,
}

impl Drop for Places {
    fn drop(self) {
        let Places {
            placed: _,
            under_way: _,
        } = self;
    }
}

impl Model for Places {
    ghost use Rattle.np_configuration.specs.Placed.{Placed, placed_code, IsTravelling};

    ghost Value = { Placed };

    ghost coded = { placed_code };

    ghost view = { λ places. record {
      items = places.placed.items;
      spare = places.placed.spare;
      gates = places.under_way.spare;
    } };

    ghost invariant = { λ places. IsTravelling places.placed.items places.under_way.members };
}

impl Places {
    /// No agent is anywhere. It takes no memory.
    pub fn new(alloc: Global) -> Places
        ensures { result.items ≡ map.empty }
    {
        Places {
            placed: Table::new(alloc),
            under_way: Names::new(alloc),
        }
    }

    /// Where an agent is.
    pub fn get(&self, agent: Name) -> Option<Place>
        ensures { result ≡ map.get self.now.items agent }
    {
        self.placed.get(agent).copied()
    }

    /// Where an agent stands in the stored order.
    pub fn index(&self, agent: Name) -> Option<usize>
        ensures { is_some result ≡ is_some (map.get self.now.items agent) }
    {
        self.placed.index(agent)
    }

    /// Where an agent is, which is looked for at an index first.
    pub fn get_near(&self, index: usize, agent: Name) -> Option<Place>
        ensures { result ≡ map.get self.now.items agent }
    {
        self.placed.get_near(index, agent).copied()
    }

    /// Whether an agent is at a site.
    pub fn is_at(&self, agent: Name, site: u32) -> bool
        ensures { result ≡ at_site (map.get self.now.items agent) site }
    {
        at_site(self.get(agent), site)
    }

    /// Makes sure of room for so many agents, and for so many under way.
    pub fn reserve(&mut self, more: usize) -> Result<(), Memory>
        ensures items { self.new.items ≡ self.old.items }
        ensures spare { OnOk result (more ≤ self.new.spare) }
        ensures gates { OnOk result (more ≤ self.new.gates) }
    {
        self.placed.reserve(more)?;
        self.under_way.reserve(more)
    }

    /// An agent is at this place from now on. It takes no memory.
    pub fn put(&mut self, agent: Name, place: Place)
        requires spare { 0 < self.old.spare }
        requires gates { 0 < self.old.gates }
        ensures items { self.new.items ≡ map.insert self.old.items agent place }
    {
        match place {
            Place::At(_) => self.under_way.remove(agent),
            Place::Way(_) => self.under_way.put(agent),
        }
        self.placed.put(agent, place);
    }

    /// An agent that is under way, with the site to which it is.
    pub fn under_way(&self) -> Option<(Name, u32)>
        ensures some { IfSome result (λ next. map.get self.now.items next.0 ≡ Some (place.Way next.1)) }
        ensures none { IfNone result (NoneTravels self.now.items) }
    {
        let agent = self.under_way.first()?;
        match self.placed.get(agent) {
            Some(Place::Way(site)) => Some((agent, *site)),
            _ => unreachable!(),
        }
    }
}
