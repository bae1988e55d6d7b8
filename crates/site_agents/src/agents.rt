ghost use Rattle.std.specs.Prelude.{◌≡◌, ◌<◌, ◌≤◌, ◌+◌, ◌↔◌, false, length, slice_index_or, is_some, IfSome, IfNone, IsTrue, IsSome, OnOk};
ghost use Rattle.std.specs.Prelude.{None};
ghost use Rattle.std.specs.Option.{option_copied, option_copied_mut};
ghost use Rattle.std.specs.Borrow.{sem};
ghost use Rattle.std.specs.FinMap as map;
ghost use Rattle.np_code.specs.Programs.{ProgramTable};
ghost use Rattle.np_tables.specs.Stored.{Covers};
ghost use Rattle.agent_pool.specs.Readies.{NoPost};
ghost use Rattle.site_agents.specs.LentAgents.{lends_agent};
ghost use Rattle.site_agents.specs.Standings.{AreNamed, AreQuiet, AreIdle, CanDo, NoneCan, NoneCanDo};

use super::lending::{agent_at, call_again};
use super::queue::Queue;
use super::seat::Seat;
use super::serving::{all_idle, any_ready, next_doubtful, next_likely, take_seat, who_can};
use agent_pool::{Agent, Ready};
use np_code::Code;
use np_syntax::{Memory, Name};
use np_tables::Table;
use std::alloc::Global;
use std::marker::Model;

/// The agents that stand at one site, by their names. Those that may have something to do stand in a queue, first come
/// first served, or among the doubtful, of which no index tells what they can do. The others were found to be quiet, and
/// cost nothing until they are changed.
pub struct Agents {
    seats: Table<Seat>,
    turns: Queue,
    doubtful: Queue,
}

impl Drop for Agents {
    fn drop(self) {
        let Agents {
            seats: _,
            turns: _,
            doubtful: _,
        } = self;
    }
}

impl Model for Agents {
    ghost use Rattle.site_agents.specs.Rounds.{InTurn};
    ghost use Rattle.site_agents.specs.Standings.{Standing, standing_code, agents_of, quiet_of};

    ghost Value = { Standing };

    ghost coded = { standing_code };

    ghost view = { λ a. record {
      agents = agents_of a.seats.items;
      quiet = quiet_of a.seats.items;
      room = a.seats.spare;
      keys = a.seats.keys;
    } };

    ghost invariant = { λ a. InTurn a.seats.items a.turns a.doubtful };
}

impl Agents {
    /// No agents, which takes no memory.
    pub fn new(alloc: Global) -> Agents
        ensures agents { result.agents ≡ map.empty }
        ensures quiet { result.quiet ≡ map.empty }
    {
        Agents {
            seats: Table::new(alloc),
            turns: Queue::new(alloc),
            doubtful: Queue::new(alloc),
        }
    }

    pub fn get(&self, name: Name) -> Option<&Agent>
        ensures { option_copied result ≡ map.get self.now.agents name }
    {
        match self.seats.get(name) {
            Some(seat) => Some(&seat.agent),
            None => None,
        }
    }

    pub fn has(&self, name: Name) -> bool
        ensures { result ≡ is_some (map.get self.now.agents name) }
    {
        self.seats.has(name)
    }

    /// How many agents there are. A walk over `key` below this number meets the name of each.
    pub fn len(&self) -> usize
        ensures len { result ≡ length self.now.keys }
        ensures covers { Covers self.now.agents self.now.keys }
    {
        self.seats.len()
    }

    /// The name at an index of the walk.
    pub fn key(&self, index: usize) -> Name
        requires { index < length self.now.keys }
        ensures at { result ≡ slice_index_or self.now.keys index result }
        ensures there { IsSome (map.get self.now.agents result) }
    {
        self.seats.key(index)
    }

    /// Makes sure of room for so many more agents, in the queues too.
    pub fn reserve(&mut self, more: usize) -> Result<(), Memory>
        ensures agents { self.new.agents ≡ self.old.agents }
        ensures quiet { self.new.quiet ≡ self.old.quiet }
        ensures keys { self.new.keys ≡ self.old.keys }
        ensures room { self.old.room ≤ self.new.room }
        ensures ok { OnOk result (more ≤ self.new.room) }
    {
        self.seats.reserve(more)?;
        let all = self.seats.len().saturating_add(more);
        self.turns.reserve(all)?;
        self.doubtful.reserve(all)
    }

    /// An agent comes, and has a turn after all others.
    pub fn put(&mut self, agent: Agent)
        requires room { 0 < self.old.room }
        requires absent { map.get self.old.agents agent.name ≡ None }
        ensures agents { self.new.agents ≡ map.insert self.old.agents agent.name agent }
        ensures quiet { self.new.quiet ≡ map.insert self.old.quiet agent.name false }
        ensures room { self.old.room ≤ self.new.room + 1 }
        ensures named { AreNamed self.old.agents → AreNamed self.new.agents }
        ensures still { (code : ProgramTable) → AreQuiet code self.old → AreQuiet code self.new }
    {
        let name = agent.name();
        self.turns.push(name);
        let seat = Seat {
            agent,
            queued: true,
            doubted: false,
        };
        self.seats.put(name, seat);
    }

    /// Takes an agent out.
    pub fn take(&mut self, name: Name) -> Option<Agent>
        ensures agent { result ≡ map.get self.old.agents name }
        ensures agents { self.new.agents ≡ map.remove self.old.agents name }
        ensures quiet { self.new.quiet ≡ map.remove self.old.quiet name }
        ensures room { self.old.room ≤ self.new.room }
        ensures named { AreNamed self.old.agents → AreNamed self.new.agents }
        ensures still { (code : ProgramTable) → AreQuiet code self.old → AreQuiet code self.new }
    {
        take_seat(&mut self.seats, &mut self.turns, name)
    }

    /// The agent of a name, to be changed in place, which has a turn then. The name is looked up once. It takes no memory.
    pub fn get_mut(&mut self, name: Name) -> Option<&mut Agent>
        ensures* writes_back { sem 𝓛 (lends_agent self.entry name result) }
        ensures agent { option_copied_mut result ≡ map.get self.old.agents name }
    {
        match self.seats.index(name) {
            Some(index) => {
                call_again(&mut self.seats, &mut self.turns, name, index);
                Some(agent_at(&mut self.seats, name, index))
            }
            None => None,
        }
    }

    /// An agent whose index tells something that it can do, and that. The one that waits longest is served, and comes
    /// last then. That none is told is no sign that none can do anything. It takes no memory, and walks over no atoms.
    pub fn next_likely(&mut self, code: &Code) -> Option<(Name, Ready)>
        ensures agents { self.new.agents ≡ self.old.agents }
        ensures room { self.new.room ≡ self.old.room }
        ensures post { IfSome result (λ found. NoPost found.1) }
        ensures some { IfSome result (λ found. CanDo code.now self.old.agents found.0 found.1) }
        ensures still { AreQuiet code.now self.old → AreQuiet code.now self.new }
    {
        next_likely(code, &mut self.seats, &mut self.turns, &mut self.doubtful)
    }

    /// An agent that can do something, and what, and none exactly where none can do anything. The one that waits longest
    /// of those whose indexes tell something is served, and comes last then. It takes no memory.
    pub fn next_ready(&mut self, code: &Code) -> Option<(Name, Ready)>
        ensures agents { self.new.agents ≡ self.old.agents }
        ensures room { self.new.room ≡ self.old.room }
        ensures post { IfSome result (λ found. NoPost found.1) }
        ensures some { IfSome result (λ found. CanDo code.now self.old.agents found.0 found.1) }
        ensures none { AreQuiet code.now self.old → IfNone result (NoneCan code.now self.old.agents) }
        ensures still { AreQuiet code.now self.old → AreQuiet code.now self.new }
    {
        if let Some(found) = next_likely(
            code,
            &mut self.seats,
            &mut self.turns,
            &mut self.doubtful,
        ) {
            return Some(found);
        }
        if let Some(found) = next_doubtful(
            code,
            &mut self.seats,
            &mut self.turns,
            &mut self.doubtful,
        ) {
            return Some(found);
        }
        if !self.turns.is_lost() && !self.doubtful.is_lost() {
            return None;
        }
        let (name, ready) = any_ready(code, &self.seats)?;
        self.turns.push(name);
        Some((name, ready))
    }

    /// An agent that can do this, and none exactly where none can. It takes no memory. It walks over the agents.
    pub fn who_can(&self, code: &Code, r: Ready) -> Option<Name>
        ensures some { IfSome result (λ name. CanDo code.now self.now.agents name r) }
        ensures none { IfNone result (NoneCanDo code.now self.now.agents r) }
    {
        who_can(code, &self.seats, r)
    }

    /// Whether each agent is idle. It takes no memory. It walks over the agents, and over their atoms.
    pub fn idle(&self, code: &Code) -> bool
        ensures { IsTrue result ↔ AreIdle code.now.processes self.now.agents }
    {
        all_idle(code, &self.seats)
    }
}
