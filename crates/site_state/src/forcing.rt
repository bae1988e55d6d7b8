//! Events that are given: what a site does again, and when.

ghost use Rattle.std.specs.Prelude.{◌≡◌, ◌<◌, ◌≤◌, ◌+◌, ◌-◌, length, max, IfOk, OnOk, OnErr};
ghost use Rattle.np_syntax.specs.declared.limits.TheConstants.{STAMPS_END};
ghost use Rattle.stamp_history.specs.Histories.{IsAboveLast};
ghost use Rattle.agent_pool.specs.Readies.{NoPost};
ghost use Rattle.agent_pool.specs.Rows.{ready_of};
ghost use Rattle.site_state.specs.Doing.{HasDoneEvent, HasRoom, IsPossible, IsRedone, event_at};
ghost use Rattle.site_agents.specs.Standings.{CanDo};
ghost use Rattle.site_state.specs.Standings.{IsStanding, Stays, with_clock};

use super::site::Site;
use agent_pool::Ready;
use np_code::Code;
use np_syntax::{Event, Memory, Name};
use stamp_history::Clock;
use std::alloc::Global;

/// What an event asks of the agent that does it.
fn ready_of(event: Event) -> Ready
    ensures { result ≡ ready_of event }
{
    Ready {
        kind: event.kind,
        actor: event.actor,
        other: event.other,
        tag: event.tag,
    }
}

impl Site {
    /// The clock is at no less than this stamp then. It takes no memory.
    pub fn catch_up(&mut self, stamp: u64)
        requires { stamp ≤ STAMPS_END }
        ensures { self.new ≡ with_clock self.old (max self.old.clock stamp) }
    {
        self.clock.raise(stamp);
    }

    /// Does this event, as `step` would, and records it with this stamp. It walks over the agents to find one that can do
    /// it.
    pub fn force(
        &mut self,
        alloc: Global,
        code: &Code,
        event: Event,
        stamp: u64,
    ) -> Result<(), Memory>
        requires sites { length code.now.sites ≡ length self.old.outgoing }
        requires room { HasRoom self.old }
        requires possible { IsPossible code.now self.old event }
        requires post { NoPost (ready_of event) }
        requires above { self.old.clock < stamp }
        requires stamp { stamp ≤ STAMPS_END }
        ensures ok { OnOk result (HasDoneEvent code.now (with_clock self.old (stamp - 1)) self.new event) }
        ensures clock { OnOk result (self.new.clock ≡ stamp) }
        ensures err { OnErr result (Stays code.now self.old self.new) }
    {
        let name = self.who_can(code, event);
        self.do_late(alloc, code, name, ready_of(event), stamp)
    }

    /// Does what this event does by the same marks, if an agent that stands here can, and records it with this stamp; false where
    /// none can. Which event it is then, with the names that it makes, the site's history tells. It walks over the agents.
    pub fn redo(
        &mut self,
        alloc: Global,
        code: &Code,
        event: Event,
        stamp: u64,
    ) -> Result<bool, Memory>
        requires sites { length code.now.sites ≡ length self.old.outgoing }
        requires room { HasRoom self.old }
        requires post { NoPost (ready_of event) }
        requires above { self.old.clock < stamp }
        requires stamp { stamp ≤ STAMPS_END }
        ensures ok { IfOk result (IsRedone code.now (ready_of event) stamp self.old self.new) }
        ensures err { OnErr result (Stays code.now self.old self.new) }
    {
        match self.agents.who_can(code, ready_of(event)) {
            Some(name) => self.redo_by(alloc, code, name, ready_of(event), stamp),
            None => Ok(false),
        }
    }

    /// So by this agent.
    fn redo_by(
        &mut self,
        alloc: Global,
        code: &Code,
        name: Name,
        r: Ready,
        stamp: u64,
    ) -> Result<bool, Memory>
        requires sites { length code.now.sites ≡ length self.old.outgoing }
        requires room { HasRoom self.old }
        requires can { CanDo code.now self.old.agents name r }
        requires post { NoPost r }
        requires above { self.old.clock < stamp }
        requires stamp { stamp ≤ STAMPS_END }
        ensures ok { IfOk result (IsRedone code.now r stamp self.old self.new) }
        ensures err { OnErr result (Stays code.now self.old self.new) }
    {
        match self.do_late(alloc, code, name, r, stamp) {
            Ok(()) => Ok(true),
            Err(memory) => Err(memory),
        }
    }

    /// The agent does what it can, and the site records it with this stamp.
    fn do_late(
        &mut self,
        alloc: Global,
        code: &Code,
        name: Name,
        r: Ready,
        stamp: u64,
    ) -> Result<(), Memory>
        requires sites { length code.now.sites ≡ length self.old.outgoing }
        requires room { HasRoom self.old }
        requires can { CanDo code.now self.old.agents name r }
        requires post { NoPost r }
        requires above { self.old.clock < stamp }
        requires stamp { stamp ≤ STAMPS_END }
        ensures ok { OnOk result (HasDoneEvent code.now (with_clock self.old (stamp - 1)) self.new (event_at code.now self.old name r)) }
        ensures clock { OnOk result (self.new.clock ≡ stamp) }
        ensures err { OnErr result (Stays code.now self.old self.new) }
    {
        let earlier = self.stamp();
        self.catch_up(stamp - 1);
        match self.do_event(alloc, code, name, r) {
            Ok(()) => Ok(()),
            Err(memory) => {
                self.set_back(earlier);
                Err(memory)
            }
        }
    }

    /// An agent that can do the event.
    fn who_can(&self, code: &Code, event: Event) -> Name
        requires { IsPossible code.now self.now event }
        ensures { CanDo code.now self.now.agents result (ready_of event) }
    {
        match self.agents.who_can(code, ready_of(event)) {
            Some(name) => name,
            None => unreachable!(),
        }
    }

    /// At which stamp the clock stands.
    fn stamp(&self) -> u64
        ensures stamp { result ≡ self.now.clock }
        ensures standing { IsStanding self.now }
    {
        self.clock.stamp()
    }

    /// The clock is at an earlier stamp again, at which the last event is still not above it.
    fn set_back(&mut self, stamp: u64)
        requires earlier { stamp ≤ self.old.clock }
        requires last { IsAboveLast self.old.history.events (stamp + 1) }
        ensures { self.new ≡ with_clock self.old stamp }
    {
        self.clock = Clock::at(stamp);
    }
}
