//! Location tests.

ghost use Rattle.std.specs.Prelude.{◌≡◌, ◌<◌, is_some, true, false, OnOk, OnErr, IfOk};
ghost use Rattle.std.specs.FinMap as map;
ghost use Rattle.np_syntax.specs.declared.event.Kind.TheVariants as kind;
ghost use Rattle.np_syntax.specs.declared.event.Made.TheVariants as made;
ghost use Rattle.np_calculus.specs.Changes.{still};
ghost use Rattle.agent_pool.specs.Pools.{Unchanged};
ghost use Rattle.agent_pool.specs.Rows.{IsMet, Reduces};
ghost use Rattle.site_state.specs.Coming.{KeepsSeats};
ghost use Rattle.site_state.specs.Doing.{HasDoneEvent, HasRoom, event_at};
ghost use Rattle.site_state.specs.Parts.{Asks, HasGone, HasTold};
ghost use Rattle.site_agents.specs.Standings.{AreNamed, CanDo};
ghost use Rattle.site_state.specs.Standings.{SameAgents, Stays};

use super::coming::{give, make_room};
use super::site::Site;
use agent_pool::{Agent, Ready};
use np_calculus::Packet;
use np_code::Code;
use np_site_runs::law_own_events;
use np_syntax::{Made, Memory, Name};
use site_agents::Agents;
use std::alloc::Global;

/// A location test of an agent that does not find its agent.
fn away_in(
    agents: &mut Agents,
    alloc: Global,
    code: &Code,
    name: Name,
    r: Ready,
) -> Result<(), Memory>
    requires named { AreNamed agents.old.agents }
    requires can { CanDo code.now agents.old.agents name r }
    requires kind { r.kind ≡ kind.Local }
    ensures ok { OnOk result (HasGone code.now agents.old.agents name kind.Local r made.Nothing still agents.new.agents) }
    ensures err { OnErr result (SameAgents agents.old.agents agents.new.agents) }
    ensures keeps { KeepsSeats agents.old agents.new }
{
    let Some(agent) = agents.get_mut(name) else {
        unreachable!();
    };
    pass(agent, alloc, code, r)
}

/// The agent goes on where the agent that it asks for is not here.
fn pass(agent: &mut Agent, alloc: Global, code: &Code, r: Ready) -> Result<(), Memory>
    requires { IsMet kind.Local code.now agent.old r made.Nothing }
    ensures row { OnOk result (Reduces kind.Local code.now agent.old agent.new r made.Nothing still) }
    ensures name { agent.new.name ≡ agent.old.name }
    ensures err { OnErr result (Unchanged agent.old agent.new) }
{
    let _ = agent.local(alloc, code, r, false, r.actor)?;
    Ok(())
}

/// A location test of an agent that finds its agent, for which a packet is answered.
fn tell_in(
    agents: &mut Agents,
    alloc: Global,
    code: &Code,
    name: Name,
    r: Ready,
    mark: Name,
) -> Result<Packet, Memory>
    requires named { AreNamed agents.old.agents }
    requires can { CanDo code.now agents.old.agents name r }
    requires kind { r.kind ≡ kind.Local }
    ensures ok { IfOk result (λ packet. HasTold code.now agents.old.agents name r mark packet agents.new.agents) }
    ensures err { OnErr result (SameAgents agents.old.agents agents.new.agents) }
    ensures keeps { KeepsSeats agents.old agents.new }
{
    let Some(agent) = agents.get_mut(name) else {
        unreachable!();
    };
    match agent.local(alloc, code, r, true, mark)? {
        Some(packet) => Ok(packet),
        None => unreachable!(),
    }
}

impl Site {
    /// A location test of an agent.
    pub(super) fn do_local(
        &mut self,
        alloc: Global,
        code: &Code,
        name: Name,
        r: Ready,
    ) -> Result<(), Memory>
        requires room { HasRoom self.old }
        requires can { CanDo code.now self.old.agents name r }
        requires kind { r.kind ≡ kind.Local }
        ensures ok { OnOk result (HasDoneEvent code.now self.old self.new (event_at code.now self.old name r)) }
        ensures err { OnErr result (Stays code.now self.old self.new) }
    {
        let target = self.target(code, name, r);
        if self.has(target) {
            return self.do_told(alloc, code, name, r, target);
        }
        self.do_away(alloc, code, name, r, target)
    }

    /// The agent for which one asks.
    fn target(&self, code: &Code, name: Name, r: Ready) -> Name
        requires can { CanDo code.now self.now.agents name r }
        requires kind { r.kind ≡ kind.Local }
        ensures { Asks code.now self.now.agents name r result }
    {
        let Some(agent) = self.agents.get(name) else {
            unreachable!();
        };
        agent.target(code, r)
    }

    /// Whether the agent of a name is here.
    fn has(&self, name: Name) -> bool
        ensures { result ≡ is_some (map.get self.now.agents name) }
    {
        self.agents.has(name)
    }

    /// A location test that does not find its agent.
    fn do_away(
        &mut self,
        alloc: Global,
        code: &Code,
        name: Name,
        r: Ready,
        target: Name,
    ) -> Result<(), Memory>
        requires room { HasRoom self.old }
        requires can { CanDo code.now self.old.agents name r }
        requires kind { r.kind ≡ kind.Local }
        requires asks { Asks code.now self.old.agents name r target }
        requires absent { is_some (map.get self.old.agents target) ≡ false }
        ensures ok { OnOk result (HasDoneEvent code.now self.old self.new (event_at code.now self.old name r)) }
        ensures err { OnErr result (Stays code.now self.old self.new) }
    {
        law_own_events();
        away_in(&mut self.agents, alloc, code, name, r)?;
        self.note(r, Made::Nothing);
        Ok(())
    }

    /// A location test that finds its agent, which gets the output.
    fn do_told(
        &mut self,
        alloc: Global,
        code: &Code,
        name: Name,
        r: Ready,
        target: Name,
    ) -> Result<(), Memory>
        requires room { HasRoom self.old }
        requires can { CanDo code.now self.old.agents name r }
        requires kind { r.kind ≡ kind.Local }
        requires asks { Asks code.now self.old.agents name r target }
        requires there { is_some (map.get self.old.agents target) ≡ true }
        ensures ok { OnOk result (HasDoneEvent code.now self.old self.new (event_at code.now self.old name r)) }
        ensures err { OnErr result (Stays code.now self.old self.new) }
    {
        law_own_events();
        let mark = Name {
            site: self.site,
            n: self.next,
        };
        make_room(&mut self.agents, target)?;
        let packet = tell_in(&mut self.agents, alloc, code, name, r, mark)?;
        give(
            &mut self.agents,
            target,
            mark,
            packet.chan,
            packet.value,
            packet.tag,
        );
        self.note(r, Made::One(mark));
        Ok(())
    }
}
