//! What comes to the agents at a site.

ghost use Rattle.std.specs.Prelude.{◌≡◌, ◌<◌, OnOk};
ghost use Rattle.std.specs.FinMap as map;
ghost use Rattle.item_events.specs.Coming.{event_for};
ghost use Rattle.site_state.specs.Coming.{HasCome, HasSpare, HasRoomFor, IsGiven, KeepsSeats};
ghost use Rattle.site_agents.specs.Standings.{AreNamed};
ghost use Rattle.site_state.specs.Standings.{SameAgents};

use agent_move::{Item, Load};
use agent_pool::Agent;
use item_events::event_for;
use np_syntax::{Event, Memory, Name, Tag, Value};
use site_agents::Agents;

/// Makes sure of a place for one more atom of the agent of a name, if there is one.
pub fn make_room(agents: &mut Agents, name: Name) -> Result<(), Memory>
    requires named { AreNamed agents.old.agents }
    ensures same { SameAgents agents.old.agents agents.new.agents }
    ensures keeps { KeepsSeats agents.old agents.new }
    ensures spare { OnOk result (HasSpare agents.new.agents name) }
{
    match agents.get_mut(name) {
        Some(agent) => agent.make_room(),
        None => Ok(()),
    }
}

/// Makes sure of room for what is under way.
pub fn room_for(agents: &mut Agents, item: &Item) -> Result<(), Memory>
    requires named { AreNamed agents.old.agents }
    ensures same { SameAgents agents.old.agents agents.new.agents }
    ensures keeps { KeepsSeats agents.old agents.new }
    ensures spare { OnOk result (HasRoomFor agents.new item.now.load) }
{
    match item.load() {
        Load::Agent(_) => agents.reserve(1),
        Load::Packet(_, packet) => make_room(agents, packet.agent),
    }
}

/// An agent comes, in the place of one of its name if there is one.
pub fn settle(agents: &mut Agents, agent: Agent)
    requires { 0 < agents.old.room }
    ensures agents { agents.new.agents ≡ map.insert agents.old.agents agent.name agent }
    ensures keeps { KeepsSeats agents.old agents.new }
{
    let _ = agents.take(agent.name());
    agents.put(agent);
}

/// An agent gets an output, if it is there.
pub fn give(agents: &mut Agents, to: Name, mark: Name, chan: Name, value: Value, tag: Tag)
    requires named { AreNamed agents.old.agents }
    requires spare { HasSpare agents.old.agents to }
    ensures given { IsGiven agents.old.agents to mark chan value tag agents.new.agents }
    ensures keeps { KeepsSeats agents.old agents.new }
{
    let Some(agent) = agents.get_mut(to) else {
        return;
    };
    match agent.receive(mark, chan, value, tag) {
        Ok(()) => {}
        Err(_) => unreachable!(),
    }
}

/// What is under way comes, and its event is answered.
pub fn take_in(agents: &mut Agents, site: u32, load: Load) -> Event
    requires named { AreNamed agents.old.agents }
    requires spare { HasRoomFor agents.old load }
    ensures event { result ≡ event_for site load }
    ensures come { HasCome agents.old.agents load agents.new.agents }
    ensures keeps { KeepsSeats agents.old agents.new }
{
    let event = event_for(site, &load);
    match load {
        Load::Agent(agent) => settle(agents, agent),
        Load::Packet(mark, packet) => give(
            agents,
            packet.agent,
            mark,
            packet.chan,
            packet.value,
            packet.tag,
        ),
    }
    event
}
