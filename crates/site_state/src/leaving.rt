//! Events by which something leaves an agent.

ghost use Rattle.std.specs.Prelude.{◌≡◌, ◌∷◌, [], Some, IfOk, OnErr};
ghost use Rattle.np_syntax.specs.declared.event.Kind.TheVariants as kind;
ghost use Rattle.np_syntax.specs.declared.event.Made.TheVariants as made;
ghost use Rattle.np_calculus.specs.Changes.{put, still};
ghost use Rattle.site_state.specs.Coming.{KeepsSeats};
ghost use Rattle.site_state.specs.Parts.{HasDeparted, HasGone};
ghost use Rattle.site_agents.specs.Standings.{AreNamed, CanDo};
ghost use Rattle.site_state.specs.Standings.{SameAgents};

use agent_pool::{Agent, Ready};
use np_calculus::Packet;
use np_code::Code;
use np_syntax::{Memory, Name, Value};
use site_agents::Agents;
use std::alloc::Global;

/// An agent prints a value, which is answered.
pub fn print_in(
    agents: &mut Agents,
    alloc: Global,
    code: &Code,
    name: Name,
    r: Ready,
) -> Result<Value, Memory>
    requires named { AreNamed agents.old.agents }
    requires can { CanDo code.now agents.old.agents name r }
    requires kind { r.kind ≡ kind.Print }
    ensures ok { IfOk result (λ value. HasGone code.now agents.old.agents name kind.Print r made.Nothing
        (record still { said = Some value }) agents.new.agents) }
    ensures err { OnErr result (SameAgents agents.old.agents agents.new.agents) }
    ensures keeps { KeepsSeats agents.old agents.new }
{
    let Some(agent) = agents.get_mut(name) else {
        unreachable!();
    };
    agent.print(alloc, code, r)
}

/// An agent sends a message, whose packet is answered.
pub fn send_in(
    agents: &mut Agents,
    alloc: Global,
    code: &Code,
    name: Name,
    r: Ready,
) -> Result<Packet, Memory>
    requires named { AreNamed agents.old.agents }
    requires can { CanDo code.now agents.old.agents name r }
    requires kind { r.kind ≡ kind.Send }
    ensures ok { IfOk result (λ packet. HasGone code.now agents.old.agents name kind.Send r made.Nothing
        (record still { packets = put r.actor packet ∷ [] }) agents.new.agents) }
    ensures err { OnErr result (SameAgents agents.old.agents agents.new.agents) }
    ensures keeps { KeepsSeats agents.old agents.new }
{
    let Some(agent) = agents.get_mut(name) else {
        unreachable!();
    };
    agent.send(alloc, code, r)
}

/// An agent leaves for the site that is answered.
pub fn depart_in(
    agents: &mut Agents,
    alloc: Global,
    code: &Code,
    name: Name,
    r: Ready,
) -> Result<(u32, Agent), Memory>
    requires named { AreNamed agents.old.agents }
    requires can { CanDo code.now agents.old.agents name r }
    requires kind { r.kind ≡ kind.Depart }
    ensures ok { IfOk result (λ gone. HasDeparted code.now agents.old.agents name r gone.0 gone.1 agents.new.agents) }
    ensures err { OnErr result (SameAgents agents.old.agents agents.new.agents) }
    ensures keeps { KeepsSeats agents.old agents.new }
{
    agents.reserve(1)?;
    let Some(mut agent) = agents.take(name) else {
        unreachable!();
    };
    match agent.depart(alloc, code, r) {
        Ok(to) => Ok((to, agent)),
        Err(memory) => {
            agents.put(agent);
            Err(memory)
        }
    }
}
