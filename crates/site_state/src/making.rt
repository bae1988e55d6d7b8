//! Events by which an agent makes another.

ghost use Rattle.std.specs.Prelude.{◌≡◌, OnOk, OnErr};
ghost use Rattle.np_syntax.specs.declared.event.Kind.TheVariants as kind;
ghost use Rattle.site_state.specs.Coming.{KeepsSeats};
ghost use Rattle.site_state.specs.Doing.{HasDoneEvent, HasRoom, event_at};
ghost use Rattle.site_state.specs.Parts.{HasBirth};
ghost use Rattle.site_agents.specs.Standings.{AreNamed, CanDo};
ghost use Rattle.site_state.specs.Standings.{SameAgents, Stays};

use super::coming::settle;
use super::site::Site;
use agent_pool::Ready;
use np_code::Code;
use np_site_runs::law_own_events;
use np_syntax::{Made, Memory, Name};
use site_agents::Agents;
use std::alloc::Global;

/// An agent makes another, which stands there then.
fn child_in(
    agents: &mut Agents,
    alloc: Global,
    code: &Code,
    name: Name,
    r: Ready,
    child: Name,
    mark: Name,
) -> Result<(), Memory>
    requires named { AreNamed agents.old.agents }
    requires can { CanDo code.now agents.old.agents name r }
    requires kind { r.kind ≡ kind.Agent }
    ensures ok { OnOk result (HasBirth code.now agents.old.agents name r child mark agents.new.agents) }
    ensures err { OnErr result (SameAgents agents.old.agents agents.new.agents) }
    ensures keeps { KeepsSeats agents.old agents.new }
{
    agents.reserve(1)?;
    let Some(agent) = agents.get_mut(name) else {
        unreachable!();
    };
    let born = agent.child(alloc, code, r, child, mark)?;
    settle(agents, born);
    Ok(())
}

impl Site {
    /// An agent makes another.
    pub(super) fn do_child(
        &mut self,
        alloc: Global,
        code: &Code,
        name: Name,
        r: Ready,
    ) -> Result<(), Memory>
        requires room { HasRoom self.old }
        requires can { CanDo code.now self.old.agents name r }
        requires kind { r.kind ≡ kind.Agent }
        ensures ok { OnOk result (HasDoneEvent code.now self.old self.new (event_at code.now self.old name r)) }
        ensures err { OnErr result (Stays code.now self.old self.new) }
    {
        law_own_events();
        let child = Name {
            site: self.site,
            n: self.next,
        };
        let mark = Name {
            site: self.site,
            n: self.next + 1,
        };
        child_in(&mut self.agents, alloc, code, name, r, child, mark)?;
        self.note(r, Made::Two(child, mark));
        Ok(())
    }
}
