ghost use Rattle.std.specs.Prelude.{◌≡◌, length, OnOk, OnErr};
ghost use Rattle.np_syntax.specs.declared.event.Kind.TheVariants as kind;
ghost use Rattle.site_state.specs.Doing.{HasDoneEvent, HasRoom, event_at};
ghost use Rattle.site_agents.specs.Standings.{CanDo};
ghost use Rattle.site_state.specs.Standings.{Stays};

use super::leaving::{depart_in, print_in, send_in};
use super::noting::event_of;
use super::site::Site;
use agent_move::{Space, pack_agent, pack_packet};
use agent_pool::Ready;
use np_code::Code;
use np_site_runs::{law_leaving, law_own_events};
use np_syntax::{Made, Memory, Name};
use std::alloc::Global;

// Events that print, and those that put something out.
impl Site {
    /// An agent prints a value.
    pub(super) fn do_print(
        &mut self,
        alloc: Global,
        code: &Code,
        name: Name,
        r: Ready,
    ) -> Result<(), Memory>
        requires room { HasRoom self.old }
        requires can { CanDo code.now self.old.agents name r }
        requires kind { r.kind ≡ kind.Print }
        ensures ok { OnOk result (HasDoneEvent code.now self.old self.new (event_at code.now self.old name r)) }
        ensures err { OnErr result (Stays code.now self.old self.new) }
    {
        law_own_events();
        self.history.room_to_say()?;
        let value = print_in(&mut self.agents, alloc, code, name, r)?;
        let stamp = self.clock.tick();
        let event = event_of(self.site, r, Made::Nothing);
        self.history.push_print(stamp, event, value);
        Ok(())
    }

    /// An agent sends a message, which is to be put on its link.
    pub(super) fn do_send(
        &mut self,
        alloc: Global,
        code: &Code,
        name: Name,
        r: Ready,
    ) -> Result<(), Memory>
        requires sites { length code.now.sites ≡ length self.old.outgoing }
        requires room { HasRoom self.old }
        requires can { CanDo code.now self.old.agents name r }
        requires kind { r.kind ≡ kind.Send }
        ensures ok { OnOk result (HasDoneEvent code.now self.old self.new (event_at code.now self.old name r)) }
        ensures err { OnErr result (Stays code.now self.old self.new) }
    {
        law_leaving();
        self.outgoing.reserve()?;
        let space = Space::new(alloc)?;
        let packet = send_in(&mut self.agents, alloc, code, name, r)?;
        let stamp = self.clock.tick();
        let event = event_of(self.site, r, Made::Nothing);
        self.history.push(stamp, event);
        let to = packet.to;
        let item = pack_packet(space, r.actor, packet, stamp, self.site);
        self.outgoing.put(to, item);
        Ok(())
    }

    /// An agent leaves, and is to be put on its link.
    pub(super) fn do_depart(
        &mut self,
        alloc: Global,
        code: &Code,
        name: Name,
        r: Ready,
    ) -> Result<(), Memory>
        requires sites { length code.now.sites ≡ length self.old.outgoing }
        requires room { HasRoom self.old }
        requires can { CanDo code.now self.old.agents name r }
        requires kind { r.kind ≡ kind.Depart }
        ensures ok { OnOk result (HasDoneEvent code.now self.old self.new (event_at code.now self.old name r)) }
        ensures err { OnErr result (Stays code.now self.old self.new) }
    {
        law_leaving();
        self.outgoing.reserve()?;
        let space = Space::new(alloc)?;
        let (to, agent) = depart_in(&mut self.agents, alloc, code, name, r)?;
        let stamp = self.clock.tick();
        let event = event_of(self.site, r, Made::Nothing);
        self.history.push(stamp, event);
        let item = pack_agent(space, agent, stamp, self.site, to);
        self.outgoing.put(to, item);
        Ok(())
    }
}
