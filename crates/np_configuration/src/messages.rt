ghost use Rattle.np_configuration.specs.Rows.{IsFound, IsLocal, local_found, local_row, post_found, post_row, send_found, send_row};
ghost use Rattle.np_calculus.specs.Reductions.{row};
ghost use Rattle.np_syntax.specs.declared.event.Kind.TheVariants as kind;
ghost use Rattle.std.specs.Prelude.{true, false};
ghost use Rattle.np_configuration.specs.Applied.{Applied, Finds};

use super::atoms::{chosen, going_on};
use super::cfg::Cfg;
use super::fail::ApplyFail::{self, NotEnabled};
use super::filing::{file, file_two};
use super::outputs::output_in;
use super::views::is_alone;
use np_calculus::{Atom, Packet};
use np_conditions::{no_other, none_made, one_made, one_site, one_tag};
use np_eval::{agent_of, as_iflocal, as_post, as_send, chan_of, eval};
use np_syntax::{Event, Name, Value};
use np_tables::{Errand, Meeting};
use std::alloc::Global;

/// What a location test finds: its agent, channel and value, whether the agent is here, and what it goes on as.
#[derive(Drop)]
struct Local {
    agent: Name,
    chan: Name,
    value: Value,
    here: bool,
    next: Atom,
}

// The rows of what goes from one agent to another.
impl Cfg {
    pub(super) fn apply_send(&mut self, alloc: Global, e: &Event) -> Result<(), ApplyFail>
        ensures { Applied (send_row self.old e.now) self.old self.new result }
    {
        let packet = self.find_send(alloc, e)?;
        self.fly(e.actor, packet)?;
        Ok(())
    }

    /// The packet that an atom sends, where the row is met.
    fn find_send(&self, alloc: Global, e: &Event) -> Result<Packet, ApplyFail>
        ensures { Finds (send_row self.now e.now) (IsFound (send_found self.now e.now)) result }
    {
        let Some(atom) = self.acting(e) else {
            return Err(NotEnabled);
        };
        let Some((agent, site, chan, value)) = as_send(&atom.proc) else {
            return Err(NotEnabled);
        };
        let Some(agent) = agent_of(alloc, agent, &atom.env)? else {
            return Err(NotEnabled);
        };
        let Some(to) = self.site_of(alloc, site, &atom.env)? else {
            return Err(NotEnabled);
        };
        let Some(chan) = chan_of(chan, &atom.env) else {
            return Err(NotEnabled);
        };
        if !is_alone(e) {
            return Err(NotEnabled);
        }
        let Some(value) = eval(alloc, value, &atom.env)? else {
            return Err(NotEnabled);
        };
        let tag = e.tag;
        Ok(Packet {
            to,
            agent,
            chan,
            value,
            tag,
        })
    }

    pub(super) fn apply_post(&mut self, alloc: Global, e: &Event) -> Result<(), ApplyFail>
        ensures { Applied (post_row self.old e.now) self.old self.new result }
    {
        let atom = self.find_post(alloc, e)?;
        self.stand(e.actor, atom)?;
        Ok(())
    }

    /// The output that an atom makes in its own or another agent, where the row is met.
    fn find_post(&self, alloc: Global, e: &Event) -> Result<Atom, ApplyFail>
        ensures { Finds (post_row self.now e.now) (IsFound (post_found self.now e.now)) result }
    {
        let Some(atom) = self.acting(e) else {
            return Err(NotEnabled);
        };
        let Some((agent, chan, value)) = as_post(&atom.proc) else {
            return Err(NotEnabled);
        };
        let Some(agent) = agent_of(alloc, agent, &atom.env)? else {
            return Err(NotEnabled);
        };
        let Some(chan) = chan_of(chan, &atom.env) else {
            return Err(NotEnabled);
        };
        if !is_alone(e) {
            return Err(NotEnabled);
        }
        let Some(value) = eval(alloc, value, &atom.env)? else {
            return Err(NotEnabled);
        };
        Ok(output_in(alloc, agent, chan, value, e.tag)?)
    }

    /// A packet whose agent is at its site becomes an output there, and any other is lost.
    #[tactic(auto, using(np_tables::proofs::Tables::puts), unfolding(np_calculus::specs::Reductions::land_row))]
    pub(super) fn apply_land(&mut self, alloc: Global, e: &Event) -> Result<(), ApplyFail>
        ensures { Applied (row kind.Land self.old e.now) self.old self.new result }
    {
        let packet = self.packets.get(e.actor).ok_or(NotEnabled)?;
        one_site(packet.to, e.site).ok_or(NotEnabled)?;
        one_tag(packet.tag, e.tag).ok_or(NotEnabled)?;
        none_made(e.made).ok_or(NotEnabled)?;
        no_other(e.other).ok_or(NotEnabled)?;
        if !self.is_at(packet.agent, e.site) {
            self.packets.remove(e.actor);
            return Ok(());
        }
        let agent = packet.agent;
        let chan = packet.chan;
        let made = output_in(alloc, agent, chan, packet.value.copy(alloc)?, e.tag)?;
        let comes = Errand::Gives(Meeting { agent, chan });
        file(&mut self.atoms, &mut self.work, e.actor, comes)?;
        self.packets.remove(e.actor);
        self.atoms.put(e.actor, made);
        Ok(())
    }

    pub(super) fn apply_local(&mut self, alloc: Global, e: &Event) -> Result<(), ApplyFail>
        ensures { Applied (local_row self.old e.now) self.old self.new result }
    {
        let asked = self.find_local(alloc, e)?;
        if asked.here {
            self.local_here(alloc, e, asked)
        } else {
            self.local_away(e, asked)
        }
    }

    /// What a location test finds, where the conditions are met that do not depend on it.
    fn find_local(&self, alloc: Global, e: &Event) -> Result<Local, ApplyFail>
        ensures { Finds (local_row self.now e.now) (IsFound (local_found self.now e.now)) result }
    {
        let Some(atom) = self.acting(e) else {
            return Err(NotEnabled);
        };
        let Some((agent, chan, value, met, unmet)) = as_iflocal(&atom.proc) else {
            return Err(NotEnabled);
        };
        let Some(agent) = agent_of(alloc, agent, &atom.env)? else {
            return Err(NotEnabled);
        };
        let Some(chan) = chan_of(chan, &atom.env) else {
            return Err(NotEnabled);
        };
        let Some(value) = eval(alloc, value, &atom.env)? else {
            return Err(NotEnabled);
        };
        let Some(()) = no_other(e.other) else {
            return Err(NotEnabled);
        };
        let here = self.is_at(agent, e.site);
        let next = going_on(alloc, atom, chosen(met, unmet, here))?;
        Ok(Local {
            agent,
            chan,
            value,
            here,
            next,
        })
    }

    /// A location test that finds its agent: the output is made in it, and the process goes on as the first.
    #[tactic(auto, using(np_tables::proofs::Tables::puts))]
    fn local_here(&mut self, alloc: Global, e: &Event, asked: Local) -> Result<(), ApplyFail>
        requires { IsLocal self.old e.now asked true }
        ensures { Applied (local_row self.old e.now) self.old self.new result }
    {
        let mark = one_made(e.made).ok_or(NotEnabled)?;
        self.fresh(mark).ok_or(NotEnabled)?;
        let made = output_in(alloc, asked.agent, asked.chan, asked.value, e.tag)?;
        file_two(
            &mut self.atoms,
            &mut self.born,
            &mut self.work,
            mark,
            &made,
            e.actor,
            &asked.next,
        )?;
        self.atoms.put(mark, made);
        self.atoms.put(e.actor, asked.next);
        self.born.put(mark);
        Ok(())
    }

    /// A location test that does not find its agent: the process goes on as the second.
    fn local_away(&mut self, e: &Event, asked: Local) -> Result<(), ApplyFail>
        requires { IsLocal self.old e.now asked false }
        ensures { Applied (local_row self.old e.now) self.old self.new result }
    {
        none_made(e.made).ok_or(NotEnabled)?;
        self.stand(e.actor, asked.next)?;
        Ok(())
    }
}
