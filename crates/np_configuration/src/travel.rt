ghost use Rattle.np_configuration.specs.Rows.{IsFound, agent_found, agent_row, depart_found, depart_row};
ghost use Rattle.np_calculus.specs.Reductions.{row};
ghost use Rattle.np_syntax.specs.declared.event.Kind.TheVariants as kind;
ghost use Rattle.np_configuration.specs.Applied.{Applied, Finds};

use super::alone::Fork;
use super::atoms::{atom_of, going_on};
use super::cfg::Cfg;
use super::fail::ApplyFail::{self, NotEnabled};
use super::filing::{file_atom, file_two};
use super::frames::two_with_agent;
use super::views::is_alone;
use np_calculus::{Atom, Place};
use np_conditions::{no_other, none_made, one_site, one_tag, way};
use np_eval::{as_agent_form, as_migrate};
use np_syntax::{Event, Role, Tag};
use std::alloc::Global;

/// A departure that is enabled: the site to which the agent goes, and what its atom goes on as.
#[derive(Drop)]
struct Departure {
    to: u32,
    atom: Atom,
}

// The rows of agents: how they are made, and how they move.
impl Cfg {
    #[tactic(auto, using(np_tables::proofs::Tables::puts))]
    pub(super) fn apply_agent(&mut self, alloc: Global, e: &Event) -> Result<(), ApplyFail>
        ensures { Applied (agent_row self.old e.now) self.old self.new result }
    {
        let made = self.find_agent(alloc, e)?;
        let agent = made.comes.agent;
        self.places.reserve(1)?;
        file_two(
            &mut self.atoms,
            &mut self.born,
            &mut self.work,
            made.mark,
            &made.comes,
            e.actor,
            &made.stays,
        )?;
        self.places.put(agent, Place::At(e.site));
        self.atoms.put(made.mark, made.comes);
        self.atoms.put(e.actor, made.stays);
        self.born.put(agent);
        self.born.put(made.mark);
        Ok(())
    }

    /// The atom of the agent that an atom makes, and what that goes on as, where the row is met.
    fn find_agent(&self, alloc: Global, e: &Event) -> Result<Fork, ApplyFail>
        ensures { Finds (agent_row self.now e.now) (IsFound (agent_found self.now e.now)) result }
    {
        let Some(atom) = self.acting(e) else {
            return Err(NotEnabled);
        };
        let Some((binder, body, rest)) = as_agent_form(&atom.proc) else {
            return Err(NotEnabled);
        };
        let Some((agent, mark)) = self.two_new(e) else {
            return Err(NotEnabled);
        };
        let (env, own) = two_with_agent(alloc, &atom.env, binder, agent)?;
        let comes = atom_of(alloc, agent, body, env)?;
        let stays = atom_of(alloc, atom.agent, rest, own)?;
        Ok(Fork { mark, comes, stays })
    }

    #[tactic(auto, using(np_tables::proofs::Tables::puts))]
    pub(super) fn apply_depart(&mut self, alloc: Global, e: &Event) -> Result<(), ApplyFail>
        ensures { Applied (depart_row self.old e.now) self.old self.new result }
    {
        let leaves = self.find_depart(alloc, e)?;
        let agent = leaves.atom.agent;
        self.places.reserve(1)?;
        file_atom(&mut self.work, e.actor, &leaves.atom)?;
        self.places.put(agent, Place::Way(leaves.to));
        self.atoms.replace(e.actor, leaves.atom);
        Ok(())
    }

    /// Where an agent goes to, where the row is met.
    fn find_depart(&self, alloc: Global, e: &Event) -> Result<Departure, ApplyFail>
        ensures { Finds (depart_row self.now e.now) (IsFound (depart_found self.now e.now)) result }
    {
        let Some(atom) = self.acting(e) else {
            return Err(NotEnabled);
        };
        let Some((site, body)) = as_migrate(&atom.proc) else {
            return Err(NotEnabled);
        };
        let Some(to) = self.site_of(alloc, site, &atom.env)? else {
            return Err(NotEnabled);
        };
        if !is_alone(e) {
            return Err(NotEnabled);
        }
        let atom = going_on(alloc, atom, body)?;
        Ok(Departure { to, atom })
    }

    #[tactic(auto, using(np_tables::proofs::Tables::puts), unfolding(np_calculus::specs::Reductions::arrive_row))]
    pub(super) fn apply_arrive(&mut self, e: &Event) -> Result<(), ApplyFail>
        ensures { Applied (row kind.Arrive self.old e.now) self.old self.new result }
    {
        let place = self.place(e.actor).ok_or(NotEnabled)?;
        let site = way(place).ok_or(NotEnabled)?;
        let arrival = Tag {
            node: 0,
            role: Role::Plain,
        };
        one_site(site, e.site).ok_or(NotEnabled)?;
        one_tag(e.tag, arrival).ok_or(NotEnabled)?;
        none_made(e.made).ok_or(NotEnabled)?;
        no_other(e.other).ok_or(NotEnabled)?;
        self.places.reserve(1)?;
        self.places.put(e.actor, Place::At(site));
        Ok(())
    }
}
