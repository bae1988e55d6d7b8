ghost use Rattle.np_configuration.specs.Rows.{IsFound, lookup_found, lookup_row, open_found, open_row};
ghost use Rattle.np_configuration.specs.Applied.{Applied, Finds};

use super::atoms::{atom_of, chosen};
use super::cfg::Cfg;
use super::fail::ApplyFail::{self, NotEnabled};
use super::frames::with_found;
use super::outputs::output_in;
use super::views::is_alone;
use np_calculus::Atom;
use np_eval::{agent_of, as_lookup, as_open, find_place, letter_of, places_of};
use np_syntax::Event;
use std::alloc::Global;

// The rows of letters and of maps of places.
impl Cfg {
    pub(super) fn apply_open(&mut self, alloc: Global, e: &Event) -> Result<(), ApplyFail>
        ensures { Applied (open_row self.old e.now) self.old self.new result }
    {
        let atom = self.find_open(alloc, e)?;
        self.stand(e.actor, atom)?;
        Ok(())
    }

    /// The output that an atom's letter gives, where the row is met.
    fn find_open(&self, alloc: Global, e: &Event) -> Result<Atom, ApplyFail>
        ensures { Finds (open_row self.now e.now) (IsFound (open_found self.now e.now)) result }
    {
        let Some(atom) = self.acting(e) else {
            return Err(NotEnabled);
        };
        let Some(letter) = as_open(&atom.proc) else {
            return Err(NotEnabled);
        };
        if !is_alone(e) {
            return Err(NotEnabled);
        }
        let Some((chan, value)) = letter_of(alloc, letter, &atom.env)? else {
            return Err(NotEnabled);
        };
        Ok(output_in(alloc, atom.agent, chan, value, e.tag)?)
    }

    pub(super) fn apply_lookup(&mut self, alloc: Global, e: &Event) -> Result<(), ApplyFail>
        ensures { Applied (lookup_row self.old e.now) self.old self.new result }
    {
        let atom = self.find_lookup(alloc, e)?;
        self.stand(e.actor, atom)?;
        Ok(())
    }

    /// What a lookup goes on as, where the row is met.
    fn find_lookup(&self, alloc: Global, e: &Event) -> Result<Atom, ApplyFail>
        ensures { Finds (lookup_row self.now e.now) (IsFound (lookup_found self.now e.now)) result }
    {
        let Some(atom) = self.acting(e) else {
            return Err(NotEnabled);
        };
        let Some((agent, places, binder, met, unmet)) = as_lookup(&atom.proc) else {
            return Err(NotEnabled);
        };
        let Some(agent) = agent_of(alloc, agent, &atom.env)? else {
            return Err(NotEnabled);
        };
        let Some(places) = places_of(alloc, places, &atom.env)? else {
            return Err(NotEnabled);
        };
        if !is_alone(e) {
            return Err(NotEnabled);
        }
        let found = find_place(places.as_slice(), agent);
        let env = with_found(alloc, &atom.env, binder, found)?;
        let next = chosen(met, unmet, found.is_some());
        Ok(atom_of(alloc, atom.agent, next, env)?)
    }
}
