ghost use Rattle.std.specs.Prelude.{◌≡◌, Some};
ghost use Rattle.np_configuration.specs.Found.{ended, spoken};
ghost use Rattle.np_configuration.specs.Rows.{IsFound, fork_found, fork_row, if_found, if_row, let_found, let_row, new_found, new_row};
ghost use Rattle.np_configuration.specs.Rows.{print_row, stop_row};
ghost use Rattle.np_configuration.specs.Applied.{Applied, Finds};

use super::atoms::{atom_of, chosen, going_on};
use super::cfg::Cfg;
use super::fail::ApplyFail::{self, NotEnabled};
use super::filing::file_two;
use super::frames::{bound, with_chan};
use super::views::is_alone;
use np_calculus::Atom;
use np_eval::{as_if, as_let, as_new, as_par, as_print, as_stop, eval, truth_of};
use np_syntax::{Event, Name, Value};
use std::alloc::Global;

/// An atom that goes on as two: one that comes under a new mark, and what it goes on as itself.
#[derive(Drop)]
pub(super) struct Fork {
    pub(super) mark: Name,
    pub(super) comes: Atom,
    pub(super) stays: Atom,
}

// The rows of atoms that act alone, within their agent.
impl Cfg {
    pub(super) fn apply_stop(&mut self, e: &Event) -> Result<(), ApplyFail>
        ensures { Applied (stop_row self.old e.now) self.old self.new result }
    {
        self.find_stop(e)?;
        self.end(e.actor);
        Ok(())
    }

    /// Whether the row of an atom that ends is met.
    fn find_stop(&self, e: &Event) -> Result<(), ApplyFail>
        ensures { Finds (stop_row self.now e.now) (λ _. stop_row self.now e.now ≡ Some (ended self.now e.now.actor)) result }
    {
        let Some(atom) = self.acting(e) else {
            return Err(NotEnabled);
        };
        let Some(()) = as_stop(&atom.proc) else {
            return Err(NotEnabled);
        };
        if is_alone(e) { Ok(()) } else { Err(NotEnabled) }
    }

    #[tactic(auto, using(np_tables::proofs::Tables::puts))]
    pub(super) fn apply_fork(&mut self, alloc: Global, e: &Event) -> Result<(), ApplyFail>
        ensures { Applied (fork_row self.old e.now) self.old self.new result }
    {
        let fork = self.find_fork(alloc, e)?;
        file_two(
            &mut self.atoms,
            &mut self.born,
            &mut self.work,
            fork.mark,
            &fork.comes,
            e.actor,
            &fork.stays,
        )?;
        self.atoms.put(fork.mark, fork.comes);
        self.atoms.put(e.actor, fork.stays);
        self.born.put(fork.mark);
        Ok(())
    }

    /// How a composition goes on, where the row is met.
    fn find_fork(&self, alloc: Global, e: &Event) -> Result<Fork, ApplyFail>
        ensures { Finds (fork_row self.now e.now) (IsFound (fork_found self.now e.now)) result }
    {
        let Some(atom) = self.acting(e) else {
            return Err(NotEnabled);
        };
        let Some((left, right)) = as_par(&atom.proc) else {
            return Err(NotEnabled);
        };
        let Some(mark) = self.one_new(e) else {
            return Err(NotEnabled);
        };
        let comes = going_on(alloc, atom, right)?;
        let stays = going_on(alloc, atom, left)?;
        Ok(Fork { mark, comes, stays })
    }

    pub(super) fn apply_new(&mut self, alloc: Global, e: &Event) -> Result<(), ApplyFail>
        ensures { Applied (new_row self.old e.now) self.old self.new result }
    {
        let atom = self.find_new(alloc, e)?;
        self.enter(e.actor, atom, e.made)?;
        Ok(())
    }

    /// How an atom goes on that makes a channel, where the row is met.
    fn find_new(&self, alloc: Global, e: &Event) -> Result<Atom, ApplyFail>
        ensures { Finds (new_row self.now e.now) (IsFound (new_found self.now e.now)) result }
    {
        let Some(atom) = self.acting(e) else {
            return Err(NotEnabled);
        };
        let Some((binder, _ty, body)) = as_new(&atom.proc) else {
            return Err(NotEnabled);
        };
        let Some(chan) = self.one_new(e) else {
            return Err(NotEnabled);
        };
        let env = with_chan(alloc, &atom.env, binder, chan)?;
        Ok(atom_of(alloc, atom.agent, body, env)?)
    }

    pub(super) fn apply_let(&mut self, alloc: Global, e: &Event) -> Result<(), ApplyFail>
        ensures { Applied (let_row self.old e.now) self.old self.new result }
    {
        let atom = self.find_let(alloc, e)?;
        self.stand(e.actor, atom)?;
        Ok(())
    }

    /// How an atom goes on that gives names to a value, where the row is met.
    fn find_let(&self, alloc: Global, e: &Event) -> Result<Atom, ApplyFail>
        ensures { Finds (let_row self.now e.now) (IsFound (let_found self.now e.now)) result }
    {
        let Some(atom) = self.acting(e) else {
            return Err(NotEnabled);
        };
        let Some((pat, value, body)) = as_let(&atom.proc) else {
            return Err(NotEnabled);
        };
        let Some(env) = bound(alloc, pat, value, &atom.env)? else {
            return Err(NotEnabled);
        };
        if !is_alone(e) {
            return Err(NotEnabled);
        }
        Ok(atom_of(alloc, atom.agent, body, env)?)
    }

    pub(super) fn apply_if(&mut self, alloc: Global, e: &Event) -> Result<(), ApplyFail>
        ensures { Applied (if_row self.old e.now) self.old self.new result }
    {
        let atom = self.find_if(alloc, e)?;
        self.stand(e.actor, atom)?;
        Ok(())
    }

    /// How a test goes on, where the row is met.
    fn find_if(&self, alloc: Global, e: &Event) -> Result<Atom, ApplyFail>
        ensures { Finds (if_row self.now e.now) (IsFound (if_found self.now e.now)) result }
    {
        let Some(atom) = self.acting(e) else {
            return Err(NotEnabled);
        };
        let Some((test, met, unmet)) = as_if(&atom.proc) else {
            return Err(NotEnabled);
        };
        let Some(truth) = truth_of(alloc, test, &atom.env)? else {
            return Err(NotEnabled);
        };
        if !is_alone(e) {
            return Err(NotEnabled);
        }
        Ok(going_on(alloc, atom, chosen(met, unmet, truth))?)
    }

    pub(super) fn apply_print(&mut self, alloc: Global, e: &Event) -> Result<(), ApplyFail>
        ensures { Applied (print_row self.old e.now) self.old self.new result }
    {
        let value = self.find_print(alloc, e)?;
        self.say(e.actor, e.site, value)?;
        Ok(())
    }

    /// The value that an atom prints, where the row is met.
    fn find_print(&self, alloc: Global, e: &Event) -> Result<Value, ApplyFail>
        ensures { Finds (print_row self.now e.now) (λ value. print_row self.now e.now
            ≡ Some (spoken self.now e.now.actor e.now.site value)) result }
    {
        let Some(atom) = self.acting(e) else {
            return Err(NotEnabled);
        };
        let Some(printed) = as_print(&atom.proc) else {
            return Err(NotEnabled);
        };
        if !is_alone(e) {
            return Err(NotEnabled);
        }
        eval(alloc, printed, &atom.env)?.ok_or(NotEnabled)
    }
}
