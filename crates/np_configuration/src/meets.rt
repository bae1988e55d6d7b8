ghost use Rattle.np_configuration.specs.Rows.{IsFound, comm_found, comm_row, rep_found, rep_row};
ghost use Rattle.std.specs.Prelude.{◌≡◌, IfOk};
ghost use Rattle.np_configuration.specs.Applied.{Applied, Finds};
ghost use Rattle.np_configuration.specs.Views.{taken_by};

use super::atoms::atom_of;
use super::cfg::Cfg;
use super::fail::ApplyFail::{self, NotEnabled};
use np_calculus::Atom;
use np_conditions::none_made;
use np_eval::{Frame, as_inp, as_rep, bind, chan_of};
use np_syntax::{Event, Memory, Name, Pat};
use std::alloc::Global;

// The rows of an input and an output that meet.
impl Cfg {
    /// The frame in which an input's pattern is bound to the value that the atom of a mark offers.
    fn taken(
        &self,
        alloc: Global,
        mark: Name,
        atom: &Atom,
        chan: Name,
        pat: &Pat,
    ) -> Result<Option<Frame>, Memory>
        ensures { IfOk result (λ env. env ≡ taken_by self.now mark atom.now chan pat.now) }
    {
        let Some(value) = self.offered(alloc, mark, atom.agent, chan)? else {
            return Ok(None);
        };
        bind(alloc, pat, &value, &atom.env)
    }

    pub(super) fn apply_comm(&mut self, alloc: Global, e: &Event) -> Result<(), ApplyFail>
        ensures { Applied (comm_row self.old e.now) self.old self.new result }
    {
        let (mark, atom) = self.find_comm(alloc, e)?;
        self.stand(e.actor, atom)?;
        self.end(mark);
        Ok(())
    }

    /// The output that an input takes, and what the input goes on as, where the row is met.
    fn find_comm(&self, alloc: Global, e: &Event) -> Result<(Name, Atom), ApplyFail>
        ensures { Finds (comm_row self.now e.now) (IsFound (comm_found self.now e.now)) result }
    {
        let Some(atom) = self.acting(e) else {
            return Err(NotEnabled);
        };
        let Some((chan, pat, body)) = as_inp(&atom.proc) else {
            return Err(NotEnabled);
        };
        let Some(chan) = chan_of(chan, &atom.env) else {
            return Err(NotEnabled);
        };
        let Some(mark) = e.other else {
            return Err(NotEnabled);
        };
        let Some(env) = self.taken(alloc, mark, atom, chan, pat)? else {
            return Err(NotEnabled);
        };
        let Some(()) = none_made(e.made) else {
            return Err(NotEnabled);
        };
        Ok((mark, atom_of(alloc, atom.agent, body, env)?))
    }

    pub(super) fn apply_rep(&mut self, alloc: Global, e: &Event) -> Result<(), ApplyFail>
        ensures { Applied (rep_row self.old e.now) self.old self.new result }
    {
        let (mark, atom) = self.find_rep(alloc, e)?;
        self.stand(mark, atom)?;
        Ok(())
    }

    /// The output that a replicated input takes, and its body, which stands in its place, where the row is met.
    fn find_rep(&self, alloc: Global, e: &Event) -> Result<(Name, Atom), ApplyFail>
        ensures { Finds (rep_row self.now e.now) (IsFound (rep_found self.now e.now)) result }
    {
        let Some(atom) = self.acting(e) else {
            return Err(NotEnabled);
        };
        let Some((chan, pat, body)) = as_rep(&atom.proc) else {
            return Err(NotEnabled);
        };
        let Some(chan) = chan_of(chan, &atom.env) else {
            return Err(NotEnabled);
        };
        let Some(mark) = e.other else {
            return Err(NotEnabled);
        };
        let Some(env) = self.taken(alloc, mark, atom, chan, pat)? else {
            return Err(NotEnabled);
        };
        let Some(()) = none_made(e.made) else {
            return Err(NotEnabled);
        };
        Ok((mark, atom_of(alloc, atom.agent, body, env)?))
    }
}
