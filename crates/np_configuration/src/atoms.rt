ghost use Rattle.std.specs.Prelude.{◌≡◌, cond, IfOk};
ghost use Rattle.np_calculus.specs.Reductions.{goes};

use np_calculus::Atom;
use np_eval::Frame;
use np_syntax::{Memory, Name, Proc};
use std::alloc::Global;

/// The atom of an agent that shares a process, under a frame.
pub fn atom_of(alloc: Global, agent: Name, proc: &Proc, env: Frame) -> Result<Atom, Memory>
    ensures { IfOk result (λ atom. atom ≡ record { agent = agent; proc = proc.now; env = env }) }
{
    let proc = proc.copy(alloc)?;
    Ok(Atom { agent, proc, env })
}

/// What an atom goes on as: it shares a process, under the frame that it has.
pub fn going_on(alloc: Global, atom: &Atom, proc: &Proc) -> Result<Atom, Memory>
    ensures { IfOk result (λ next. next ≡ goes atom.now proc.now) }
{
    let env = atom.env.copy(alloc)?;
    atom_of(alloc, atom.agent, proc, env)
}

/// The first or the second of two processes.
pub fn chosen<'a>(met: &'a Proc, unmet: &'a Proc, first: bool) -> &'a Proc
    ensures { result.now ≡ cond first met.now unmet.now }
{
    if first { met } else { unmet }
}
