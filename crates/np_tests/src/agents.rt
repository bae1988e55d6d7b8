//! Who waits on a channel in an agent.

ghost use Rattle.std.specs.Prelude.{◌<◌, ◌^◌, IfOk, length};
ghost use Rattle.agent_pool.specs.Pools.{IsFiled, atoms_of};
ghost use Rattle.agent_pool.specs.Readies.{IsReady};

use super::sources::checked;
use agent_pool::{Agent, Ready};
use daemon_encode::encode;
use np_check::Checked;
use np_code::{Code, NodeForm, flatten};
use np_eval::Frame;
use np_syntax::{Kind, List, LowProgram, Memory, Name};
use std::alloc::Global;
use std::test::Fail;

/// A replicated input takes three outputs.
const SERVER: &str =
    "sites home ; main at home = new c : ^Int in (*c?x -> print x | c!1 | c!2 | c!3)";

/// More steps than main takes.
const STEPS: u32 = 40;

/// The agent's name, and the mark of its first atom. No atom uses a channel of that name.
pub(crate) const OWN: Name = Name { site: 1, n: 0 };

/// The agent of main's process, which is a composition.
pub(crate) fn main_agent(alloc: Global, code: &Code) -> Result<Agent, Memory>
    ensures { IfOk result (λ agent. IsFiled code.now.processes agent.atoms) }
{
    let root = code.main_root();
    let NodeForm::Par(_, _) = &code.node(root).form else {
        return Err(Memory);
    };
    Agent::new(alloc, OWN, OWN, root, Frame::new(alloc))
}

/// What the agent can do is done, where it is a step of this program within the agent.
fn goes_on(
    alloc: Global,
    code: &Code,
    agent: &mut Agent,
    ready: Ready,
    mark: Name,
) -> Result<(), Memory>
    requires ready { IsReady code.now (atoms_of code.now.processes agent.old) ready }
    requires filed { IsFiled code.now.processes agent.old.atoms }
    ensures { IsFiled code.now.processes agent.new.atoms }
{
    match ready.kind {
        Kind::Fork => agent.fork(alloc, code, ready, mark),
        Kind::New => agent.bind_new(alloc, code, ready, mark),
        Kind::Rep => agent.rep(alloc, code, ready),
        Kind::Print => {
            let value = agent.print(alloc, code, ready)?;
            drop(value);
            Ok(())
        }
        _ => Ok(()),
    }
}

/// How many inputs and outputs wait on a channel.
fn counts(code: &Code, agent: &Agent, chan: Name) -> Option<(u64, u64)>
    requires { IsFiled code.now.processes agent.now.atoms }
{
    match agent.waiting(code, chan) {
        Some(waiters) => Some((waiters.inputs(), waiters.outputs())),
        None => None,
    }
}

/// Who waits on the channel that is made, before each time that the replicated input takes an output, and at the end.
fn seen_in(
    alloc: Global,
    code: &Code,
    agent: &mut Agent,
) -> Result<List<Option<(u64, u64)>>, Memory>
    requires { IsFiled code.now.processes agent.old.atoms }
{
    let mut seen = List::new(alloc);
    let mut chan = OWN;
    seen.add(counts(code, agent, chan))?;
    for n in 0..STEPS {
        if let Some(ready) = agent.first_ready(code) {
            let mark = Name { site: 0, n };
            if ready.kind == Kind::New {
                chan = mark;
            }
            if ready.kind == Kind::Rep {
                seen.add(counts(code, agent, chan))?;
            }
            goes_on(alloc, code, agent, ready, mark)?;
        }
    }
    seen.add(counts(code, agent, chan))?;
    Ok(seen)
}

/// The same of main of a low program.
fn seen_of_low(alloc: Global, low: &LowProgram) -> Result<List<Option<(u64, u64)>>, Memory>
    requires { length low.now.sites < 2 ^ 32 }
{
    let Ok(code) = flatten(alloc, low) else {
        return Err(Memory);
    };
    let mut agent = main_agent(alloc, &code)?;
    let seen = seen_in(alloc, &code, &mut agent);
    drop(agent);
    drop(code);
    seen
}

/// The same of a program.
fn seen_of(alloc: Global, program: &Checked) -> Result<List<Option<(u64, u64)>>, Memory> {
    let _ = program.program();
    let low = encode(alloc, program)?;
    let seen = seen_of_low(alloc, &low);
    drop(low);
    seen
}

#[test]
fn an_agent_tells_who_waits(rt: HostRuntime) -> Result<(), Fail> {
    let program = checked(rt.alloc(), SERVER)?;
    let seen = seen_of(rt.alloc(), &program);
    drop(program);
    let seen = seen?;
    let wanted = [None, Some((1, 3)), Some((1, 2)), Some((1, 1)), Some((1, 0))];
    assert!(rt; seen.as_slice() == wanted.as_slice());
    Ok(())
}
