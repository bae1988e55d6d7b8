//! Events within an agent.

ghost use Rattle.std.specs.Prelude.{◌≡◌, true, false, OnOk, OnErr};
ghost use Rattle.np_calculus.specs.Changes.{still};
ghost use Rattle.np_calculus.specs.Rows.{made_of};
ghost use Rattle.agent_pool.specs.Pools.{Unchanged, atoms_of};
ghost use Rattle.agent_pool.specs.Readies.{IsReady};
ghost use Rattle.agent_pool.specs.Rows.{Reduces};
ghost use Rattle.site_state.specs.Parts.{is_inner};

use agent_pool::{Agent, Ready};
use np_code::Code;
use np_syntax::{Kind, Made, Memory, Name};
use std::alloc::Global;

/// Whether an event of this kind is one within an agent, which prints nothing.
pub fn is_inner(kind: Kind) -> bool
    ensures { result ≡ is_inner kind }
{
    match kind {
        Kind::Stop => true,
        Kind::Fork => true,
        Kind::New => true,
        Kind::Let => true,
        Kind::If => true,
        Kind::Comm => true,
        Kind::Rep => true,
        Kind::Open => true,
        Kind::Lookup => true,
        _ => false,
    }
}

/// The names that an event of this kind makes, where these are the next ones, and where an agent that it asks for is not
/// here.
pub fn made_of(kind: Kind, first: Name, second: Name) -> Made
    ensures { result ≡ made_of kind false first second }
{
    match kind {
        Kind::Fork => Made::One(first),
        Kind::New => Made::One(first),
        Kind::Agent => Made::Two(first, second),
        _ => Made::Nothing,
    }
}

/// The agent goes on by an event within it, and nothing else changes.
pub fn go_on(
    agent: &mut Agent,
    alloc: Global,
    code: &Code,
    r: Ready,
    first: Name,
) -> Result<(), Memory>
    requires inner { is_inner r.kind ≡ true }
    requires ready { IsReady code.now (atoms_of code.now.processes agent.old) r }
    ensures ok { OnOk result (Reduces r.kind code.now agent.old agent.new r (made_of r.kind false first first) still) }
    ensures name { agent.new.name ≡ agent.old.name }
    ensures err { OnErr result (Unchanged agent.old agent.new) }
{
    match r.kind {
        Kind::Stop => {
            agent.stop(code, r);
            Ok(())
        }
        Kind::Fork => agent.fork(alloc, code, r, first),
        Kind::New => agent.bind_new(alloc, code, r, first),
        Kind::Let => agent.bind_let(alloc, code, r),
        Kind::If => agent.branch(alloc, code, r),
        Kind::Comm => agent.comm(alloc, code, r),
        Kind::Rep => agent.rep(alloc, code, r),
        Kind::Open => agent.open_letter(alloc, code, r),
        Kind::Lookup => agent.look(alloc, code, r),
        _ => unreachable!(),
    }
}
