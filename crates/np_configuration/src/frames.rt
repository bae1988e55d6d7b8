ghost use Rattle.std.specs.Prelude.{◌≡◌, IfOk};
ghost use Rattle.std.specs.FinMap as map;
ghost use Rattle.np_syntax.specs.declared.value.Value as value;
ghost use Rattle.np_configuration.specs.Found.{found_env};
ghost use Rattle.np_configuration.specs.Views.{bound_to};

use np_eval::{Frame, bind, eval};
use np_syntax::{Expr, Memory, Name, Pat, Value};
use std::alloc::Global;

/// The frame in which a pattern is bound to the value of an expression.
pub fn bound(alloc: Global, pat: &Pat, e: &Expr, env: &Frame) -> Result<Option<Frame>, Memory>
    ensures { IfOk result (λ bound. bound ≡ bound_to pat.now e.now env.now) }
{
    let Some(value) = eval(alloc, e, env)? else {
        return Ok(None);
    };
    bind(alloc, pat, &value, env)
}

/// A copy of a frame, with a channel as a binder's value.
pub fn with_chan(alloc: Global, frame: &Frame, binder: u32, chan: Name) -> Result<Frame, Memory>
    ensures { IfOk result (λ copied. copied ≡ map.insert frame.now binder (value.Chan chan)) }
{
    let mut copied = frame.copy(alloc)?;
    copied.set(binder, Value::Chan(chan))?;
    Ok(copied)
}

/// The same with what was found, if anything was.
pub fn with_found(
    alloc: Global,
    frame: &Frame,
    binder: u32,
    found: Option<Name>,
) -> Result<Frame, Memory>
    ensures { IfOk result (λ copied. copied ≡ found_env frame.now binder found) }
{
    match found {
        Some(lock) => with_chan(alloc, frame, binder, lock),
        None => frame.copy(alloc),
    }
}

/// Two copies of a frame, with an agent as a binder's value.
pub fn two_with_agent(
    alloc: Global,
    frame: &Frame,
    binder: u32,
    agent: Name,
) -> Result<(Frame, Frame), Memory>
    ensures first { IfOk result (λ copied. copied.0 ≡ map.insert frame.now binder (value.Agent agent)) }
    ensures second { IfOk result (λ copied. copied.1 ≡ map.insert frame.now binder (value.Agent agent)) }
{
    let mut copied = frame.copy(alloc)?;
    copied.set(binder, Value::Agent(agent))?;
    let again = copied.copy(alloc)?;
    Ok((copied, again))
}
