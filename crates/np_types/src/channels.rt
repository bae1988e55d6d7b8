ghost use Rattle.np_types.specs.Least.{least_of, output, input};
ghost use Rattle.np_types.specs.Told.{Told};
ghost use Rattle.np_types.specs.Worlds.{bare};

use super::checks::{ensure, read_on, written_on};
use super::env::Env;
use super::expressions::least;
use super::fault::{LeastFail, Rule};
use np_subtyping::sub;
use np_syntax::{Expr, Ty};
use std::alloc::Global;

/// The checks of an output of a value on a channel: whether there is no fault, or the first one.
pub fn output(alloc: Global, env: &Env, chan: &Expr, value: &Expr) -> Result<(), LeastFail>
    ensures { Told result (output (least_of bare env.now chan.now) (least_of bare env.now value.now)) }
{
    let carried = written_on(least(alloc, env, chan)?, chan.at)?;
    let given = least(alloc, env, value)?;
    ensure(sub(&given, &carried), value.at, Rule::Mismatch)
}

/// The checks of an input's channel: what it carries, or the first fault.
pub fn input(alloc: Global, env: &Env, chan: &Expr) -> Result<Ty, LeastFail>
    ensures { Told result (input (least_of bare env.now chan.now)) }
{
    read_on(least(alloc, env, chan)?, chan.at)
}
