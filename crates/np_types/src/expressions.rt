ghost use Rattle.std.specs.FinMap as map;
ghost use Rattle.np_syntax.specs.declared.types.Ty as shape;
ghost use Rattle.np_types.specs.declared.fault.Rule.TheVariants as rule;
ghost use Rattle.np_types.specs.Checks.{checked, want};
ghost use Rattle.np_types.specs.Least.{least, least_form, leasts};
ghost use Rattle.np_types.specs.Told.{Told};
ghost use Rattle.np_types.specs.Widths.{narrow};
ghost use Rattle.np_types.specs.Worlds.{bare, kind};

use super::checks::{fault, written_on};
use super::env::Env;
use super::fault::{LeastFail, Rule};
use super::operands::{ensure_agent, ensure_places, first_operand, letter, operated, with_lock};
use super::values::kind;
use super::widths::is_narrow;
use np_syntax::{Expr, ExprForm, List, Ty, Value};
use std::alloc::Global;

/// The least type of an expression, or its first fault. A variable without a type, and a value without one,
/// are faults too.
#[tactic(auto, using(crate::proofs::Leasts::least_types))]
#[cycle(least)]
pub fn least(alloc: Global, env: &Env, e: &Expr) -> Result<Ty, LeastFail>
    ensures { Told result (least bare env.now e.now) }
{
    least_form(alloc, env, e.form.get(), e.at)
}

#[tactic(auto, using(crate::proofs::Leasts::least_types))]
#[cycle(least)]
fn least_form(alloc: Global, env: &Env, form: &ExprForm, at: u32) -> Result<Ty, LeastFail>
    ensures { Told result (least_form bare env.now form.now at) }
{
    match form {
        ExprForm::Val(value) => value_type(alloc, value, at),
        ExprForm::Var(binder) => binder_type(alloc, env, *binder, at),
        ExprForm::Tuple(parts) => tuple_type(leasts(alloc, env, parts.as_slice())?, at),
        ExprForm::Bin(op, left, right) => {
            let first = first_operand(*op, least(alloc, env, left)?, left.at)?;
            let second = least(alloc, env, right)?;
            operated(*op, first, second, right.at)
        }
        ExprForm::Pack(chan, value) => {
            let carried = written_on(least(alloc, env, chan)?, chan.at)?;
            let given = least(alloc, env, value)?;
            letter(given, carried, value.at)
        }
        ExprForm::With(places, agent, lock) => {
            ensure_places(least(alloc, env, places)?, places.at)?;
            ensure_agent(least(alloc, env, agent)?, agent.at)?;
            with_lock(least(alloc, env, lock)?, lock.at)
        }
    }
}

#[tactic(auto, using(crate::proofs::Leasts::least_types))]
#[cycle(least)]
fn leasts(alloc: Global, env: &Env, parts: &[Expr]) -> Result<List<Ty>, LeastFail>
    ensures { Told result (leasts bare env.now parts.now) }
{
    let mut types = List::new(alloc);
    for part in parts {
        types.add(least(alloc, env, part)?)?;
    }
    Ok(types)
}

/// The type of a value, or a fault where it has none.
fn value_type(alloc: Global, value: &Value, at: u32) -> Result<Ty, LeastFail>
    ensures { Told result (want (kind bare value.now) at rule.Mismatch) }
{
    match kind(alloc, value)? {
        Some(ty) => Ok(ty),
        None => fault(at, Rule::Mismatch),
    }
}

/// The type of a variable, or a fault where it has none.
fn binder_type(alloc: Global, env: &Env, binder: u32, at: u32) -> Result<Ty, LeastFail>
    ensures { Told result (want (map.get env.now binder) at rule.Mismatch) }
{
    match env.get(binder) {
        Some(ty) => Ok(ty.copy(alloc)?),
        None => fault(at, Rule::Mismatch),
    }
}

/// The type of a tuple, or a fault where it is too wide.
fn tuple_type(types: List<Ty>, at: u32) -> Result<Ty, LeastFail>
    ensures { Told result (checked (narrow (shape.Tuple types)) at rule.Wide (shape.Tuple types)) }
{
    let ty = Ty::Tuple(types);
    if is_narrow(&ty) {
        Ok(ty)
    } else {
        fault(at, Rule::Wide)
    }
}
