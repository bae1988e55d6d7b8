ghost use Rattle.std.specs.Prelude.{◌≡◌, IfOk};
ghost use Rattle.np_eval.specs.Eval.{chan_of, agent_of, truth_of, letter_of, places_of, find_place, as_chan};
ghost use Rattle.np_syntax.specs.declared.value.Value.{out-Value};
ghost use Rattle.np_eval.specs.Forms.{layer};
ghost use Rattle.np_eval.specs.Errands.{errand_at, taking};

use super::frame::Frame;
use super::values::eval;
use np_syntax::{Expr, ExprForm, List, Memory, Name, Proc, ProcForm, Value};
use np_tables::{Errand, Meeting};
use std::alloc::Global;

/// The channel that an expression names, without a copy of its value.
#[tactic(auto, using(crate::proofs::Chans::chans, crate::proofs::Evals::evals))]
pub fn chan_of(e: &Expr, env: &Frame) -> Option<Name>
    ensures { result ≡ chan_of e.now env.now }
{
    match e.form.get() {
        ExprForm::Val(v) => as_chan(v),
        ExprForm::Var(x) => match env.get(*x) {
            Some(v) => as_chan(v),
            None => None,
        },
        ExprForm::Tuple(_) => None,
        ExprForm::Bin(_, _, _) => None,
        ExprForm::Pack(_, _) => None,
        ExprForm::With(_, _, _) => None,
    }
}

fn as_chan(v: &Value) -> Option<Name>
    ensures { result ≡ as_chan (out-Value v.now) }
{
    match v {
        Value::Chan(c) => Some(*c),
        _ => None,
    }
}

/// The agent that an expression names.
pub fn agent_of(alloc: Global, e: &Expr, env: &Frame) -> Result<Option<Name>, Memory>
    ensures { IfOk result (λ agent. agent ≡ agent_of e.now env.now) }
{
    match &eval(alloc, e, env)? {
        Some(Value::Agent(agent)) => Ok(Some(*agent)),
        _ => Ok(None),
    }
}

/// The truth value of an expression.
pub fn truth_of(alloc: Global, e: &Expr, env: &Frame) -> Result<Option<bool>, Memory>
    ensures { IfOk result (λ truth. truth ≡ truth_of e.now env.now) }
{
    match &eval(alloc, e, env)? {
        Some(Value::Truth(truth)) => Ok(Some(*truth)),
        _ => Ok(None),
    }
}

/// The channel and the value of the letter that an expression gives.
pub fn letter_of(alloc: Global, e: &Expr, env: &Frame) -> Result<Option<(Name, Value)>, Memory>
    ensures { IfOk result (λ letter. letter ≡ letter_of e.now env.now) }
{
    match eval(alloc, e, env)? {
        Some(value) => Ok(value.into_letter()),
        None => Ok(None),
    }
}

/// The map of places that an expression gives.
pub fn places_of(alloc: Global, e: &Expr, env: &Frame) -> Result<Option<List<(Name, Name)>>, Memory>
    ensures { IfOk result (λ places. places ≡ places_of e.now env.now) }
{
    match eval(alloc, e, env)? {
        Some(value) => Ok(value.into_places()),
        None => Ok(None),
    }
}

/// The channel that a map of places has for an agent.
pub fn find_place(pairs: &[(Name, Name)], agent: Name) -> Option<Name>
    ensures { result ≡ find_place pairs.now agent }
{
    for pair in pairs {
        if pair.0 == agent {
            return Some(pair.1);
        }
    }
    None
}

/// What a process of this agent waits for.
pub fn errand_of(agent: Name, proc: &Proc, env: &Frame) -> Errand
    ensures { result ≡ errand_at agent env.now (layer proc.now) }
{
    match proc.form.get() {
        ProcForm::Out(chan, _) => match chan_of(chan, env) {
            Some(chan) => Errand::Gives(Meeting { agent, chan }),
            None => Errand::Stuck,
        },
        ProcForm::Inp(chan, _, _) => takes(agent, chan_of(chan, env)),
        ProcForm::Rep(chan, _, _) => takes(agent, chan_of(chan, env)),
        _ => Errand::Acts,
    }
}

fn takes(agent: Name, chan: Option<Name>) -> Errand
    ensures { result ≡ taking agent chan }
{
    match chan {
        Some(chan) => Errand::Takes(Meeting { agent, chan }),
        None => Errand::Stuck,
    }
}
