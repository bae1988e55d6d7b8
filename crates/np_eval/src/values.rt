ghost use Rattle.std.specs.Prelude.{◌≡◌, IfOk, ◌+ℤ◌, ◌-ℤ◌, ◌*ℤ◌};
ghost use Rattle.std.specs.Int.{int_wrap, w64};
ghost use Rattle.np_syntax.specs.declared.expression.Op.TheVariants as op;
ghost use Rattle.np_syntax.specs.declared.value.Value as value;
ghost use Rattle.np_syntax.specs.declared.value.Value.{out-Value};
ghost use Rattle.np_eval.specs.Eval.{eval, equal_at, operate, pack, with_place, put_place};
ghost use Rattle.np_eval.specs.Levels.{eval_form, eval_all};

use super::frame::Frame;
use np_syntax::{Boxed, Expr, ExprForm, List, Memory, Name, Op, Value};
use std::alloc::Global;

/// The value of an expression, or none where an operand has the wrong form.
#[tactic(auto, using(crate::proofs::Evals::evals))]
#[cycle(eval)]
pub fn eval(alloc: Global, e: &Expr, env: &Frame) -> Result<Option<Value>, Memory>
    ensures { IfOk result (λ v. v ≡ eval e.now env.now) }
{
    eval_form(alloc, e.form.get(), env)
}

#[tactic(auto, using(crate::proofs::Evals::evals))]
#[cycle(eval)]
fn eval_form(alloc: Global, form: &ExprForm, env: &Frame) -> Result<Option<Value>, Memory>
    ensures { IfOk result (λ v. v ≡ eval_form form.now env.now) }
{
    match form {
        ExprForm::Val(v) => Ok(Some(v.copy(alloc)?)),
        ExprForm::Var(x) => match env.get(*x) {
            Some(v) => Ok(Some(v.copy(alloc)?)),
            None => Ok(None),
        },
        ExprForm::Tuple(parts) => match eval_all(alloc, parts.as_slice(), env)? {
            Some(values) => Ok(Some(Value::Tuple(values))),
            None => Ok(None),
        },
        ExprForm::Bin(op, a, b) => {
            let Some(x) = eval(alloc, a, env)? else {
                return Ok(None);
            };
            let Some(y) = eval(alloc, b, env)? else {
                return Ok(None);
            };
            Ok(operate(*op, &x, &y))
        }
        ExprForm::Pack(chan, e) => {
            let Some(chan) = eval(alloc, chan, env)? else {
                return Ok(None);
            };
            let Some(v) = eval(alloc, e, env)? else {
                return Ok(None);
            };
            pack(alloc, &chan, v)
        }
        ExprForm::With(places, agent, lock) => {
            let Some(places) = eval(alloc, places, env)? else {
                return Ok(None);
            };
            let Some(agent) = eval(alloc, agent, env)? else {
                return Ok(None);
            };
            let Some(lock) = eval(alloc, lock, env)? else {
                return Ok(None);
            };
            with_place(alloc, &places, &agent, &lock)
        }
    }
}

#[tactic(auto, using(crate::proofs::Evals::evals))]
#[cycle(eval)]
fn eval_all(alloc: Global, parts: &[Expr], env: &Frame) -> Result<Option<List<Value>>, Memory>
    ensures { IfOk result (λ vs. vs ≡ eval_all parts.now env.now) }
{
    let mut values = List::new(alloc);
    for part in parts {
        let Some(v) = eval(alloc, part, env)? else {
            return Ok(None);
        };
        values.add(v)?;
    }
    Ok(Some(values))
}

/// The letter of a channel and a value.
fn pack(alloc: Global, chan: &Value, v: Value) -> Result<Option<Value>, Memory>
    ensures { IfOk result (λ packed. packed ≡ pack chan.now v) }
{
    match chan {
        Value::Chan(c) => Ok(Some(Value::Letter(*c, Boxed::of(alloc, v)?))),
        _ => Ok(None),
    }
}

/// The map of places with an agent's channel.
fn with_place(
    alloc: Global,
    places: &Value,
    agent: &Value,
    lock: &Value,
) -> Result<Option<Value>, Memory>
    ensures { IfOk result (λ v. v ≡ with_place places.now agent.now lock.now) }
{
    let Value::Places(pairs) = places else {
        return Ok(None);
    };
    let Value::Agent(a) = agent else {
        return Ok(None);
    };
    let Value::Chan(l) = lock else {
        return Ok(None);
    };
    let pairs = put_place(alloc, pairs.as_slice(), *a, *l)?;
    Ok(Some(Value::Places(pairs)))
}

fn put_place(
    alloc: Global,
    pairs: &[(Name, Name)],
    agent: Name,
    lock: Name,
) -> Result<List<(Name, Name)>, Memory>
    ensures { IfOk result (λ put. put ≡ put_place pairs.now agent lock) }
{
    let mut put = List::new(alloc);
    for (at, pair) in pairs.iter().enumerate() {
        if pair.0 == agent {
            put.add((agent, lock))?;
            put.append(&pairs[at + 1..])?;
            return Ok(put);
        }
        put.add(*pair)?;
    }
    put.add((agent, lock))?;
    Ok(put)
}

fn operate(op: Op, x: &Value, y: &Value) -> Option<Value>
    ensures { result ≡ operate op x.now y.now }
{
    match op {
        Op::Equal => match equal(x, y) {
            Some(same) => Some(Value::Truth(same)),
            None => None,
        },
        _ => match x {
            Value::Int(a) => match y {
                Value::Int(b) => number(op, *a, *b),
                _ => None,
            },
            _ => None,
        },
    }
}

fn number(o: Op, a: i64, b: i64) -> Option<Value>
    requires { ¬ (o ≡ op.Equal) }
    ensures { result ≡ operate o (value.Int a) (value.Int b) }
{
    match o {
        Op::Add => Some(Value::Int(add(a, b))),
        Op::Sub => Some(Value::Int(sub(a, b))),
        Op::Mul => Some(Value::Int(mul(a, b))),
        Op::Less => Some(Value::Truth(a < b)),
        Op::Equal => unreachable!(),
    }
}

fn equal(x: &Value, y: &Value) -> Option<bool>
    ensures { result ≡ equal_at (out-Value x.now) (out-Value y.now) }
{
    match (x, y) {
        (Value::Int(a), Value::Int(b)) => Some(*a == *b),
        (Value::Truth(a), Value::Truth(b)) => Some(*a == *b),
        (Value::Str(a), Value::Str(b)) => Some(a.as_slice() == b.as_slice()),
        (Value::Site(a), Value::Site(b)) => Some(*a == *b),
        (Value::Agent(a), Value::Agent(b)) => Some(*a == *b),
        _ => None,
    }
}

fn add(a: i64, b: i64) -> i64
    ensures { result ≡ int_wrap w64 (a +ℤ b) }
{
    a.wrapping_add(b)
}

fn sub(a: i64, b: i64) -> i64
    ensures { result ≡ int_wrap w64 (a -ℤ b) }
{
    a.wrapping_sub(b)
}

fn mul(a: i64, b: i64) -> i64
    ensures { result ≡ int_wrap w64 (a *ℤ b) }
{
    a.wrapping_mul(b)
}
