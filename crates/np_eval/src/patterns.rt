ghost use Rattle.std.specs.Prelude.{◌≡◌, IfOk};
ghost use Rattle.np_eval.specs.Eval.{bind};
ghost use Rattle.np_eval.specs.Levels.{bind_form, bind_all};
ghost use Rattle.np_eval.specs.Bound.{Bound};

use super::frame::Frame;
use np_syntax::{Memory, Pat, PatForm, Value};
use std::alloc::Global;

/// The frame with what the pattern gives the value put over it, or none where it does not match.
#[tactic(auto, using(crate::proofs::Binds::binds))]
pub fn bind(alloc: Global, p: &Pat, v: &Value, env: &Frame) -> Result<Option<Frame>, Memory>
    ensures { IfOk result (λ bound. bound ≡ bind p.now v.now env.now) }
{
    let mut bound = env.copy(alloc)?;
    if put_pattern(alloc, p, v, &mut bound)? {
        Ok(Some(bound))
    } else {
        Ok(None)
    }
}

#[tactic(auto, using(crate::proofs::Binds::binds))]
#[cycle(bind)]
fn put_pattern(alloc: Global, p: &Pat, v: &Value, env: &mut Frame) -> Result<bool, Memory>
    ensures { IfOk result (λ matched. Bound (bind p.now v.now env.old) matched env.new) }
{
    put_form(alloc, &p.form, v, env)
}

#[tactic(auto, using(crate::proofs::Binds::binds))]
#[cycle(bind)]
fn put_form(alloc: Global, form: &PatForm, v: &Value, env: &mut Frame) -> Result<bool, Memory>
    ensures { IfOk result (λ matched. Bound (bind_form form.now v.now env.old) matched env.new) }
{
    match form {
        PatForm::Any => Ok(true),
        PatForm::Bind(x) => {
            let value = v.copy(alloc)?;
            env.set(*x, value)?;
            Ok(true)
        }
        PatForm::Tuple(parts) => match v {
            Value::Tuple(values) => put_all(alloc, parts.as_slice(), values.as_slice(), env),
            _ => Ok(false),
        },
    }
}

#[tactic(auto, using(crate::proofs::Binds::binds))]
#[cycle(bind)]
fn put_all(alloc: Global, parts: &[Pat], values: &[Value], env: &mut Frame) -> Result<bool, Memory>
    ensures { IfOk result (λ matched. Bound (bind_all parts.now values.now env.old) matched env.new) }
{
    if parts.len() != values.len() {
        return Ok(false);
    }
    for at in 0..parts.len() {
        if !put_pattern(alloc, &parts[at], &values[at], env)? {
            return Ok(false);
        }
    }
    Ok(true)
}
