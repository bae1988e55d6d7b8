//! The walk over a process: its checks in reading order, under the types of the binders in scope. Where the checks of a
//! part pass, the types are those of before, so that no part is checked under the binders of another.

ghost use Rattle.std.specs.Prelude.{◌≡◌, OnOk};
ghost use Rattle.np_types.specs.Worlds.{bare};
ghost use Rattle.np_check.specs.Answers.{Gives};
ghost use Rattle.np_check.specs.Faults as spec;

use super::fail::CheckFail;
use super::heads::{
    carried, cover, for_channels, least, letter, lock_type, output, post, printable, send, site,
    sought, truth,
};
use np_syntax::{Expr, Pat, Proc, ProcForm, Ty};
use np_types::Env;
use std::alloc::Global;

/// The checks of a process. Where one fails, the types of binders may be those of an inner part.
#[tactic(auto, using(crate::proofs::Forms::forms))]
#[cycle(process)]
pub fn process(alloc: Global, env: &mut Env, p: &Proc) -> Result<(), CheckFail>
    ensures gives { Gives (spec.check bare p.now env.old) result }
    ensures kept { OnOk result (env.new ≡ env.old) }
{
    process_form(alloc, env, p.form.get(), p.at)
}

#[tactic(auto, using(crate::proofs::Forms::forms))]
#[cycle(process)]
fn process_form(alloc: Global, env: &mut Env, form: &ProcForm, at: u32) -> Result<(), CheckFail>
    ensures gives { Gives (spec.check_form bare form.now at env.old) result }
    ensures kept { OnOk result (env.new ≡ env.old) }
{
    match form {
        ProcForm::Stop => Ok(()),
        ProcForm::Par(left, right) => {
            process(alloc, env, left)?;
            process(alloc, env, right)
        }
        ProcForm::New(chan, ty, body) => new(alloc, env, body, *chan, ty, at),
        ProcForm::Out(chan, value) => output(alloc, env, chan, value),
        ProcForm::Inp(chan, names, body) | ProcForm::Rep(chan, names, body) => {
            input(alloc, env, body, chan, names)
        }
        ProcForm::Agent(agent, body, rest) => {
            with_binder(alloc, env, body, *agent, Ty::Agent)?;
            with_binder(alloc, env, rest, *agent, Ty::Agent)
        }
        ProcForm::Migrate(to, body) => migrate(alloc, env, body, to),
        ProcForm::IfLocal(agent, chan, value, met, unmet) => {
            post(alloc, env, agent, chan, value)?;
            process(alloc, env, met)?;
            process(alloc, env, unmet)
        }
        ProcForm::Send(agent, site, chan, value) => send(alloc, env, agent, site, chan, value),
        ProcForm::Post(agent, chan, value) => post(alloc, env, agent, chan, value),
        ProcForm::If(test, met, unmet) => {
            truth(alloc, env, test)?;
            process(alloc, env, met)?;
            process(alloc, env, unmet)
        }
        ProcForm::Let(names, value, body) => bind(alloc, env, body, names, value),
        ProcForm::Print(value) => printable(alloc, env, value),
        ProcForm::Open(value) => letter(alloc, env, value),
        ProcForm::Lookup(agent, places, lock, met, unmet) => {
            sought(alloc, env, agent, places)?;
            with_binder(alloc, env, met, *lock, lock_type(alloc)?)?;
            process(alloc, env, unmet)
        }
    }
}

/// A process under one more binder.
#[tactic(auto, using(crate::proofs::Binders::same_again))]
#[cycle(process)]
fn with_binder(
    alloc: Global,
    env: &mut Env,
    body: &Proc,
    binder: u32,
    ty: Ty,
) -> Result<(), CheckFail>
    ensures gives { Gives (spec.with_binder binder ty (spec.check bare body.now) env.old) result }
    ensures kept { OnOk result (env.new ≡ env.old) }
{
    let old = env.put(binder, ty)?;
    process(alloc, env, body)?;
    env.back(binder, old);
    Ok(())
}

/// A process under the names of a pattern, against this type.
#[tactic(auto, unfolding(crate::specs::Faults::with_names))]
#[cycle(process)]
fn with_names(
    alloc: Global,
    env: &mut Env,
    body: &Proc,
    names: &Pat,
    ty: &Ty,
) -> Result<(), CheckFail>
    ensures gives { Gives (spec.with_names names.now ty.now (spec.check bare body.now) env.old) result }
    ensures kept { OnOk result (env.new ≡ env.old) }
{
    let trail = cover(alloc, env, names, ty)?;
    process(alloc, env, body)?;
    env.rewind(trail);
    Ok(())
}

/// A new channel, and the process that it is for.
#[tactic(auto, unfolding(crate::specs::Faults::check_new))]
#[cycle(process)]
fn new(
    alloc: Global,
    env: &mut Env,
    body: &Proc,
    chan: u32,
    ty: &Ty,
    at: u32,
) -> Result<(), CheckFail>
    ensures gives { Gives (spec.check_new chan ty.now (spec.check bare body.now) at env.old) result }
    ensures kept { OnOk result (env.new ≡ env.old) }
{
    for_channels(ty, at)?;
    with_binder(alloc, env, body, chan, ty.copy(alloc)?)
}

/// An input, plain or replicated.
#[tactic(auto, unfolding(crate::specs::Faults::check_input))]
#[cycle(process)]
fn input(
    alloc: Global,
    env: &mut Env,
    body: &Proc,
    chan: &Expr,
    names: &Pat,
) -> Result<(), CheckFail>
    ensures gives { Gives (spec.check_input bare chan.now names.now (spec.check bare body.now) env.old) result }
    ensures kept { OnOk result (env.new ≡ env.old) }
{
    let ty = carried(alloc, env, chan)?;
    with_names(alloc, env, body, names, &ty)
}

#[tactic(auto, unfolding(crate::specs::Faults::check_migrate))]
#[cycle(process)]
fn migrate(alloc: Global, env: &mut Env, body: &Proc, to: &Expr) -> Result<(), CheckFail>
    ensures gives { Gives (spec.check_migrate bare to.now (spec.check bare body.now) env.old) result }
    ensures kept { OnOk result (env.new ≡ env.old) }
{
    site(alloc, env, to)?;
    process(alloc, env, body)
}

/// A `let`.
#[tactic(auto, unfolding(crate::specs::Faults::check_let))]
#[cycle(process)]
fn bind(
    alloc: Global,
    env: &mut Env,
    body: &Proc,
    names: &Pat,
    value: &Expr,
) -> Result<(), CheckFail>
    ensures gives { Gives (spec.check_let bare names.now value.now (spec.check bare body.now) env.old) result }
    ensures kept { OnOk result (env.new ≡ env.old) }
{
    let ty = least(alloc, env, value)?;
    with_names(alloc, env, body, names, &ty)
}
