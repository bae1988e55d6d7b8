//! The forms of processes, of copies of what stands in them and of their parts.

ghost use Rattle.std.specs.Prelude.{◌≡◌, IfOk};
ghost use Rattle.np_syntax.specs.declared.process.ProcForm as shape;

use super::copies::{copy_bound, copy_pair};
use super::expression::Expr;
use super::memory::Memory;
use super::pattern::Pat;
use super::process::{Proc, ProcForm};
use super::types::Ty;
use std::alloc::Global;

pub fn channel(alloc: Global, chan: u32, ty: &Ty, body: Proc) -> Result<ProcForm, Memory>
    ensures { IfOk result (λ form. form ≡ shape.New chan ty.now body) }
{
    let ty = ty.copy(alloc)?;
    Ok(ProcForm::New(chan, ty, body))
}

pub fn output(alloc: Global, chan: &Expr, value: &Expr) -> Result<ProcForm, Memory>
    ensures { IfOk result (λ form. form ≡ shape.Out chan.now value.now) }
{
    let (chan, value) = copy_pair(alloc, chan, value)?;
    Ok(ProcForm::Out(chan, value))
}

pub fn input(alloc: Global, chan: &Expr, names: &Pat, body: Proc) -> Result<ProcForm, Memory>
    ensures { IfOk result (λ form. form ≡ shape.Inp chan.now names.now body) }
{
    let (chan, names) = copy_bound(alloc, chan, names)?;
    Ok(ProcForm::Inp(chan, names, body))
}

pub fn replicated(alloc: Global, chan: &Expr, names: &Pat, body: Proc) -> Result<ProcForm, Memory>
    ensures { IfOk result (λ form. form ≡ shape.Rep chan.now names.now body) }
{
    let (chan, names) = copy_bound(alloc, chan, names)?;
    Ok(ProcForm::Rep(chan, names, body))
}

pub fn migrate(alloc: Global, site: &Expr, body: Proc) -> Result<ProcForm, Memory>
    ensures { IfOk result (λ form. form ≡ shape.Migrate site.now body) }
{
    let site = site.copy(alloc)?;
    Ok(ProcForm::Migrate(site, body))
}

pub fn iflocal(
    alloc: Global,
    agent: &Expr,
    chan: &Expr,
    value: &Expr,
    met: Proc,
    unmet: Proc,
) -> Result<ProcForm, Memory>
    ensures { IfOk result (λ form. form ≡ shape.IfLocal agent.now chan.now value.now met unmet) }
{
    let agent = agent.copy(alloc)?;
    let (chan, value) = copy_pair(alloc, chan, value)?;
    Ok(ProcForm::IfLocal(agent, chan, value, met, unmet))
}

pub fn send(
    alloc: Global,
    agent: &Expr,
    site: &Expr,
    chan: &Expr,
    value: &Expr,
) -> Result<ProcForm, Memory>
    ensures { IfOk result (λ form. form ≡ shape.Send agent.now site.now chan.now value.now) }
{
    let (agent, site) = copy_pair(alloc, agent, site)?;
    let (chan, value) = copy_pair(alloc, chan, value)?;
    Ok(ProcForm::Send(agent, site, chan, value))
}

pub fn post(alloc: Global, agent: &Expr, chan: &Expr, value: &Expr) -> Result<ProcForm, Memory>
    ensures { IfOk result (λ form. form ≡ shape.Post agent.now chan.now value.now) }
{
    let agent = agent.copy(alloc)?;
    let (chan, value) = copy_pair(alloc, chan, value)?;
    Ok(ProcForm::Post(agent, chan, value))
}

pub fn test(alloc: Global, condition: &Expr, met: Proc, unmet: Proc) -> Result<ProcForm, Memory>
    ensures { IfOk result (λ form. form ≡ shape.If condition.now met unmet) }
{
    let condition = condition.copy(alloc)?;
    Ok(ProcForm::If(condition, met, unmet))
}

pub fn bind(alloc: Global, names: &Pat, value: &Expr, body: Proc) -> Result<ProcForm, Memory>
    ensures { IfOk result (λ form. form ≡ shape.Let names.now value.now body) }
{
    let (value, names) = copy_bound(alloc, value, names)?;
    Ok(ProcForm::Let(names, value, body))
}

pub fn print(alloc: Global, value: &Expr) -> Result<ProcForm, Memory>
    ensures { IfOk result (λ form. form ≡ shape.Print value.now) }
{
    let value = value.copy(alloc)?;
    Ok(ProcForm::Print(value))
}

pub fn open_letter(alloc: Global, letter: &Expr) -> Result<ProcForm, Memory>
    ensures { IfOk result (λ form. form ≡ shape.Open letter.now) }
{
    let letter = letter.copy(alloc)?;
    Ok(ProcForm::Open(letter))
}

pub fn lookup(
    alloc: Global,
    agent: &Expr,
    places: &Expr,
    found: u32,
    met: Proc,
    unmet: Proc,
) -> Result<ProcForm, Memory>
    ensures { IfOk result (λ form. form ≡ shape.Lookup agent.now places.now found met unmet) }
{
    let (agent, places) = copy_pair(alloc, agent, places)?;
    Ok(ProcForm::Lookup(agent, places, found, met, unmet))
}
