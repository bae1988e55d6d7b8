//! The forms of nodes, of copies of what stands in them. The numbers are those of binders and of parts.

ghost use Rattle.std.specs.Prelude.{◌≡◌, IfOk};
ghost use Rattle.np_code.specs.declared.node.NodeForm.TheVariants as node;

use super::node::NodeForm;
use np_syntax::{Expr, Memory, Pat, Ty, copy_bound, copy_pair};
use std::alloc::Global;

pub fn channel(alloc: Global, chan: u32, ty: &Ty, body: u32) -> Result<NodeForm, Memory>
    ensures { IfOk result (λ form. form ≡ node.New chan ty.now body) }
{
    let ty = ty.copy(alloc)?;
    Ok(NodeForm::New(chan, ty, body))
}

pub fn output(alloc: Global, chan: &Expr, value: &Expr) -> Result<NodeForm, Memory>
    ensures { IfOk result (λ form. form ≡ node.Out chan.now value.now) }
{
    let (chan, value) = copy_pair(alloc, chan, value)?;
    Ok(NodeForm::Out(chan, value))
}

pub fn input(alloc: Global, chan: &Expr, names: &Pat, body: u32) -> Result<NodeForm, Memory>
    ensures { IfOk result (λ form. form ≡ node.Inp chan.now names.now body) }
{
    let (chan, names) = copy_bound(alloc, chan, names)?;
    Ok(NodeForm::Inp(chan, names, body))
}

pub fn replicated(alloc: Global, chan: &Expr, names: &Pat, body: u32) -> Result<NodeForm, Memory>
    ensures { IfOk result (λ form. form ≡ node.Rep chan.now names.now body) }
{
    let (chan, names) = copy_bound(alloc, chan, names)?;
    Ok(NodeForm::Rep(chan, names, body))
}

pub fn migrate(alloc: Global, site: &Expr, body: u32) -> Result<NodeForm, Memory>
    ensures { IfOk result (λ form. form ≡ node.Migrate site.now body) }
{
    let site = site.copy(alloc)?;
    Ok(NodeForm::Migrate(site, body))
}

pub fn iflocal(
    alloc: Global,
    agent: &Expr,
    chan: &Expr,
    value: &Expr,
    met: u32,
    unmet: u32,
) -> Result<NodeForm, Memory>
    ensures { IfOk result (λ form. form ≡ node.IfLocal agent.now chan.now value.now met unmet) }
{
    let agent = agent.copy(alloc)?;
    let (chan, value) = copy_pair(alloc, chan, value)?;
    Ok(NodeForm::IfLocal(agent, chan, value, met, unmet))
}

pub fn send(
    alloc: Global,
    agent: &Expr,
    site: &Expr,
    chan: &Expr,
    value: &Expr,
) -> Result<NodeForm, Memory>
    ensures { IfOk result (λ form. form ≡ node.Send agent.now site.now chan.now value.now) }
{
    let (agent, site) = copy_pair(alloc, agent, site)?;
    let (chan, value) = copy_pair(alloc, chan, value)?;
    Ok(NodeForm::Send(agent, site, chan, value))
}

pub fn post(alloc: Global, agent: &Expr, chan: &Expr, value: &Expr) -> Result<NodeForm, Memory>
    ensures { IfOk result (λ form. form ≡ node.Post agent.now chan.now value.now) }
{
    let agent = agent.copy(alloc)?;
    let (chan, value) = copy_pair(alloc, chan, value)?;
    Ok(NodeForm::Post(agent, chan, value))
}

pub fn test(alloc: Global, condition: &Expr, met: u32, unmet: u32) -> Result<NodeForm, Memory>
    ensures { IfOk result (λ form. form ≡ node.If condition.now met unmet) }
{
    let condition = condition.copy(alloc)?;
    Ok(NodeForm::If(condition, met, unmet))
}

pub fn bind(alloc: Global, names: &Pat, value: &Expr, body: u32) -> Result<NodeForm, Memory>
    ensures { IfOk result (λ form. form ≡ node.Let names.now value.now body) }
{
    let (value, names) = copy_bound(alloc, value, names)?;
    Ok(NodeForm::Let(names, value, body))
}

pub fn print(alloc: Global, value: &Expr) -> Result<NodeForm, Memory>
    ensures { IfOk result (λ form. form ≡ node.Print value.now) }
{
    let value = value.copy(alloc)?;
    Ok(NodeForm::Print(value))
}

pub fn open_letter(alloc: Global, letter: &Expr) -> Result<NodeForm, Memory>
    ensures { IfOk result (λ form. form ≡ node.Open letter.now) }
{
    let letter = letter.copy(alloc)?;
    Ok(NodeForm::Open(letter))
}

pub fn lookup(
    alloc: Global,
    agent: &Expr,
    places: &Expr,
    found: u32,
    met: u32,
    unmet: u32,
) -> Result<NodeForm, Memory>
    ensures { IfOk result (λ form. form ≡ node.Lookup agent.now places.now found met unmet) }
{
    let (agent, places) = copy_pair(alloc, agent, places)?;
    Ok(NodeForm::Lookup(agent, places, found, met, unmet))
}
