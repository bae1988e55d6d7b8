//! The parts of a process, and the form of its node.

ghost use Rattle.std.specs.Prelude.{◌≡◌, IfOk};
ghost use Rattle.std.specs.Option.{option_copied};
ghost use Rattle.np_syntax.specs.declared.process.ProcForm.{out-ProcForm};
ghost use Rattle.np_code.specs.Parts.{first_of, second_of};
ghost use Rattle.np_code.specs.Trees.{numbered};

use super::node::NodeForm;
use super::node_forms::{
    bind, channel, iflocal, input, lookup, migrate, open_letter, output, post, print, replicated,
    send, test,
};
use np_syntax::{Memory, Proc, ProcForm};
use std::alloc::Global;

/// The processes that are parts of a process.
pub fn parts(form: &ProcForm) -> (Option<&Proc>, Option<&Proc>)
    ensures first { option_copied result.0 ≡ first_of (out-ProcForm form.now) }
    ensures second { option_copied result.1 ≡ second_of (out-ProcForm form.now) }
{
    match form {
        ProcForm::Stop
        | ProcForm::Out(_, _)
        | ProcForm::Send(_, _, _, _)
        | ProcForm::Post(_, _, _)
        | ProcForm::Print(_)
        | ProcForm::Open(_) => (None, None),
        ProcForm::New(_, _, body)
        | ProcForm::Inp(_, _, body)
        | ProcForm::Rep(_, _, body)
        | ProcForm::Migrate(_, body)
        | ProcForm::Let(_, _, body) => (Some(body), None),
        ProcForm::Par(first, second)
        | ProcForm::Agent(_, first, second)
        | ProcForm::IfLocal(_, _, _, first, second)
        | ProcForm::If(_, first, second)
        | ProcForm::Lookup(_, _, _, first, second) => (Some(first), Some(second)),
    }
}

/// The form of the node of a process, whose parts have these numbers.
pub fn numbered(alloc: Global, form: &ProcForm, first: u32, second: u32) -> Result<NodeForm, Memory>
    ensures { IfOk result (λ node. node ≡ numbered (out-ProcForm form.now) first second) }
{
    match form {
        ProcForm::Stop => Ok(NodeForm::Stop),
        ProcForm::Par(_, _) => Ok(NodeForm::Par(first, second)),
        ProcForm::New(chan, ty, _) => channel(alloc, *chan, ty, first),
        ProcForm::Out(chan, value) => output(alloc, chan, value),
        ProcForm::Inp(chan, names, _) => input(alloc, chan, names, first),
        ProcForm::Rep(chan, names, _) => replicated(alloc, chan, names, first),
        ProcForm::Agent(agent, _, _) => Ok(NodeForm::Agent(*agent, first, second)),
        ProcForm::Migrate(site, _) => migrate(alloc, site, first),
        ProcForm::IfLocal(agent, chan, value, _, _) => {
            iflocal(alloc, agent, chan, value, first, second)
        }
        ProcForm::Send(agent, site, chan, value) => send(alloc, agent, site, chan, value),
        ProcForm::Post(agent, chan, value) => post(alloc, agent, chan, value),
        ProcForm::If(condition, _, _) => test(alloc, condition, first, second),
        ProcForm::Let(names, value, _) => bind(alloc, names, value, first),
        ProcForm::Print(value) => print(alloc, value),
        ProcForm::Open(letter) => open_letter(alloc, letter),
        ProcForm::Lookup(agent, places, found, _, _) => {
            lookup(alloc, agent, places, *found, first, second)
        }
    }
}
