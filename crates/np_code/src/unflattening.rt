ghost use Rattle.std.specs.Prelude.{◌≡◌, ◌<◌, IfOk};
ghost use Rattle.np_syntax.specs.declared.process.ProcForm.{out-ProcForm};
ghost use Rattle.np_code.specs.Trees.{nth, layer_of, BelowForm};
ghost use Rattle.np_code.specs.Programs.{program};

use super::code::Code;
use super::node::NodeForm;
use super::table::Nodes;
use np_syntax::process_forms::{
    bind, channel, iflocal, input, lookup, migrate, open_letter, output, post, print, replicated,
    send, test,
};
use np_syntax::{LowProgram, Memory, Proc, ProcForm, copy_texts};
use std::alloc::Global;

/// The process that stands under a number.
#[cycle(raising)]
#[tactic(auto, using(crate::proofs::Layers::layers))]
fn raise(alloc: Global, table: &Nodes, id: u32) -> Result<Proc, Memory>
    ensures { IfOk result (λ p. p ≡ nth table.now id) }
{
    let node = table.at(id);
    let form = raise_form(alloc, table, id, &node.form)?;
    Proc::new(alloc, node.tag, node.at, form)
}

/// The form of the process of a node of this form, whose parts have numbers below `id`.
#[cycle(raising)]
fn raise_form(alloc: Global, table: &Nodes, id: u32, form: &NodeForm) -> Result<ProcForm, Memory>
    requires { BelowForm id form.now }
    ensures { IfOk result (λ f. out-ProcForm f ≡ layer_of table.now form.now) }
{
    match form {
        NodeForm::Stop => Ok(ProcForm::Stop),
        NodeForm::Par(left, right) => {
            let (left, right) = raise_two(alloc, table, id, *left, *right)?;
            Ok(ProcForm::Par(left, right))
        }
        NodeForm::New(chan, ty, body) => {
            let body = raise(alloc, table, *body)?;
            channel(alloc, *chan, ty, body)
        }
        NodeForm::Out(chan, value) => output(alloc, chan, value),
        NodeForm::Inp(chan, names, body) => {
            let body = raise(alloc, table, *body)?;
            input(alloc, chan, names, body)
        }
        NodeForm::Rep(chan, names, body) => {
            let body = raise(alloc, table, *body)?;
            replicated(alloc, chan, names, body)
        }
        NodeForm::Agent(agent, body, rest) => {
            let (body, rest) = raise_two(alloc, table, id, *body, *rest)?;
            Ok(ProcForm::Agent(*agent, body, rest))
        }
        NodeForm::Migrate(site, body) => {
            let body = raise(alloc, table, *body)?;
            migrate(alloc, site, body)
        }
        NodeForm::IfLocal(agent, chan, value, met, unmet) => {
            let (met, unmet) = raise_two(alloc, table, id, *met, *unmet)?;
            iflocal(alloc, agent, chan, value, met, unmet)
        }
        NodeForm::Send(agent, site, chan, value) => send(alloc, agent, site, chan, value),
        NodeForm::Post(agent, chan, value) => post(alloc, agent, chan, value),
        NodeForm::If(condition, met, unmet) => {
            let (met, unmet) = raise_two(alloc, table, id, *met, *unmet)?;
            test(alloc, condition, met, unmet)
        }
        NodeForm::Let(names, value, body) => {
            let body = raise(alloc, table, *body)?;
            bind(alloc, names, value, body)
        }
        NodeForm::Print(value) => print(alloc, value),
        NodeForm::Open(letter) => open_letter(alloc, letter),
        NodeForm::Lookup(agent, places, found, met, unmet) => {
            let (met, unmet) = raise_two(alloc, table, id, *met, *unmet)?;
            lookup(alloc, agent, places, *found, met, unmet)
        }
    }
}

/// The processes that stand under two numbers below `id`.
#[cycle(raising)]
fn raise_two(
    alloc: Global,
    table: &Nodes,
    id: u32,
    first: u32,
    second: u32,
) -> Result<(Proc, Proc), Memory>
    requires first { first < id }
    requires second { second < id }
    ensures { IfOk result (λ both. both ≡ (nth table.now first, nth table.now second)) }
{
    let first = raise(alloc, table, first)?;
    let second = raise(alloc, table, second)?;
    Ok((first, second))
}

/// The low program that a code stands for. So the code that `flatten` makes of a low program gives it back.
pub fn unflatten(alloc: Global, code: &Code) -> Result<LowProgram, Memory>
    ensures { IfOk result (λ p. p ≡ program code.now) }
{
    let main = raise(alloc, &code.nodes, code.main)?;
    let daemon = raise(alloc, &code.nodes, code.daemon)?;
    let sites = copy_texts(alloc, code.sites.as_slice())?;
    Ok(LowProgram {
        sites,
        at: code.at,
        main,
        daemon,
    })
}
