//! Where the words of the processes of a source begin, and which of its names are those of agents.

use np_syntax::{Kind, List, Made, Memory, Proc, ProcForm, Text};
use picture_svg::Binder;
use run_pictures::Step;
use source_words::{Head, Named};
use std::alloc::Global;

/// How many colours there are for agents.
const HUES: u32 = 7;

/// Notes where the words of a process begin, unless it is a bracket, and those of its parts.
fn add_heads(heads: &mut List<Head>, p: &Proc) -> Result<(), Memory> {
    let head = Head {
        at: p.at,
        node: p.tag.node,
    };
    match p.form.get() {
        ProcForm::Par(first, second) => {
            add_heads(heads, first)?;
            add_heads(heads, second)
        }
        ProcForm::Agent(_, first, second)
        | ProcForm::If(_, first, second)
        | ProcForm::IfLocal(_, _, _, first, second)
        | ProcForm::Lookup(_, _, _, first, second) => {
            heads.add(head)?;
            add_heads(heads, first)?;
            add_heads(heads, second)
        }
        ProcForm::New(_, _, body)
        | ProcForm::Inp(_, _, body)
        | ProcForm::Rep(_, _, body)
        | ProcForm::Migrate(_, body)
        | ProcForm::Let(_, _, body) => {
            heads.add(head)?;
            add_heads(heads, body)
        }
        ProcForm::Stop
        | ProcForm::Out(_, _)
        | ProcForm::Send(_, _, _, _)
        | ProcForm::Post(_, _, _)
        | ProcForm::Print(_)
        | ProcForm::Open(_) => heads.add(head),
    }
}

/// Where the words of the processes of a source begin, in its order.
pub(super) fn heads_of(alloc: Global, main: &Proc) -> Result<List<Head>, Memory> {
    let mut heads = List::new(alloc);
    add_heads(&mut heads, main)?;
    Ok(heads)
}

/// How the process of a node names the agents that it makes.
fn name_at(binders: &[Binder], node: u32) -> Option<&Text> {
    for binder in binders {
        if binder.node == node {
            return Some(&binder.name);
        }
    }
    None
}

fn is_named(named: &[Named], name: &[u8]) -> bool {
    for one in named {
        if one.name.as_slice() == name {
            return true;
        }
    }
    false
}

/// Notes the name of an agent that the process of a node makes, unless it is noted.
fn add_name(
    alloc: Global,
    named: &mut List<Named>,
    binders: &[Binder],
    node: u32,
    hue: u32,
) -> Result<(), Memory> {
    let Some(name) = name_at(binders, node) else {
        return Ok(());
    };
    if is_named(named.as_slice(), name.as_slice()) {
        return Ok(());
    }
    let name = name.copy(alloc)?;
    named.add(Named { name, hue })
}

/// The names of the agents of a run, each with the number of the colour of the first agent of this name.
pub(super) fn names_of(
    alloc: Global,
    binders: &[Binder],
    steps: &[Step],
) -> Result<List<Named>, Memory> {
    let mut named = List::new(alloc);
    let mut births = 0u32;
    for step in steps {
        if let (Kind::Agent, Made::Two(_, _)) = (step.event.kind, step.event.made) {
            let node = step.event.tag.node;
            add_name(alloc, &mut named, binders, node, births % HUES)?;
            births = births.saturating_add(1);
        }
    }
    Ok(named)
}
