ghost use Rattle.std.specs.Prelude.{◌≡◌, ◌<◌, ◌≤◌, ◌+◌, ◌^◌, Err, length, IfOk, OnOk, IfErr};
ghost use Rattle.std.specs.Option.{option_copied};
ghost use Rattle.np_code.specs.Trees.{nth, Stands, Grows};
ghost use Rattle.np_code.specs.Sizes.{nodes, part_nodes, program_nodes, capped};
ghost use Rattle.np_code.specs.Programs.{program};
ghost use Rattle.np_code.specs.declared.fail.CodeFail.TheVariants as fail;
ghost use Rattle.np_code.specs.declared.limits.TheConstants.{MOST_CODE_NODES};

use super::code::Code;
use super::fail::CodeFail;
use super::limits::MOST_CODE_NODES;
use super::node::Node;
use super::parts::{numbered, parts};
use super::sizes::count_both;
use super::table::Nodes;
use np_syntax::{LowProgram, Memory, Proc, copy_texts};
use std::alloc::Global;

/// Puts the nodes of a process behind the others, and answers its number.
#[cycle(laying)]
#[tactic(auto, using(crate::proofs::NodeCounts::counts, crate::proofs::Growth::growth))]
fn lay(alloc: Global, table: &mut Nodes, p: &Proc) -> Result<u32, Memory>
    requires { length table.old + nodes p.now ≤ MOST_CODE_NODES }
    ensures process { IfOk result (λ id. nth table.new id ≡ p.now) }
    ensures within { IfOk result (λ id. id < length table.new) }
    ensures grows { OnOk result (Grows table.old table.new) }
    ensures size { OnOk result (length table.new ≡ length table.old + nodes p.now) }
{
    let (first, second) = parts(p.form.get());
    let first = lay_part(alloc, table, first)?;
    let second = lay_part(alloc, table, second)?;
    let form = numbered(alloc, p.form.get(), first, second)?;
    let id = table.len();
    table.put(Node {
        tag: p.tag,
        at: p.at,
        form,
    })?;
    Ok(id)
}

/// The same of a part, where there is one.
#[cycle(laying)]
#[tactic(auto, using(crate::proofs::Growth::growth))]
fn lay_part(alloc: Global, table: &mut Nodes, part: Option<&Proc>) -> Result<u32, Memory>
    requires { length table.old + part_nodes (option_copied part) ≤ MOST_CODE_NODES }
    ensures part { IfOk result (λ id. Stands table.new (option_copied part.entry) id) }
    ensures grows { OnOk result (Grows table.old table.new) }
    ensures size { OnOk result (length table.new ≡ length table.old + part_nodes (option_copied part.entry)) }
{
    match part {
        Some(p) => lay(alloc, table, p),
        None => Ok(0),
    }
}

/// The table of a low program whose nodes are not too many.
#[tactic(auto, using(crate::proofs::Growth::growth))]
fn tabled(alloc: Global, p: &LowProgram) -> Result<Code, Memory>
    requires sites { length p.now.sites < 2 ^ 32 }
    requires few { program_nodes p.now ≤ MOST_CODE_NODES }
    ensures program { IfOk result (λ code. program code ≡ p.now) }
    ensures size { IfOk result (λ code. length code.processes ≡ program_nodes p.now) }
{
    let mut nodes = Nodes::new(alloc)?;
    let main = lay(alloc, &mut nodes, &p.main)?;
    let daemon = lay(alloc, &mut nodes, &p.daemon)?;
    let sites = copy_texts(alloc, p.sites.as_slice())?;
    Ok(Code {
        sites,
        at: p.at,
        nodes,
        main,
        daemon,
    })
}

/// The code of a low program.
#[tactic(auto, unfolding(crate::specs::Sizes::capped))]
pub fn flatten(alloc: Global, p: &LowProgram) -> Result<Code, CodeFail>
    requires { length p.now.sites < 2 ^ 32 }
    ensures program { IfOk result (λ code. program code ≡ p.now) }
    ensures size { IfOk result (λ code. length code.processes ≡ program_nodes p.now) }
    ensures many { MOST_CODE_NODES < program_nodes p.now → result ≡ Err (fail.TooManyNodes (capped (program_nodes p.now))) }
    ensures few { program_nodes p.now ≤ MOST_CODE_NODES → IfErr result (λ e. e ≡ fail.Memory) }
{
    let count = count_both(p);
    if count > MOST_CODE_NODES {
        return Err(CodeFail::TooManyNodes(count));
    }
    Ok(tabled(alloc, p)?)
}
