//! Whether an event is one that an agent can do.

ghost use Rattle.std.specs.Prelude.{◌≡◌, ◌↔◌, Some, IsTrue, length, List};
ghost use Rattle.np_syntax.specs.declared.value.Name.{Name as Named};
ghost use Rattle.np_syntax.specs.declared.process.Proc.{Proc};
ghost use Rattle.np_tables.specs.Mapped.{mapped};
ghost use Rattle.np_code.specs.Trees.{layer_of};
ghost use Rattle.agent_pool.specs.Deciding.{posts, post_at, post_in, lone_in, found_in};
ghost use Rattle.agent_pool.specs.Held.{atom_of};
ghost use Rattle.agent_pool.specs.Pools.{seen_as};
ghost use Rattle.agent_pool.specs.Readies.{IsReady};

use super::begins::only;
use super::held::{Held, node_of};
use super::operands::{agent_of, has_value};
use super::ready::Ready;
use super::search::{alone_in, pair_in};
use agent_index::Index;
use np_code::{Code, Node, NodeForm};
use np_eval::{Frame, chan_of};
use np_syntax::{Kind, Name};

/// The kind of event of a post, where its operands have values.
fn posts(node: &Node, frame: &Frame) -> Option<Kind>
    ensures { (ts : List Proc) → result ≡ posts frame.now (layer_of ts node.now.form) }
{
    match &node.form {
        NodeForm::Post(agent, chan, value) => {
            agent_of(agent, frame)?;
            chan_of(chan, frame)?;
            only(has_value(value, frame), Kind::Post)
        }
        _ => None,
    }
}

/// What an atom that is a post can do.
#[tactic(auto, using(crate::proofs::Outputs::outputs))]
fn post(code: &Code, mark: Name, held: &Held) -> Option<Ready>
    ensures { (agent : Named) → result ≡ post_at mark (atom_of code.now.processes agent held.now) }
{
    let (node, frame) = node_of(code, held)?;
    let kind = posts(node, frame)?;
    Some(Ready {
        kind,
        actor: mark,
        other: None,
        tag: node.tag,
    })
}

/// What the atom of a mark can do if it is a post.
#[tactic(auto, using(crate::proofs::Maps::maps))]
fn post_in(code: &Code, atoms: &Index<Held>, mark: Name) -> Option<Ready>
    ensures { (agent : Named) → result ≡ post_in (mapped (seen_as code.now.processes agent) atoms.now.items) mark }
{
    let held = atoms.get(mark)?;
    post(code, mark, held)
}

/// What the atom of a mark can do without another, by an event of a kind or of any.
fn lone_in(code: &Code, atoms: &Index<Held>, kind: Kind, mark: Name) -> Option<Ready>
    ensures { (agent : Named) → result ≡ lone_in (length code.now.sites)
        (mapped (seen_as code.now.processes agent) atoms.now.items) kind mark }
{
    match kind {
        Kind::Post => post_in(code, atoms, mark),
        _ => alone_in(code, atoms, mark),
    }
}

/// What the atoms of an event can do.
fn found_in(code: &Code, atoms: &Index<Held>, r: Ready) -> Option<Ready>
    ensures { (agent : Named) → result ≡ found_in (length code.now.sites) (mapped (seen_as code.now.processes agent) atoms.now.items) r }
{
    match r.other {
        None => lone_in(code, atoms, r.kind, r.actor),
        Some(other) => pair_in(code, atoms, r.actor, other),
    }
}

/// Whether it is this one.
fn is_this(found: Option<Ready>, r: Ready) -> bool
    ensures { IsTrue result ↔ (found ≡ Some r) }
{
    match found {
        Some(found) => found == r,
        None => false,
    }
}

/// Whether the atoms can do this. It takes no memory and walks over nothing.
pub fn can_do(code: &Code, atoms: &Index<Held>, r: Ready) -> bool
    ensures { (agent : Named) → IsTrue result ↔ IsReady code.now (mapped (seen_as code.now.processes agent) atoms.now.items) r }
{
    is_this(found_in(code, atoms, r), r)
}
