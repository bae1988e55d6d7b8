ghost use Rattle.std.specs.Prelude.{◌≡◌, length, List, option_map, IfSome};
ghost use Rattle.np_syntax.specs.declared.value.Name.{Name as Named};
ghost use Rattle.np_eval.specs.Eval.{Env};
ghost use Rattle.np_syntax.specs.declared.process.Proc.{Proc};
ghost use Rattle.np_code.specs.Trees.{layer_of};
ghost use Rattle.agent_pool.specs.Held.{atom_of};
ghost use Rattle.agent_pool.specs.Readies.{NoPost, only, begins, taken_by, offers, alone_at, pair_at};

use super::held::{Held, node_of};
use super::operands::{agent_of, has_letter, has_places, has_truth, has_value, site_in};
use super::ready::Ready;
use np_code::{Code, Node, NodeForm};
use np_eval::{Frame, chan_of, fits, matches};
use np_syntax::{Expr, Kind, Name, Pat};

/// The kind, where the test is met.
pub fn only(test: bool, kind: Kind) -> Option<Kind>
    ensures { result ≡ only test kind }
{
    if test { Some(kind) } else { None }
}

/// The kind of event that a node makes alone under a frame, where its operands have the values that the row needs. It
/// takes no memory.
pub fn begins(code: &Code, node: &Node, frame: &Frame) -> Option<Kind>
    ensures { result ≡ begins (length code.now.sites) frame.now (layer_of code.now.processes node.now.form) }
{
    match &node.form {
        NodeForm::Stop => Some(Kind::Stop),
        NodeForm::Par(_, _) => Some(Kind::Fork),
        NodeForm::New(_, _, _) => Some(Kind::New),
        NodeForm::Agent(_, _, _) => Some(Kind::Agent),
        NodeForm::Migrate(site, _) => {
            site_in(code.sites(), site, frame)?;
            Some(Kind::Depart)
        }
        NodeForm::IfLocal(agent, chan, value, _, _) => {
            agent_of(agent, frame)?;
            chan_of(chan, frame)?;
            only(has_value(value, frame), Kind::Local)
        }
        NodeForm::Send(agent, site, chan, value) => {
            agent_of(agent, frame)?;
            site_in(code.sites(), site, frame)?;
            chan_of(chan, frame)?;
            only(has_value(value, frame), Kind::Send)
        }
        NodeForm::If(test, _, _) => only(has_truth(test, frame), Kind::If),
        NodeForm::Let(pat, value, _) => only(fits(pat, value, frame), Kind::Let),
        NodeForm::Print(value) => only(has_value(value, frame), Kind::Print),
        NodeForm::Open(letter) => only(has_letter(letter, frame), Kind::Open),
        NodeForm::Lookup(agent, among, _, _, _) => {
            agent_of(agent, frame)?;
            only(has_places(among, frame), Kind::Lookup)
        }
        _ => None,
    }
}

/// The kind of event that an input makes, its channel and its pattern.
fn taken_by(node: &Node) -> Option<(Kind, &Expr, &Pat)>
    ensures { (ts : List Proc) → option_map (λ taken. (taken.0, taken.1.now, taken.2.now)) result ≡ taken_by (layer_of ts node.now.form) }
{
    match &node.form {
        NodeForm::Inp(chan, pat, _) => Some((Kind::Comm, chan, pat)),
        NodeForm::Rep(chan, pat, _) => Some((Kind::Rep, chan, pat)),
        _ => None,
    }
}

/// Whether an atom is an output on a channel whose value fits a pattern, which no frame changes. It takes no memory.
#[tactic(auto, using(crate::proofs::Outputs::outputs, crate::proofs::Offers::offers))]
fn offers(code: &Code, held: &Held, chan: Name, pat: &Pat) -> bool
    ensures { (agent : Named) (env : Env) → result ≡ offers (atom_of code.now.processes agent held.now) chan pat.now env }
{
    match held {
        Held::Node(id, frame) => match &code.node(*id).form {
            NodeForm::Out(on, value) => match chan_of(on, frame) {
                Some(on) => chan == on && fits(pat, value, frame),
                None => false,
            },
            _ => false,
        },
        Held::Given(on, value, _) => chan == *on && matches(pat, value),
    }
}

/// What an atom can do alone. It takes no memory.
#[tactic(auto, using(crate::proofs::Outputs::outputs))]
pub fn alone(code: &Code, mark: Name, held: &Held) -> Option<Ready>
    ensures post { IfSome result NoPost }
    ensures is { (agent : Named) → result ≡ alone_at (length code.now.sites) mark (atom_of code.now.processes agent held.now) }
{
    let (node, frame) = node_of(code, held)?;
    let kind = begins(code, node, frame)?;
    Some(Ready {
        kind,
        actor: mark,
        other: None,
        tag: node.tag,
    })
}

/// What an input can do with an output. It takes no memory.
#[tactic(auto, using(crate::proofs::Outputs::outputs))]
pub fn pair(code: &Code, mark: Name, taker: &Held, other: Name, giver: &Held) -> Option<Ready>
    ensures post { IfSome result NoPost }
    ensures is { (agent : Named) → result ≡ pair_at mark (atom_of code.now.processes agent taker.now) other
        (atom_of code.now.processes agent giver.now) }
{
    let (node, frame) = node_of(code, taker)?;
    let (kind, chan, pat) = taken_by(node)?;
    let chan = chan_of(chan, frame)?;
    let kind = only(offers(code, giver, chan, pat), kind)?;
    Some(Ready {
        kind,
        actor: mark,
        other: Some(other),
        tag: node.tag,
    })
}
