ghost use Rattle.std.specs.Prelude.{◌≡◌, MatchOption};
ghost use Rattle.np_eval.specs.Forms.{layer};
ghost use Rattle.agent_pool.specs.Held.{gives, takes, proc_of, wait_of, IsOutput, IsNode};

use agent_index::Wait;
use np_code::{Code, Node, NodeForm};
use np_eval::{Frame, chan_of};
use np_syntax::{Name, Tag, Value};

/// An atom: a node of the code under a frame, or an output that came from outside.
pub enum Held {
    Node(u32, Frame),
    Given(Name, Value, Tag),
}

impl Drop for Held {
    fn drop(self) {
        match self {
            Held::Node(_, _) | Held::Given(_, _, _) => {}
        }
    }
}

/// The node of an atom and its frame, unless it is an output that came from outside.
#[tactic(auto, using(crate::proofs::Layers::layers))]
pub fn node_of<'a>(code: &'a Code, held: &'a Held) -> Option<(&'a Node, &'a Frame)>
    ensures { MatchOption result (IsOutput (layer (proc_of code.now.processes held.now)))
        (λ found. IsNode code.now.processes held.now found.0.now found.1.now) }
{
    match held {
        Held::Node(id, frame) => Some((code.node(*id), frame)),
        Held::Given(_, _, _) => None,
    }
}

fn gives(chan: Option<Name>) -> Wait
    ensures { result ≡ gives chan }
{
    match chan {
        Some(chan) => Wait::Gives(chan),
        None => Wait::Stuck,
    }
}

fn takes(chan: Option<Name>) -> Wait
    ensures { result ≡ takes chan }
{
    match chan {
        Some(chan) => Wait::Takes(chan),
        None => Wait::Stuck,
    }
}

/// What an atom waits for.
#[tactic(auto, using(crate::proofs::Layers::layers))]
pub fn wait_of(code: &Code, held: &Held) -> Wait
    ensures { result ≡ wait_of code.now.processes held.now }
{
    match held {
        Held::Node(id, frame) => match &code.node(*id).form {
            NodeForm::Out(chan, _) => gives(chan_of(chan, frame)),
            NodeForm::Inp(chan, _, _) => takes(chan_of(chan, frame)),
            NodeForm::Rep(chan, _, _) => takes(chan_of(chan, frame)),
            _ => Wait::Acts,
        },
        Held::Given(chan, _, _) => Wait::Gives(*chan),
    }
}
