//! Operands that are told without memory.

ghost use Rattle.std.specs.Prelude.{◌≡◌, is_some};
ghost use Rattle.np_syntax.specs.declared.value.Value.{out-Value};
ghost use Rattle.np_eval.specs.Eval.{eval, agent_of, truth_of, letter_of, places_of, as_agent, as_site};
ghost use Rattle.np_calculus.specs.Reductions.{site_in};
ghost use Rattle.agent_pool.specs.Operands.{site_named, is_truth, is_letter, is_places};

use np_eval::{Frame, Shape, eval_shape};
use np_syntax::{Expr, ExprForm, Name, Value};

/// The agent that an expression names.
#[tactic(auto, using(crate::proofs::Naming::agents, np_eval::proofs::Evals::evals))]
pub fn agent_of(e: &Expr, frame: &Frame) -> Option<Name>
    ensures { result ≡ agent_of e.now frame.now }
{
    match e.form.get() {
        ExprForm::Val(v) => as_agent(v),
        ExprForm::Var(x) => match frame.get(*x) {
            Some(v) => as_agent(v),
            None => None,
        },
        ExprForm::Tuple(_) => None,
        ExprForm::Bin(_, _, _) => None,
        ExprForm::Pack(_, _) => None,
        ExprForm::With(_, _, _) => None,
    }
}

fn as_agent(v: &Value) -> Option<Name>
    ensures { result ≡ as_agent (out-Value v.now) }
{
    match v {
        Value::Agent(agent) => Some(*agent),
        _ => None,
    }
}

/// The site that an expression names.
#[tactic(auto, using(crate::proofs::Naming::places, np_eval::proofs::Evals::evals))]
fn site_named(e: &Expr, frame: &Frame) -> Option<u32>
    ensures { result ≡ site_named e.now frame.now }
{
    match e.form.get() {
        ExprForm::Val(v) => as_site(v),
        ExprForm::Var(x) => match frame.get(*x) {
            Some(v) => as_site(v),
            None => None,
        },
        ExprForm::Tuple(_) => None,
        ExprForm::Bin(_, _, _) => None,
        ExprForm::Pack(_, _) => None,
        ExprForm::With(_, _, _) => None,
    }
}

fn as_site(v: &Value) -> Option<u32>
    ensures { result ≡ as_site (out-Value v.now) }
{
    match v {
        Value::Site(site) => Some(*site),
        _ => None,
    }
}

/// The site that an expression names, if the program has it.
pub fn site_in(sites: u32, e: &Expr, frame: &Frame) -> Option<u32>
    ensures { result ≡ site_in sites e.now frame.now }
{
    match site_named(e, frame) {
        Some(site) if site < sites => Some(site),
        _ => None,
    }
}

/// Whether an expression has a value.
#[tactic(auto, using(np_eval::proofs::FittingShapes::shapes))]
pub fn has_value(e: &Expr, frame: &Frame) -> bool
    ensures { result ≡ is_some (eval e.now frame.now) }
{
    eval_shape(e, frame).is_some()
}

/// Whether it is a truth value.
#[tactic(auto, using(crate::proofs::Naming::told))]
pub fn has_truth(e: &Expr, frame: &Frame) -> bool
    ensures { result ≡ is_some (truth_of e.now frame.now) }
{
    is_truth(eval_shape(e, frame))
}

/// Whether it is a letter.
#[tactic(auto, using(crate::proofs::Naming::told))]
pub fn has_letter(e: &Expr, frame: &Frame) -> bool
    ensures { result ≡ is_some (letter_of e.now frame.now) }
{
    is_letter(eval_shape(e, frame))
}

/// Whether it is a map of places.
#[tactic(auto, using(crate::proofs::Naming::told))]
pub fn has_places(e: &Expr, frame: &Frame) -> bool
    ensures { result ≡ is_some (places_of e.now frame.now) }
{
    is_places(eval_shape(e, frame))
}

fn is_truth(shape: Option<Shape>) -> bool
    ensures { result ≡ is_truth shape }
{
    match shape {
        Some(Shape::Truth) => true,
        _ => false,
    }
}

fn is_letter(shape: Option<Shape>) -> bool
    ensures { result ≡ is_letter shape }
{
    match shape {
        Some(Shape::Letter) => true,
        _ => false,
    }
}

fn is_places(shape: Option<Shape>) -> bool
    ensures { result ≡ is_places shape }
{
    match shape {
        Some(Shape::Places) => true,
        _ => false,
    }
}
