ghost use Rattle.std.specs.Prelude.{◌≡◌, None, OnOk, OnErr, IfOk, IfNone};
ghost use Rattle.np_syntax.specs.declared.event.Kind.TheVariants as kind;
ghost use Rattle.np_syntax.specs.declared.event.Made.TheVariants as made;
ghost use Rattle.np_eval.specs.Eval.{places_of};
ghost use Rattle.np_calculus.specs.Changes.{still};
ghost use Rattle.agent_pool.specs.Operands.{place_in};
ghost use Rattle.agent_pool.specs.Pools.{Unchanged, IsFiled};
ghost use Rattle.agent_pool.specs.Rows.{Reduces, IsMet, GoesOnAs};

use super::agent::Agent;
use super::held::Held;
use super::operands::agent_of;
use super::ready::Ready;
use np_code::{Code, NodeForm};
use np_eval::{Frame, find_place, letter_of, places_of};
use np_syntax::{Expr, ExprForm, Memory, Name, Value};
use std::alloc::Global;

/// The channel that a map of places has for an agent, if the expression gives such a map. A map that a binder has is
/// looked at where it is.
#[tactic(auto, using(np_eval::proofs::Evals::evals))]
fn place_in(
    alloc: Global,
    among: &Expr,
    frame: &Frame,
    agent: Name,
) -> Result<Option<Option<Name>>, Memory>
    ensures found { IfOk result (λ found. found ≡ place_in among.now frame.now agent) }
    ensures none { IfOk result (λ found. IfNone found (places_of among.now frame.now ≡ None)) }
{
    if let ExprForm::Var(x) = among.form.get() {
        return match frame.get(*x) {
            Some(Value::Places(places)) => Ok(Some(find_place(places.as_slice(), agent))),
            _ => Ok(None),
        };
    }
    match places_of(alloc, among, frame)? {
        Some(places) => Ok(Some(find_place(places.as_slice(), agent))),
        None => Ok(None),
    }
}

// The rows of letters and of maps of places.
impl Agent {
    /// An `open` becomes the output that its letter holds.
    pub fn open_letter(&mut self, alloc: Global, code: &Code, r: Ready) -> Result<(), Memory>
        requires { IsMet kind.Open code.now self.old r made.Nothing }
        ensures row { OnOk result (Reduces kind.Open code.now self.old self.new r made.Nothing still) }
        ensures name { self.new.name ≡ self.old.name }
        ensures filed { IsFiled code.now.processes self.old.atoms → IsFiled code.now.processes self.new.atoms }
        ensures err { OnErr result (Unchanged self.old self.new) }
    {
        let held = self.after_open(alloc, code, r);
        self.reduce(code, r.actor, held)
    }

    /// What an `open` becomes.
    fn after_open(&self, alloc: Global, code: &Code, r: Ready) -> Result<Held, Memory>
        requires { IsMet kind.Open code.now self.now r made.Nothing }
        ensures { IfOk result (λ held. GoesOnAs kind.Open code.now self.now r made.Nothing r.actor held) }
    {
        let Some((node, frame)) = self.acting(code, r) else {
            unreachable!();
        };
        let NodeForm::Open(letter) = &node.form else {
            unreachable!();
        };
        let Some((chan, value)) = letter_of(alloc, letter, frame)? else {
            unreachable!();
        };
        Ok(Held::Given(chan, value, r.tag))
    }

    /// A lookup goes on with the channel that it found, or without.
    pub fn look(&mut self, alloc: Global, code: &Code, r: Ready) -> Result<(), Memory>
        requires { IsMet kind.Lookup code.now self.old r made.Nothing }
        ensures row { OnOk result (Reduces kind.Lookup code.now self.old self.new r made.Nothing still) }
        ensures name { self.new.name ≡ self.old.name }
        ensures filed { IsFiled code.now.processes self.old.atoms → IsFiled code.now.processes self.new.atoms }
        ensures err { OnErr result (Unchanged self.old self.new) }
    {
        let held = self.after_look(alloc, code, r);
        self.reduce(code, r.actor, held)
    }

    /// What a lookup goes on as.
    fn after_look(&self, alloc: Global, code: &Code, r: Ready) -> Result<Held, Memory>
        requires { IsMet kind.Lookup code.now self.now r made.Nothing }
        ensures { IfOk result (λ held. GoesOnAs kind.Lookup code.now self.now r made.Nothing r.actor held) }
    {
        let Some((node, frame)) = self.acting(code, r) else {
            unreachable!();
        };
        let NodeForm::Lookup(agent, among, binder, met, unmet) = &node.form else {
            unreachable!();
        };
        let Some(agent) = agent_of(agent, frame) else {
            unreachable!();
        };
        let Some(found) = place_in(alloc, among, frame, agent)? else {
            unreachable!();
        };
        let mut env = frame.copy(alloc)?;
        let Some(lock) = found else {
            return Ok(Held::Node(*unmet, env));
        };
        env.set(*binder, Value::Chan(lock))?;
        Ok(Held::Node(*met, env))
    }
}
