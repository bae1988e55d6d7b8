ghost use Rattle.std.specs.Prelude.{◌≡◌, OnOk, OnErr, IfOk};
ghost use Rattle.np_syntax.specs.declared.value.Name.{Name as Named};
ghost use Rattle.np_syntax.specs.declared.event.Kind.TheVariants as kind;
ghost use Rattle.np_syntax.specs.declared.event.Made.TheVariants as made;
ghost use Rattle.np_calculus.specs.Changes.{still};
ghost use Rattle.agent_pool.specs.Held.{atom_of};
ghost use Rattle.agent_pool.specs.Pools.{Unchanged, IsFiled};
ghost use Rattle.agent_pool.specs.Rows.{Reduces, IsMet, IsComm, IsRep, taken_in};

use super::agent::Agent;
use super::held::Held;
use super::ready::Ready;
use np_code::{Code, NodeForm};
use np_eval::{Frame, bind, chan_of, eval};
use np_syntax::{Memory, Name, Pat};
use std::alloc::Global;

/// The frame of a pattern that takes the value of an output. A value that came from outside is looked at where it is.
#[tactic(auto, using(crate::proofs::Outputs::outputs))]
fn taken(
    alloc: Global,
    code: &Code,
    output: &Held,
    pat: &Pat,
    frame: &Frame,
) -> Result<Option<Frame>, Memory>
    ensures { (agent : Named) → IfOk result (λ env. env ≡ taken_in (atom_of code.now.processes agent output.now) pat.now frame.now) }
{
    match output {
        Held::Node(id, own) => {
            let NodeForm::Out(chan, value) = &code.node(*id).form else {
                return Ok(None);
            };
            let Some(_) = chan_of(chan, own) else {
                return Ok(None);
            };
            let Some(value) = eval(alloc, value, own)? else {
                return Ok(None);
            };
            bind(alloc, pat, &value, frame)
        }
        Held::Given(_, value, _) => bind(alloc, pat, value, frame),
    }
}

// The rows of an input and an output that meet.
impl Agent {
    /// An input takes an output.
    #[tactic(auto, using(crate::proofs::Maps::maps))]
    pub fn comm(&mut self, alloc: Global, code: &Code, r: Ready) -> Result<(), Memory>
        requires { IsMet kind.Comm code.now self.old r made.Nothing }
        ensures row { OnOk result (Reduces kind.Comm code.now self.old self.new r made.Nothing still) }
        ensures name { self.new.name ≡ self.old.name }
        ensures filed { IsFiled code.now.processes self.old.atoms → IsFiled code.now.processes self.new.atoms }
        ensures err { OnErr result (Unchanged self.old self.new) }
    {
        let (held, other) = self.after_comm(alloc, code, r)?;
        self.go_on(code, r.actor, held)?;
        self.remove(other);
        Ok(())
    }

    /// What an input goes on as, and the mark of the output that it takes.
    fn after_comm(&self, alloc: Global, code: &Code, r: Ready) -> Result<(Held, Name), Memory>
        requires { IsMet kind.Comm code.now self.now r made.Nothing }
        ensures { IfOk result (λ met. IsComm code.now self.now r met.0 met.1) }
    {
        let Some((node, frame)) = self.acting(code, r) else {
            unreachable!();
        };
        let NodeForm::Inp(_, pat, body) = &node.form else {
            unreachable!();
        };
        let Some(other) = r.other else {
            unreachable!();
        };
        let Some(output) = self.atoms.get(other) else {
            unreachable!();
        };
        let Some(env) = taken(alloc, code, output, pat, frame)? else {
            unreachable!();
        };
        Ok((Held::Node(*body, env), other))
    }

    /// A replicated input takes an output, in whose place a copy of its body stands then.
    pub fn rep(&mut self, alloc: Global, code: &Code, r: Ready) -> Result<(), Memory>
        requires { IsMet kind.Rep code.now self.old r made.Nothing }
        ensures row { OnOk result (Reduces kind.Rep code.now self.old self.new r made.Nothing still) }
        ensures name { self.new.name ≡ self.old.name }
        ensures filed { IsFiled code.now.processes self.old.atoms → IsFiled code.now.processes self.new.atoms }
        ensures err { OnErr result (Unchanged self.old self.new) }
    {
        let (held, other) = self.after_rep(alloc, code, r)?;
        self.reduce(code, other, Ok(held))
    }

    /// The copy of a replicated input's body, and the mark of the output that it takes.
    fn after_rep(&self, alloc: Global, code: &Code, r: Ready) -> Result<(Held, Name), Memory>
        requires { IsMet kind.Rep code.now self.now r made.Nothing }
        ensures { IfOk result (λ met. IsRep code.now self.now r met.0 met.1) }
    {
        let Some((node, frame)) = self.acting(code, r) else {
            unreachable!();
        };
        let NodeForm::Rep(_, pat, body) = &node.form else {
            unreachable!();
        };
        let Some(other) = r.other else {
            unreachable!();
        };
        let Some(output) = self.atoms.get(other) else {
            unreachable!();
        };
        let Some(env) = taken(alloc, code, output, pat, frame)? else {
            unreachable!();
        };
        Ok((Held::Node(*body, env), other))
    }
}
