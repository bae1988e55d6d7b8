ghost use Rattle.std.specs.Prelude.{◌≡◌, Some, OnOk, OnErr, IfOk};
ghost use Rattle.np_syntax.specs.declared.event.Kind.TheVariants as kind;
ghost use Rattle.np_syntax.specs.declared.event.Made.TheVariants as made;
ghost use Rattle.np_calculus.specs.Changes.{still};
ghost use Rattle.agent_pool.specs.Pools.{Unchanged, IsFiled};
ghost use Rattle.agent_pool.specs.Rows.{Reduces, IsMet, GoesOnAs, IsFork, IsPrinted};

use super::agent::Agent;
use super::held::Held;
use super::ready::Ready;
use np_code::{Code, NodeForm};
use np_eval::{bind, eval, truth_of};
use np_syntax::{Memory, Name, Value};
use std::alloc::Global;

// The rows of atoms that act alone, within their agent.
impl Agent {
    /// The end of a process that does nothing.
    #[tactic(auto, using(crate::proofs::Maps::maps), unfolding(np_calculus::specs::Reductions::act))]
    pub fn stop(&mut self, code: &Code, r: Ready)
        requires { IsMet kind.Stop code.now self.old r made.Nothing }
        ensures row { Reduces kind.Stop code.now self.old self.new r made.Nothing still }
        ensures name { self.new.name ≡ self.old.name }
        ensures filed { IsFiled code.now.processes self.old.atoms → IsFiled code.now.processes self.new.atoms }
    {
        self.remove(r.actor);
    }

    /// A composition goes on as its first part, and its second part stands under a new mark.
    #[tactic(auto, using(crate::proofs::Maps::maps))]
    pub fn fork(&mut self, alloc: Global, code: &Code, r: Ready, mark: Name) -> Result<(), Memory>
        requires { IsMet kind.Fork code.now self.old r (made.One mark) }
        ensures row { OnOk result (Reduces kind.Fork code.now self.old self.new r (made.One mark) still) }
        ensures name { self.new.name ≡ self.old.name }
        ensures filed { IsFiled code.now.processes self.old.atoms → IsFiled code.now.processes self.new.atoms }
        ensures err { OnErr result (Unchanged self.old self.new) }
    {
        let (left, right) = self.after_fork(alloc, code, r, mark)?;
        self.atoms.reserve(2)?;
        self.file(code, mark, right);
        self.file(code, r.actor, left);
        Ok(())
    }

    /// The two parts that a composition goes on as.
    fn after_fork(
        &self,
        alloc: Global,
        code: &Code,
        r: Ready,
        mark: Name,
    ) -> Result<(Held, Held), Memory>
        requires { IsMet kind.Fork code.now self.now r (made.One mark) }
        ensures { IfOk result (λ parts. IsFork code.now self.now r mark parts.0 parts.1) }
    {
        let Some((node, frame)) = self.acting(code, r) else {
            unreachable!();
        };
        let NodeForm::Par(left, right) = &node.form else {
            unreachable!();
        };
        let own = frame.copy(alloc)?;
        let other = frame.copy(alloc)?;
        Ok((Held::Node(*left, own), Held::Node(*right, other)))
    }

    /// A `new` binds a new channel.
    pub fn bind_new(
        &mut self,
        alloc: Global,
        code: &Code,
        r: Ready,
        chan: Name,
    ) -> Result<(), Memory>
        requires { IsMet kind.New code.now self.old r (made.One chan) }
        ensures row { OnOk result (Reduces kind.New code.now self.old self.new r (made.One chan) still) }
        ensures name { self.new.name ≡ self.old.name }
        ensures filed { IsFiled code.now.processes self.old.atoms → IsFiled code.now.processes self.new.atoms }
        ensures err { OnErr result (Unchanged self.old self.new) }
    {
        let held = self.after_new(alloc, code, r, chan);
        self.reduce(code, r.actor, held)
    }

    /// What a `new` goes on as.
    fn after_new(&self, alloc: Global, code: &Code, r: Ready, chan: Name) -> Result<Held, Memory>
        requires { IsMet kind.New code.now self.now r (made.One chan) }
        ensures { IfOk result (λ held. GoesOnAs kind.New code.now self.now r (made.One chan) r.actor held) }
    {
        let Some((node, frame)) = self.acting(code, r) else {
            unreachable!();
        };
        let NodeForm::New(binder, _, body) = &node.form else {
            unreachable!();
        };
        let mut env = frame.copy(alloc)?;
        env.set(*binder, Value::Chan(chan))?;
        Ok(Held::Node(*body, env))
    }

    /// A `let` binds its pattern.
    pub fn bind_let(&mut self, alloc: Global, code: &Code, r: Ready) -> Result<(), Memory>
        requires { IsMet kind.Let code.now self.old r made.Nothing }
        ensures row { OnOk result (Reduces kind.Let code.now self.old self.new r made.Nothing still) }
        ensures name { self.new.name ≡ self.old.name }
        ensures filed { IsFiled code.now.processes self.old.atoms → IsFiled code.now.processes self.new.atoms }
        ensures err { OnErr result (Unchanged self.old self.new) }
    {
        let held = self.after_let(alloc, code, r);
        self.reduce(code, r.actor, held)
    }

    /// What a `let` goes on as.
    fn after_let(&self, alloc: Global, code: &Code, r: Ready) -> Result<Held, Memory>
        requires { IsMet kind.Let code.now self.now r made.Nothing }
        ensures { IfOk result (λ held. GoesOnAs kind.Let code.now self.now r made.Nothing r.actor held) }
    {
        let Some((node, frame)) = self.acting(code, r) else {
            unreachable!();
        };
        let NodeForm::Let(pat, bound, body) = &node.form else {
            unreachable!();
        };
        let Some(value) = eval(alloc, bound, frame)? else {
            unreachable!();
        };
        let Some(env) = bind(alloc, pat, &value, frame)? else {
            unreachable!();
        };
        Ok(Held::Node(*body, env))
    }

    /// A conditional goes on as its first or its second process.
    pub fn branch(&mut self, alloc: Global, code: &Code, r: Ready) -> Result<(), Memory>
        requires { IsMet kind.If code.now self.old r made.Nothing }
        ensures row { OnOk result (Reduces kind.If code.now self.old self.new r made.Nothing still) }
        ensures name { self.new.name ≡ self.old.name }
        ensures filed { IsFiled code.now.processes self.old.atoms → IsFiled code.now.processes self.new.atoms }
        ensures err { OnErr result (Unchanged self.old self.new) }
    {
        let held = self.after_if(alloc, code, r);
        self.reduce(code, r.actor, held)
    }

    /// What a conditional goes on as.
    fn after_if(&self, alloc: Global, code: &Code, r: Ready) -> Result<Held, Memory>
        requires { IsMet kind.If code.now self.now r made.Nothing }
        ensures { IfOk result (λ held. GoesOnAs kind.If code.now self.now r made.Nothing r.actor held) }
    {
        let Some((node, frame)) = self.acting(code, r) else {
            unreachable!();
        };
        let NodeForm::If(test, met, unmet) = &node.form else {
            unreachable!();
        };
        let Some(truth) = truth_of(alloc, test, frame)? else {
            unreachable!();
        };
        let next = if truth { *met } else { *unmet };
        Ok(Held::Node(next, frame.copy(alloc)?))
    }

    /// A `print` says its value, which is answered.
    #[tactic(auto, using(crate::proofs::Maps::maps))]
    pub fn print(&mut self, alloc: Global, code: &Code, r: Ready) -> Result<Value, Memory>
        requires { IsMet kind.Print code.now self.old r made.Nothing }
        ensures row { IfOk result (λ value. Reduces kind.Print code.now self.old self.new r made.Nothing
            (record still { said = Some value })) }
        ensures name { self.new.name ≡ self.old.name }
        ensures filed { IsFiled code.now.processes self.old.atoms → IsFiled code.now.processes self.new.atoms }
        ensures err { OnErr result (Unchanged self.old self.new) }
    {
        let value = self.printed(alloc, code, r)?;
        self.remove(r.actor);
        Ok(value)
    }

    /// What a `print` says.
    fn printed(&self, alloc: Global, code: &Code, r: Ready) -> Result<Value, Memory>
        requires { IsMet kind.Print code.now self.now r made.Nothing }
        ensures { IfOk result (λ value. IsPrinted code.now self.now r value) }
    {
        let Some((node, frame)) = self.acting(code, r) else {
            unreachable!();
        };
        let NodeForm::Print(said) = &node.form else {
            unreachable!();
        };
        let Some(value) = eval(alloc, said, frame)? else {
            unreachable!();
        };
        Ok(value)
    }
}
