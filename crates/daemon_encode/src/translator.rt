//! The translation of processes.

ghost use Rattle.std.specs.Prelude.{◌≡◌, ◌<◌, ◌+◌, ◌^◌, IfOk};
ghost use Rattle.daemon_encode.specs.Encoded as spec;
ghost use Rattle.infrastructure_texts.specs.Texts as text;
ghost use Rattle.infrastructure_texts.specs.Pieces as piece;
ghost use Rattle.np_syntax.specs.declared.process.ProcForm as shape;
ghost use Rattle.np_syntax.specs.declared.process.ProcForm.{ProcForm as Form};

use super::translated::Translated;
use np_syntax::{Expr, ExprForm, Memory, Pat, Proc, ProcForm, Tag, Ty, process_forms};
use std::alloc::Global;
use text_filling::{Made, Writer, WrittenExpr, expression, migrate_text};

/// Translates the processes of a program of so many sites.
#[derive(Clone, Copy)]
pub struct Translator {
    pub alloc: Global,
    pub sites: u32,
}

impl Translator {
    pub fn writer(self, tag: Tag) -> Writer
        ensures sites { result.sites ≡ self.sites }
        ensures node { result.node ≡ tag.node }
    {
        Writer {
            alloc: self.alloc,
            sites: self.sites,
            node: tag.node,
        }
    }

    /// A variable of the low program.
    pub fn variable(self, binder: u32) -> WrittenExpr
        ensures { piece.Writes result (piece.variable binder) }
    {
        expression(self.alloc, ExprForm::Var(binder))
    }

    /// A form that is kept, with its tag and offset. The form comes as it was made, or not, for want of memory.
    pub fn kept(
        self,
        tag: Tag,
        at: u32,
        form: Result<ProcForm, Memory>,
        next: u32,
    ) -> Result<Translated, Memory>
        ensures { (made : Form) → piece.Writes form made → piece.Writes result (spec.kept tag at made next) }
    {
        let form = form?;
        let proc = Proc::new(self.alloc, tag, at, form)?;
        Ok(Translated { proc, next })
    }

    /// The low process of a process of this agent, whose new binders are numbered from the next on.
    #[cycle(translate)]
    #[tactic(auto, using(crate::proofs::Forms::forms))]
    pub fn translate(self, p: &Proc, agent: &Expr, next: u32) -> Result<Translated, Memory>
        requires { (spec.translated self.sites p.now agent.now next).next < 2 ^ 32 }
        ensures { IfOk result (λ t. t ≡ spec.translated self.sites p.now agent.now next) }
    {
        self.form(p.form.get(), p.tag, p.at, agent, next)
    }

    #[cycle(translate)]
    #[tactic(auto, using(crate::proofs::Forms::forms))]
    fn form(
        self,
        form: &ProcForm,
        tag: Tag,
        at: u32,
        agent: &Expr,
        next: u32,
    ) -> Result<Translated, Memory>
        requires { (spec.translated_form self.sites form.now tag at agent.now next).next < 2 ^ 32 }
        ensures { IfOk result (λ t. t ≡ spec.translated_form self.sites form.now tag at agent.now next) }
    {
        match form {
            ProcForm::Par(left, right) => {
                let left = self.translate(left, agent, next)?;
                let right = self.translate(right, agent, left.next)?;
                let both = Ok(ProcForm::Par(left.proc, right.proc));
                self.kept(tag, at, both, right.next)
            }
            ProcForm::New(chan, ty, body) => {
                let body = self.translate(body, agent, next)?;
                self.channel(tag, at, *chan, ty, body)
            }
            ProcForm::Inp(chan, names, body) => {
                let body = self.translate(body, agent, next)?;
                self.input(tag, at, chan, names, body)
            }
            ProcForm::Rep(chan, names, body) => {
                let body = self.translate(body, agent, next)?;
                self.replicated(tag, at, chan, names, body)
            }
            ProcForm::Agent(child, body, rest) => {
                let body = self.child(body, *child, next)?;
                let rest = self.rest(rest, agent, body.next)?;
                self.creation(tag, agent, *child, next, body, rest)
            }
            ProcForm::Migrate(to, body) => {
                let body = self.translate(body, agent, next)?;
                self.migration(tag, agent, to, body)
            }
            ProcForm::IfLocal(to, chan, value, met, unmet) => {
                let met = self.translate(met, agent, next)?;
                let unmet = self.translate(unmet, agent, met.next)?;
                self.iflocal(tag, at, to, chan, value, met.proc, unmet)
            }
            ProcForm::Post(to, chan, value) => self.post(tag, to, chan, value, next),
            ProcForm::If(test, met, unmet) => {
                let met = self.translate(met, agent, next)?;
                let unmet = self.translate(unmet, agent, met.next)?;
                self.test(tag, at, test, met.proc, unmet)
            }
            ProcForm::Let(names, value, body) => {
                let body = self.translate(body, agent, next)?;
                self.bind(tag, at, names, value, body)
            }
            ProcForm::Lookup(who, places, found, met, unmet) => {
                let met = self.translate(met, agent, next)?;
                let unmet = self.translate(unmet, agent, met.next)?;
                self.lookup(tag, at, who, places, *found, met.proc, unmet)
            }
            ProcForm::Stop
            | ProcForm::Out(_, _)
            | ProcForm::Send(_, _, _, _)
            | ProcForm::Print(_)
            | ProcForm::Open(_) => self.same(tag, at, form, next),
        }
    }

    /// What a new agent does, behind the binder for its site.
    #[cycle(translate)]
    fn child(self, p: &Proc, child: u32, next: u32) -> Result<Translated, Memory>
        requires { (spec.translated self.sites p.now (piece.variable child) (next + 1)).next < 2 ^ 32 }
        ensures { IfOk result (λ t. t ≡ spec.translated self.sites p.now (piece.variable child) (next + 1)) }
    {
        self.translate(p, &self.variable(child)?, next + 1)
    }

    /// What the agent that makes another does then, behind the binders of the other's server.
    #[cycle(translate)]
    fn rest(self, p: &Proc, agent: &Expr, letter: u32) -> Result<Translated, Memory>
        requires { (spec.translated self.sites p.now agent.now (letter + 2)).next < 2 ^ 32 }
        ensures { IfOk result (λ t. t ≡ spec.translated self.sites p.now agent.now (letter + 2)) }
    {
        self.translate(p, agent, letter + 2)
    }

    /// A form without processes in it.
    pub fn same(self, tag: Tag, at: u32, form: &ProcForm, next: u32) -> Result<Translated, Memory>
        ensures { IfOk result (λ t. t ≡ spec.kept tag at form.now next) }
    {
        self.kept(tag, at, form.copy(self.alloc), next)
    }

    pub fn channel(
        self,
        tag: Tag,
        at: u32,
        chan: u32,
        ty: &Ty,
        body: Translated,
    ) -> Result<Translated, Memory>
        ensures { IfOk result (λ t. t ≡ spec.kept tag at (shape.New chan ty.now body.proc) body.next) }
    {
        let form = process_forms::channel(self.alloc, chan, ty, body.proc);
        self.kept(tag, at, form, body.next)
    }

    pub fn input(
        self,
        tag: Tag,
        at: u32,
        chan: &Expr,
        names: &Pat,
        body: Translated,
    ) -> Result<Translated, Memory>
        ensures { IfOk result (λ t. t ≡ spec.kept tag at (shape.Inp chan.now names.now body.proc) body.next) }
    {
        let form = process_forms::input(self.alloc, chan, names, body.proc);
        self.kept(tag, at, form, body.next)
    }

    pub fn replicated(
        self,
        tag: Tag,
        at: u32,
        chan: &Expr,
        names: &Pat,
        body: Translated,
    ) -> Result<Translated, Memory>
        ensures { IfOk result (λ t. t ≡ spec.kept tag at (shape.Rep chan.now names.now body.proc) body.next) }
    {
        let form = process_forms::replicated(self.alloc, chan, names, body.proc);
        self.kept(tag, at, form, body.next)
    }

    pub fn bind(
        self,
        tag: Tag,
        at: u32,
        names: &Pat,
        value: &Expr,
        body: Translated,
    ) -> Result<Translated, Memory>
        ensures { IfOk result (λ t. t ≡ spec.kept tag at (shape.Let names.now value.now body.proc) body.next) }
    {
        let form = process_forms::bind(self.alloc, names, value, body.proc);
        self.kept(tag, at, form, body.next)
    }

    pub fn test(
        self,
        tag: Tag,
        at: u32,
        test: &Expr,
        met: Proc,
        unmet: Translated,
    ) -> Result<Translated, Memory>
        ensures { IfOk result (λ t. t ≡ spec.kept tag at (shape.If test.now met unmet.proc) unmet.next) }
    {
        let form = process_forms::test(self.alloc, test, met, unmet.proc);
        self.kept(tag, at, form, unmet.next)
    }

    pub fn iflocal(
        self,
        tag: Tag,
        at: u32,
        agent: &Expr,
        chan: &Expr,
        value: &Expr,
        met: Proc,
        unmet: Translated,
    ) -> Result<Translated, Memory>
        ensures { IfOk result (λ t. t ≡ spec.kept tag at (shape.IfLocal agent.now chan.now value.now met unmet.proc) unmet.next) }
    {
        let form = process_forms::iflocal(self.alloc, agent, chan, value, met, unmet.proc);
        self.kept(tag, at, form, unmet.next)
    }

    pub fn lookup(
        self,
        tag: Tag,
        at: u32,
        agent: &Expr,
        places: &Expr,
        found: u32,
        met: Proc,
        unmet: Translated,
    ) -> Result<Translated, Memory>
        ensures { IfOk result (λ t. t ≡ spec.kept tag at (shape.Lookup agent.now places.now found met unmet.proc) unmet.next) }
    {
        let form = process_forms::lookup(self.alloc, agent, places, found, met, unmet.proc);
        self.kept(tag, at, form, unmet.next)
    }

    fn post(
        self,
        tag: Tag,
        agent: &Expr,
        chan: &Expr,
        value: &Expr,
        next: u32,
    ) -> Result<Translated, Memory>
        ensures { IfOk result (λ t. t ≡ spec.becomes (text.post_text self.sites tag.node agent.now chan.now value.now) next) }
    {
        let proc = self.writer(tag).post_text(agent, chan, value)?;
        Ok(Translated { proc, next })
    }

    pub fn migration(
        self,
        tag: Tag,
        agent: &Expr,
        to: &Expr,
        body: Translated,
    ) -> Result<Translated, Memory>
        ensures { IfOk result (λ t. t ≡ spec.becomes (text.migrate_text self.sites tag.node agent.now to.now body.proc) body.next) }
    {
        let next = body.next;
        let proc = migrate_text(self.writer(tag), agent, to, body.proc)?;
        Ok(Translated { proc, next })
    }

    fn creation(
        self,
        tag: Tag,
        agent: &Expr,
        child: u32,
        at: u32,
        body: Translated,
        rest: Translated,
    ) -> Result<Translated, Memory>
        requires { body.next + 1 < 2 ^ 32 }
        ensures { IfOk result (λ t. t ≡ spec.becomes
            (text.agent_text self.sites tag.node agent.now child at body.next (body.next + 1) body.proc rest.proc) rest.next) }
    {
        let next = rest.next;
        let letter = body.next;
        let place = letter + 1;
        let made = Made { at, letter, place };
        let proc = self
            .writer(tag)
            .agent_text(agent, child, made, body.proc, rest.proc)?;
        Ok(Translated { proc, next })
    }
}
