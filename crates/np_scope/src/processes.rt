//! Processes: the numbers of their nodes and binders, and their names.

ghost use Rattle.std.specs.Prelude.{◌≡◌, IfOk, OnOk};
ghost use Rattle.np_tree.specs.declared.tree.RawProcForm as raw;
ghost use Rattle.np_scope.specs.Counting.{ProcFits, IsBehindProc, FormFits, IsBehindForm};
ghost use Rattle.np_scope.specs.Counting.{TwoFit, IsBehindTwo, BodyFits, IsBehindBody};
ghost use Rattle.np_scope.specs.Outcomes.{Gives};
ghost use Rattle.np_scope.specs.Resolved as spec;

use super::expressions::use_of;
use super::fail::ScopeFail;
use super::numbers::{Numbers, Placed};
use super::patterns::pat;
use super::resolver::Resolver;
use super::scope::{Meaning, Scope};
use np_syntax::{Pat, Proc, ProcForm, Ty};
use np_tree::{Ident, RawExpr, RawPat, RawProc, RawProcForm};

impl Resolver {
    /// The process with the next number, and the numbers behind it. After an error its names may be in scope.
    #[cycle(process)]
    #[tactic(auto, using(crate::proofs::Forms::placed_forms, crate::proofs::Sizes::proc_sizes))]
    pub fn proc<'a>(
        self,
        scope: &mut Scope<'a>,
        next: Numbers,
        p: &'a RawProc,
    ) -> Result<Placed, ScopeFail>
        requires { ProcFits next p.now }
        ensures gives { Gives (spec.proc_of self.sites p.now scope.old next) result }
        ensures scope { OnOk result (scope.new ≡ scope.old) }
        ensures behind { IfOk result (λ placed. IsBehindProc next p.now placed.next) }
    {
        let (form, after) = self.proc_form(scope, next, p.form.get())?;
        Ok(next.place(self.alloc, p.at, form, after)?)
    }

    /// The form of the process with the next number, and the numbers behind it.
    #[cycle(process)]
    #[tactic(auto, using(crate::proofs::Forms::processes, crate::proofs::Sizes::form_sizes))]
    fn proc_form<'a>(
        self,
        scope: &mut Scope<'a>,
        next: Numbers,
        form: &'a RawProcForm,
    ) -> Result<(ProcForm, Numbers), ScopeFail>
        requires { FormFits next form.now }
        ensures gives { Gives (spec.proc_form_of self.sites form.now scope.old next) result }
        ensures scope { OnOk result (scope.new ≡ scope.old) }
        ensures behind { IfOk result (λ r. IsBehindForm next form.now r.1) }
    {
        match form {
            RawProcForm::Stop => Ok((ProcForm::Stop, next.next_node())),
            RawProcForm::Par(left, right) => self.parallel(scope, next, left, right),
            RawProcForm::New(name, ty, body) => self.channel(scope, next, name, ty, body),
            RawProcForm::Out(chan, value) => self.output(scope, next, chan, value),
            RawProcForm::Inp(chan, names, body) => self.input(scope, next, chan, names, body),
            RawProcForm::Rep(chan, names, body) => {
                self.replicated(scope, next, chan, names, body)
            }
            RawProcForm::Agent(agent, body, rest) => { self.agent(scope, next, agent, body, rest) }
            RawProcForm::Migrate(site, body) => self.migrate(scope, next, site, body),
            RawProcForm::IfLocal(agent, chan, value, met, unmet) => {
                self.iflocal(scope, next, agent, chan, value, met, unmet)
            }
            RawProcForm::Send(agent, site, chan, value) => {
                self.send(scope, next, agent, site, chan, value)
            }
            RawProcForm::Post(agent, chan, value) => self.post(scope, next, agent, chan, value),
            RawProcForm::If(e, met, unmet) => self.test(scope, next, e, met, unmet),
            RawProcForm::Let(names, value, body) => { self.bind(scope, next, names, value, body) }
            RawProcForm::Print(value) => self.print(scope, next, value),
        }
    }

    /// Two processes, the second behind the first, and the numbers behind both.
    #[cycle(process)]
    #[tactic(auto, unfolding(crate::specs::Resolved::two))]
    fn two<'a>(
        self,
        scope: &mut Scope<'a>,
        next: Numbers,
        first: &'a RawProc,
        second: &'a RawProc,
    ) -> Result<(Proc, Proc, Numbers), ScopeFail>
        requires { TwoFit next first.now second.now }
        ensures gives { Gives (spec.two (spec.proc_of self.sites first.now) (spec.proc_of self.sites second.now) scope.old next) result }
        ensures scope { OnOk result (scope.new ≡ scope.old) }
        ensures behind { IfOk result (λ r. IsBehindTwo next first.now second.now r.2) }
    {
        let first = self.proc(scope, next, first)?;
        let second = self.proc(scope, first.next, second)?;
        Ok((first.proc, second.proc, second.next))
    }

    /// A body in the scope of a pattern's names, behind the pattern, and the numbers behind it.
    #[cycle(process)]
    #[tactic(auto, unfolding(crate::specs::Resolved::under))]
    fn under<'a>(
        self,
        scope: &mut Scope<'a>,
        next: Numbers,
        names: &'a RawPat,
        body: &'a RawProc,
    ) -> Result<(Pat, Proc, Numbers), ScopeFail>
        requires { BodyFits next names.now body.now }
        ensures gives { Gives (spec.under names.now (spec.proc_of self.sites body.now) scope.old next) result }
        ensures scope { OnOk result (scope.new ≡ scope.old) }
        ensures behind { IfOk result (λ r. IsBehindBody next names.now body.now r.2) }
    {
        let depth = scope.len();
        let (names, binder) = pat(self.alloc, scope, next.binder, names)?;
        let inner = Numbers {
            node: next.node,
            binder,
        };
        let body = self.proc(scope, inner, body)?;
        scope.leave_to(depth);
        Ok((names, body.proc, body.next))
    }

    /// Processes side by side.
    #[cycle(process)]
    #[tactic(auto, using(crate::proofs::Sizes::par_sizes), unfolding(crate::specs::Resolved::par_form))]
    fn parallel<'a>(
        self,
        scope: &mut Scope<'a>,
        next: Numbers,
        left: &'a RawProc,
        right: &'a RawProc,
    ) -> Result<(ProcForm, Numbers), ScopeFail>
        requires { FormFits next (raw.Par left.now right.now) }
        ensures gives { Gives (spec.par_form (spec.proc_of self.sites left.now) (spec.proc_of self.sites right.now) scope.old next) result }
        ensures scope { OnOk result (scope.new ≡ scope.old) }
        ensures behind { IfOk result (λ r. IsBehindForm next (raw.Par left.now right.now) r.1) }
    {
        let (left, right, after) = self.two(scope, next.next_node(), left, right)?;
        Ok((ProcForm::Par(left, right), after))
    }

    /// A new channel, whose name is in scope in the body.
    #[cycle(process)]
    #[tactic(auto, using(crate::proofs::Sizes::new_sizes), unfolding(crate::specs::Resolved::new_form))]
    fn channel<'a>(
        self,
        scope: &mut Scope<'a>,
        next: Numbers,
        name: &'a Ident,
        ty: &Ty,
        body: &'a RawProc,
    ) -> Result<(ProcForm, Numbers), ScopeFail>
        requires { FormFits next (raw.New name.now ty.now body.now) }
        ensures gives { Gives (spec.new_form name.now ty.now (spec.proc_of self.sites body.now) scope.old next) result }
        ensures scope { OnOk result (scope.new ≡ scope.old) }
        ensures behind { IfOk result (λ r. IsBehindForm next (raw.New name.now ty.now body.now) r.1) }
    {
        let ty = ty.copy(self.alloc)?;
        scope.enter(name.text.as_slice(), Meaning::Binder(next.binder))?;
        let body = self.proc(scope, next.next_both(), body)?;
        scope.leave();
        Ok((ProcForm::New(next.binder, ty, body.proc), body.next))
    }

    /// An input, whose body is in the scope of the pattern's names.
    #[cycle(process)]
    #[tactic(auto, using(crate::proofs::Sizes::input_sizes), unfolding(crate::specs::Resolved::inp_form))]
    fn input<'a>(
        self,
        scope: &mut Scope<'a>,
        next: Numbers,
        chan: &Ident,
        names: &'a RawPat,
        body: &'a RawProc,
    ) -> Result<(ProcForm, Numbers), ScopeFail>
        requires { FormFits next (raw.Inp chan.now names.now body.now) }
        ensures gives { Gives (spec.inp_form chan.now names.now (spec.proc_of self.sites body.now) scope.old next) result }
        ensures scope { OnOk result (scope.new ≡ scope.old) }
        ensures behind { IfOk result (λ r. IsBehindForm next (raw.Inp chan.now names.now body.now) r.1) }
    {
        let chan = use_of(self.alloc, scope, chan)?;
        let (names, body, after) = self.under(scope, next.next_node(), names, body)?;
        Ok((ProcForm::Inp(chan, names, body), after))
    }

    /// A replicated input.
    #[cycle(process)]
    #[tactic(auto, using(crate::proofs::Sizes::replicated_sizes), unfolding(crate::specs::Resolved::rep_form))]
    fn replicated<'a>(
        self,
        scope: &mut Scope<'a>,
        next: Numbers,
        chan: &Ident,
        names: &'a RawPat,
        body: &'a RawProc,
    ) -> Result<(ProcForm, Numbers), ScopeFail>
        requires { FormFits next (raw.Rep chan.now names.now body.now) }
        ensures gives { Gives (spec.rep_form chan.now names.now (spec.proc_of self.sites body.now) scope.old next) result }
        ensures scope { OnOk result (scope.new ≡ scope.old) }
        ensures behind { IfOk result (λ r. IsBehindForm next (raw.Rep chan.now names.now body.now) r.1) }
    {
        let chan = use_of(self.alloc, scope, chan)?;
        let (names, body, after) = self.under(scope, next.next_node(), names, body)?;
        Ok((ProcForm::Rep(chan, names, body), after))
    }

    /// A new agent, whose name is in scope in its body and in the rest.
    #[cycle(process)]
    #[tactic(auto, using(crate::proofs::Sizes::agent_sizes), unfolding(crate::specs::Resolved::agent_form))]
    fn agent<'a>(
        self,
        scope: &mut Scope<'a>,
        next: Numbers,
        agent: &'a Ident,
        body: &'a RawProc,
        rest: &'a RawProc,
    ) -> Result<(ProcForm, Numbers), ScopeFail>
        requires { FormFits next (raw.Agent agent.now body.now rest.now) }
        ensures gives { Gives (spec.agent_form agent.now (spec.proc_of self.sites body.now)
            (spec.proc_of self.sites rest.now) scope.old next) result }
        ensures scope { OnOk result (scope.new ≡ scope.old) }
        ensures behind { IfOk result (λ r. IsBehindForm next (raw.Agent agent.now body.now rest.now) r.1) }
    {
        scope.enter(agent.text.as_slice(), Meaning::Binder(next.binder))?;
        let (body, rest, after) = self.two(scope, next.next_both(), body, rest)?;
        scope.leave();
        Ok((ProcForm::Agent(next.binder, body, rest), after))
    }

    /// A migration, and what the agent does at the site.
    #[cycle(process)]
    #[tactic(auto, using(crate::proofs::Sizes::migrate_sizes), unfolding(crate::specs::Resolved::migrate_form))]
    fn migrate<'a>(
        self,
        scope: &mut Scope<'a>,
        next: Numbers,
        site: &RawExpr,
        body: &'a RawProc,
    ) -> Result<(ProcForm, Numbers), ScopeFail>
        requires { FormFits next (raw.Migrate site.now body.now) }
        ensures gives { Gives (spec.migrate_form self.sites site.now (spec.proc_of self.sites body.now) scope.old next) result }
        ensures scope { OnOk result (scope.new ≡ scope.old) }
        ensures behind { IfOk result (λ r. IsBehindForm next (raw.Migrate site.now body.now) r.1) }
    {
        let site = self.expr(scope, site)?;
        let body = self.proc(scope, next.next_node(), body)?;
        Ok((ProcForm::Migrate(site, body.proc), body.next))
    }

    /// A message to an agent, if it is here, and what follows in either case.
    #[cycle(process)]
    #[tactic(auto, using(crate::proofs::Sizes::iflocal_sizes), unfolding(crate::specs::Resolved::iflocal_form))]
    fn iflocal<'a>(
        self,
        scope: &mut Scope<'a>,
        next: Numbers,
        agent: &RawExpr,
        chan: &Ident,
        value: &RawExpr,
        met: &'a RawProc,
        unmet: &'a RawProc,
    ) -> Result<(ProcForm, Numbers), ScopeFail>
        requires { FormFits next (raw.IfLocal agent.now chan.now value.now met.now unmet.now) }
        ensures gives { Gives (spec.iflocal_form self.sites agent.now chan.now value.now (spec.proc_of self.sites met.now)
            (spec.proc_of self.sites unmet.now) scope.old next) result }
        ensures scope { OnOk result (scope.new ≡ scope.old) }
        ensures behind { IfOk result (λ r. IsBehindForm next (raw.IfLocal agent.now chan.now value.now met.now unmet.now) r.1) }
    {
        let (agent, chan, value) = self.addressed(scope, agent, chan, value)?;
        let (met, unmet, after) = self.two(scope, next.next_node(), met, unmet)?;
        Ok((ProcForm::IfLocal(agent, chan, value, met, unmet), after))
    }

    /// A test, and what follows in either case.
    #[cycle(process)]
    #[tactic(auto, using(crate::proofs::Sizes::if_sizes), unfolding(crate::specs::Resolved::if_form))]
    fn test<'a>(
        self,
        scope: &mut Scope<'a>,
        next: Numbers,
        test: &RawExpr,
        met: &'a RawProc,
        unmet: &'a RawProc,
    ) -> Result<(ProcForm, Numbers), ScopeFail>
        requires { FormFits next (raw.If test.now met.now unmet.now) }
        ensures gives { Gives (spec.if_form self.sites test.now (spec.proc_of self.sites met.now)
            (spec.proc_of self.sites unmet.now) scope.old next) result }
        ensures scope { OnOk result (scope.new ≡ scope.old) }
        ensures behind { IfOk result (λ r. IsBehindForm next (raw.If test.now met.now unmet.now) r.1) }
    {
        let test = self.expr(scope, test)?;
        let (met, unmet, after) = self.two(scope, next.next_node(), met, unmet)?;
        Ok((ProcForm::If(test, met, unmet), after))
    }

    /// A `let`, whose body is in the scope of the pattern's names, and whose expression is not.
    #[cycle(process)]
    #[tactic(auto, using(crate::proofs::Sizes::let_sizes), unfolding(crate::specs::Resolved::let_form))]
    fn bind<'a>(
        self,
        scope: &mut Scope<'a>,
        next: Numbers,
        names: &'a RawPat,
        value: &RawExpr,
        body: &'a RawProc,
    ) -> Result<(ProcForm, Numbers), ScopeFail>
        requires { FormFits next (raw.Let names.now value.now body.now) }
        ensures gives { Gives (spec.let_form self.sites names.now value.now (spec.proc_of self.sites body.now) scope.old next) result }
        ensures scope { OnOk result (scope.new ≡ scope.old) }
        ensures behind { IfOk result (λ r. IsBehindForm next (raw.Let names.now value.now body.now) r.1) }
    {
        let given = self.expr(scope, value)?;
        let (names, body, after) = self.under(scope, next.next_node(), names, body)?;
        Ok((ProcForm::Let(names, given, body), after))
    }
}
