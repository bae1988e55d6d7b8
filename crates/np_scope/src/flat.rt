//! Processes with no process in them: their names, and the numbers behind them.

ghost use Rattle.std.specs.Prelude.{◌≡◌, IfOk};
ghost use Rattle.np_scope.specs.Counting.{Fits, IsBehind};
ghost use Rattle.np_scope.specs.Outcomes.{Gives};
ghost use Rattle.np_scope.specs.Resolved as spec;

use super::expressions::use_of;
use super::fail::ScopeFail;
use super::numbers::Numbers;
use super::resolver::Resolver;
use super::scope::Scope;
use np_syntax::{Expr, ProcForm};
use np_tree::{Ident, RawExpr};

impl Resolver {
    /// A channel, and then the value for it.
    #[tactic(auto, unfolding(crate::specs::Resolved::message))]
    fn message(
        self,
        scope: &Scope<'_>,
        chan: &Ident,
        value: &RawExpr,
    ) -> Result<(Expr, Expr), ScopeFail>
        ensures { Gives (spec.message self.sites chan.now value.now scope.now) result }
    {
        let chan = use_of(self.alloc, scope, chan)?;
        let value = self.expr(scope, value)?;
        Ok((chan, value))
    }

    /// An agent, and then the message for it.
    #[tactic(auto, unfolding(crate::specs::Resolved::addressed))]
    pub fn addressed(
        self,
        scope: &Scope<'_>,
        agent: &RawExpr,
        chan: &Ident,
        value: &RawExpr,
    ) -> Result<(Expr, Expr, Expr), ScopeFail>
        ensures { Gives (spec.addressed self.sites agent.now chan.now value.now scope.now) result }
    {
        let agent = self.expr(scope, agent)?;
        let (chan, value) = self.message(scope, chan, value)?;
        Ok((agent, chan, value))
    }

    /// An agent, and then the site where it is.
    #[tactic(auto, unfolding(crate::specs::Resolved::located))]
    fn located(
        self,
        scope: &Scope<'_>,
        agent: &RawExpr,
        site: &RawExpr,
    ) -> Result<(Expr, Expr), ScopeFail>
        ensures { Gives (spec.located self.sites agent.now site.now scope.now) result }
    {
        let agent = self.expr(scope, agent)?;
        let site = self.expr(scope, site)?;
        Ok((agent, site))
    }

    /// An output: the channel, and then the value.
    #[tactic(auto, unfolding(crate::specs::Resolved::out_form))]
    pub fn output(
        self,
        scope: &Scope<'_>,
        next: Numbers,
        chan: &Ident,
        value: &RawExpr,
    ) -> Result<(ProcForm, Numbers), ScopeFail>
        requires { Fits next 1 0 }
        ensures gives { Gives (spec.out_form self.sites chan.now value.now scope.now next) result }
        ensures behind { IfOk result (λ r. IsBehind next 1 0 r.1) }
    {
        let (chan, value) = self.message(scope, chan, value)?;
        Ok((ProcForm::Out(chan, value), next.next_node()))
    }

    /// A located message: the agent, the site, the channel, and then the value.
    #[tactic(auto, unfolding(crate::specs::Resolved::send_form))]
    pub fn send(
        self,
        scope: &Scope<'_>,
        next: Numbers,
        agent: &RawExpr,
        site: &RawExpr,
        chan: &Ident,
        value: &RawExpr,
    ) -> Result<(ProcForm, Numbers), ScopeFail>
        requires { Fits next 1 0 }
        ensures gives { Gives (spec.send_form self.sites agent.now site.now chan.now value.now scope.now next) result }
        ensures behind { IfOk result (λ r. IsBehind next 1 0 r.1) }
    {
        let (agent, site) = self.located(scope, agent, site)?;
        let (chan, value) = self.message(scope, chan, value)?;
        Ok((ProcForm::Send(agent, site, chan, value), next.next_node()))
    }

    /// A post: the agent, the channel, and then the value.
    #[tactic(auto, unfolding(crate::specs::Resolved::post_form))]
    pub fn post(
        self,
        scope: &Scope<'_>,
        next: Numbers,
        agent: &RawExpr,
        chan: &Ident,
        value: &RawExpr,
    ) -> Result<(ProcForm, Numbers), ScopeFail>
        requires { Fits next 1 0 }
        ensures gives { Gives (spec.post_form self.sites agent.now chan.now value.now scope.now next) result }
        ensures behind { IfOk result (λ r. IsBehind next 1 0 r.1) }
    {
        let (agent, chan, value) = self.addressed(scope, agent, chan, value)?;
        Ok((ProcForm::Post(agent, chan, value), next.next_node()))
    }

    /// A value to be said.
    #[tactic(auto, unfolding(crate::specs::Resolved::print_form))]
    pub fn print(
        self,
        scope: &Scope<'_>,
        next: Numbers,
        value: &RawExpr,
    ) -> Result<(ProcForm, Numbers), ScopeFail>
        requires { Fits next 1 0 }
        ensures gives { Gives (spec.print_form self.sites value.now scope.now next) result }
        ensures behind { IfOk result (λ r. IsBehind next 1 0 r.1) }
    {
        let value = self.expr(scope, value)?;
        Ok((ProcForm::Print(value), next.next_node()))
    }
}
