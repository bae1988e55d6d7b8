//! Expressions and their names.

ghost use Rattle.np_scope.specs.Naming.{meant, use_of};
ghost use Rattle.np_scope.specs.Outcomes.{Gives};
ghost use Rattle.np_scope.specs.Resolved as spec;

use super::fail::ScopeFail;
use super::resolver::Resolver;
use super::scope::{Meaning, Scope};
use np_syntax::{Expr, ExprForm, List, Value};
use np_tree::{Ident, RawExpr, RawExprForm};
use std::alloc::Global;

/// The form of a name that stands for a site or a binder.
fn meant(scope: &Scope<'_>, name: &Ident) -> Result<ExprForm, ScopeFail>
    ensures { Gives (meant scope.now name.now) result }
{
    match scope.find(name.text.as_slice()) {
        Some(Meaning::Site(site)) => Ok(ExprForm::Val(Value::Site(site))),
        Some(Meaning::Binder(binder)) => Ok(ExprForm::Var(binder)),
        None => Err(ScopeFail::Unbound(name.at)),
    }
}

/// A name that stands for a channel.
pub fn use_of(alloc: Global, scope: &Scope<'_>, name: &Ident) -> Result<Expr, ScopeFail>
    ensures { Gives (use_of scope.now name.now) result }
{
    let form = meant(scope, name)?;
    Ok(Expr::new(alloc, name.at, form)?)
}

impl Resolver {
    #[cycle(expr)]
    #[tactic(auto, using(crate::proofs::Forms::expressions))]
    pub fn expr(self, scope: &Scope<'_>, e: &RawExpr) -> Result<Expr, ScopeFail>
        ensures { Gives (spec.expr_of self.sites e.now scope.now) result }
    {
        self.expr_form(scope, e.at, e.form.get())
    }

    #[cycle(expr)]
    #[tactic(auto, using(crate::proofs::Forms::expressions))]
    fn expr_form(self, scope: &Scope<'_>, at: u32, form: &RawExprForm) -> Result<Expr, ScopeFail>
        ensures { Gives (spec.expr_form_of self.sites form.now at scope.now) result }
    {
        let form = match form {
            RawExprForm::Val(value) => ExprForm::Val(value.copy(self.alloc)?),
            RawExprForm::Main => ExprForm::Val(Value::Agent(self.main_name())),
            RawExprForm::Var(name) => meant(scope, name)?,
            RawExprForm::Tuple(parts) => ExprForm::Tuple(self.exprs(scope, parts.as_slice())?),
            RawExprForm::Bin(op, left, right) => {
                let left = self.expr(scope, left)?;
                let right = self.expr(scope, right)?;
                ExprForm::Bin(*op, left, right)
            }
        };
        Ok(Expr::new(self.alloc, at, form)?)
    }

    #[cycle(expr)]
    #[tactic(auto, using(crate::proofs::Forms::expressions))]
    fn exprs(self, scope: &Scope<'_>, parts: &[RawExpr]) -> Result<List<Expr>, ScopeFail>
        ensures { Gives (spec.exprs_of self.sites parts.now scope.now) result }
    {
        let mut resolved = List::new(self.alloc);
        for part in parts {
            resolved.add(self.expr(scope, part)?)?;
        }
        Ok(resolved)
    }
}
