//! Patterns and their binders.

ghost use Rattle.std.specs.Prelude.{◌≡◌, ◌≤◌, ◌+◌, IfOk};
ghost use Rattle.np_tree.specs.Sizes.{names, form_names, names_all};
ghost use Rattle.np_scope.specs.Resolved as spec;
ghost use Rattle.np_scope.specs.Resolved.{bound};

use super::scope::{Meaning, Scope};
use np_syntax::{List, MOST_BINDERS, Memory, Pat, PatForm};
use np_tree::{RawPat, RawPatForm};
use std::alloc::Global;

/// Puts the names of the pattern in scope. The number behind them is answered with the pattern.
#[cycle(pat)]
#[tactic(auto, using(crate::proofs::Forms::patterns, crate::proofs::Sizes::pattern_sizes))]
pub fn pat<'a>(
    alloc: Global,
    scope: &mut Scope<'a>,
    next: u32,
    p: &'a RawPat,
) -> Result<(Pat, u32), Memory>
    requires { next + names p.now ≤ MOST_BINDERS }
    ensures bound { IfOk result (λ r. spec.pat_of p.now scope.old next ≡ bound r.0 scope.new r.1) }
    ensures behind { IfOk result (λ r. r.1 ≡ next + names p.now) }
{
    pat_form(alloc, scope, next, p.at, &p.form)
}

#[cycle(pat)]
#[tactic(auto, using(crate::proofs::Forms::patterns, crate::proofs::Sizes::pattern_sizes))]
fn pat_form<'a>(
    alloc: Global,
    scope: &mut Scope<'a>,
    next: u32,
    at: u32,
    form: &'a RawPatForm,
) -> Result<(Pat, u32), Memory>
    requires { next + form_names form.now ≤ MOST_BINDERS }
    ensures bound { IfOk result (λ r. spec.pat_form_of form.now at scope.old next ≡ bound r.0 scope.new r.1) }
    ensures behind { IfOk result (λ r. r.1 ≡ next + form_names form.now) }
{
    match form {
        RawPatForm::Any => {
            let form = PatForm::Any;
            Ok((Pat { at, form }, next))
        }
        RawPatForm::Bind(name) => {
            scope.enter(name.text.as_slice(), Meaning::Binder(next))?;
            let form = PatForm::Bind(next);
            Ok((Pat { at, form }, next + 1))
        }
        RawPatForm::Tuple(parts) => {
            let (parts, after) = pats(alloc, scope, next, parts.as_slice())?;
            let form = PatForm::Tuple(parts);
            Ok((Pat { at, form }, after))
        }
    }
}

#[cycle(pat)]
#[tactic(auto, using(crate::proofs::Forms::patterns, crate::proofs::Sizes::pattern_sizes))]
fn pats<'a>(
    alloc: Global,
    scope: &mut Scope<'a>,
    next: u32,
    parts: &'a [RawPat],
) -> Result<(List<Pat>, u32), Memory>
    requires { next + names_all parts.now ≤ MOST_BINDERS }
    ensures bound { IfOk result (λ r. spec.pats_of parts.now scope.old next ≡ bound r.0 scope.new r.1) }
    ensures behind { IfOk result (λ r. r.1 ≡ next + names_all parts.now) }
{
    let mut resolved = List::new(alloc);
    let mut number = next;
    for part in parts {
        let (part, after) = pat(alloc, scope, number, part)?;
        resolved.add(part)?;
        number = after;
    }
    Ok((resolved, number))
}
