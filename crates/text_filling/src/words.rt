//! Expressions and patterns that are written out, which have the offset 0.

ghost use Rattle.std.specs.Prelude.{◌≡◌};
ghost use Rattle.infrastructure_texts.specs.Pieces as spec;
ghost use Rattle.infrastructure_texts.specs.Pieces.{Writes};
ghost use Rattle.np_syntax.specs.declared.expression.Expr as expression;

use np_syntax::{Expr, ExprForm, List, Memory, Pat, PatForm};
use std::alloc::Global;

/// An expression that was written out, unless memory was wanting.
pub type WrittenExpr = Result<Expr, Memory>;

/// A pattern that was written out, unless memory was wanting.
pub type WrittenPat = Result<Pat, Memory>;

pub fn expression(alloc: Global, form: ExprForm) -> WrittenExpr
    ensures { Writes result (spec.expression form) }
{
    Expr::new(alloc, 0, form)
}

fn pattern(form: PatForm) -> Pat
    ensures { result ≡ spec.pattern form }
{
    Pat { at: 0, form }
}

/// `[e e']`
pub fn pair(alloc: Global, first: WrittenExpr, second: WrittenExpr) -> WrittenExpr
    ensures { (e f : expression.Expr) → Writes first e → Writes second f → Writes result (spec.pair e f) }
{
    let mut parts = List::new(alloc);
    parts.add(first?)?;
    parts.add(second?)?;
    expression(alloc, ExprForm::Tuple(parts))
}

pub fn nothing() -> Pat
    ensures { result ≡ spec.nothing }
{
    pattern(PatForm::Any)
}

pub fn name(binder: u32) -> Pat
    ensures { result ≡ spec.name binder }
{
    pattern(PatForm::Bind(binder))
}

pub fn two_names(alloc: Global, first: u32, second: u32) -> WrittenPat
    ensures { Writes result (spec.two_names first second) }
{
    let mut parts = List::new(alloc);
    parts.add(name(first))?;
    parts.add(name(second))?;
    Ok(pattern(PatForm::Tuple(parts)))
}
