//! Where a name was bound.

use super::checking::{Bound, Checking, How, Scope};
use super::showing::type_text;
use np_syntax::{Expr, ExprForm, Memory, Value};
use source_forms::{Span, token_text, type_span};
use source_places::{Mark, filled, filled_by};

/// Where the name of an expression was bound.
pub(super) fn bound_of(scope: &Scope, e: &Expr) -> Option<Bound> {
    let ExprForm::Var(binder) = e.form.get() else {
        return None;
    };
    let wanted = *binder;
    scope
        .bound
        .as_slice()
        .iter()
        .rev()
        .copied()
        .find(|bound| bound.binder == wanted)
}

/// The mark on the name of a pattern.
fn pattern_mark(c: Checking<'_>, scope: &Scope, bound: Bound) -> Result<Option<Mark>, Memory> {
    let name = token_text(c.bytes, c.tokens, bound.name);
    let Some(ty) = scope.env.get(bound.binder) else {
        return Ok(None);
    };
    let ty = type_text(c.alloc, ty)?;
    let label = filled_by(c.alloc, b"% : # is bound here", name, ty.as_slice())?;
    let span = Span {
        first: bound.name,
        last: bound.name,
    };
    Ok(Some(c.mark_on(span, label)))
}

/// The tokens of the type behind `new`, or of what it carries.
fn new_span(c: Checking<'_>, bound: Bound, carried: bool) -> Span {
    let first = bound.name.saturating_add(if carried { 3 } else { 2 });
    type_span(c.tokens, first)
}

/// The mark on where a binder is bound.
fn binder_mark(c: Checking<'_>, scope: &Scope, bound: Bound) -> Result<Option<Mark>, Memory> {
    let name = token_text(c.bytes, c.tokens, bound.name);
    match bound.how {
        How::New => {
            let label = filled(c.alloc, b"% has this type", name)?;
            Ok(Some(c.mark_on(new_span(c, bound, false), label)))
        }
        How::AgentForm => {
            let label = filled(c.alloc, b"% is an agent", name)?;
            c.token_mark(bound.name, label.as_slice())
        }
        How::Pattern => pattern_mark(c, scope, bound),
    }
}

/// The mark on a site in the list.
fn site_mark(c: Checking<'_>, e: &Expr, site: u32) -> Result<Option<Mark>, Memory> {
    let label = filled(c.alloc, b"% is a site", c.word_at(e.at))?;
    c.token_mark((site as usize).saturating_add(1), label.as_slice())
}

/// The mark on where the name of an expression is bound, if it is a name.
pub(super) fn bound_mark(c: Checking<'_>, scope: &Scope, e: &Expr) -> Result<Option<Mark>, Memory> {
    if let ExprForm::Val(Value::Site(site)) = e.form.get() {
        return site_mark(c, e, *site);
    }
    match bound_of(scope, e) {
        Some(bound) => binder_mark(c, scope, bound),
        None => Ok(None),
    }
}

/// The mark on what a channel carries, or on where its name is bound.
pub(super) fn carried_mark(
    c: Checking<'_>,
    scope: &Scope,
    channel: &Expr,
) -> Result<Option<Mark>, Memory> {
    match bound_of(scope, channel) {
        Some(bound) if bound.how == How::New => {
            let name = token_text(c.bytes, c.tokens, bound.name);
            let label = filled(c.alloc, b"% carries this", name)?;
            Ok(Some(c.mark_on(new_span(c, bound, true), label)))
        }
        _ => bound_mark(c, scope, channel),
    }
}

/// The mark on the sign with which a channel is made, or on where its name is bound.
pub(super) fn made_mark(
    c: Checking<'_>,
    scope: &Scope,
    channel: &Expr,
) -> Result<Option<Mark>, Memory> {
    match bound_of(scope, channel) {
        Some(bound) if bound.how == How::New => {
            let name = token_text(c.bytes, c.tokens, bound.name);
            let sign = bound.name.saturating_add(2);
            let written = token_text(c.bytes, c.tokens, sign);
            let label = filled_by(c.alloc, b"% is made with #", name, written)?;
            c.token_mark(sign, label.as_slice())
        }
        _ => bound_mark(c, scope, channel),
    }
}
