//! Patterns that do not fit a type.

use super::checking::{Bound, Checking, How, Scope};
use super::showing::with_type;
use np_syntax::{List, Memory, Pat, PatForm, Text, Ty};
use source_forms::{index_at, pattern_span};
use source_places::{Mark, Reasons, filled, number_text};

/// Puts the names of a pattern in scope.
#[cycle(names)]
pub(super) fn bind_names(
    c: Checking<'_>,
    bound: &mut List<Bound>,
    pattern: &Pat,
) -> Result<(), Memory> {
    match &pattern.form {
        PatForm::Any => Ok(()),
        PatForm::Bind(binder) => bound.add(Bound {
            binder: *binder,
            how: How::Pattern,
            name: index_at(c.tokens, pattern.at),
        }),
        PatForm::Tuple(parts) => bind_parts(c, bound, parts.as_slice()),
    }
}

#[cycle(names)]
fn bind_parts(c: Checking<'_>, bound: &mut List<Bound>, parts: &[Pat]) -> Result<(), Memory> {
    for part in parts {
        bind_names(c, bound, part)?;
    }
    Ok(())
}

/// How many components a pattern has.
fn count_label(c: Checking<'_>, count: usize) -> Result<Text, Memory> {
    let words: &[u8] = if count == 1 {
        b"% component"
    } else {
        b"% components"
    };
    let digits = number_text(c.alloc, count as u64)?;
    filled(c.alloc, words, digits.as_slice())
}

/// What was wanted for a type in place of a pattern in square brackets, and how to go on.
fn shape_words(c: Checking<'_>, ty: &Ty) -> Result<(Text, Text), Memory> {
    let mut wanted = with_type(c.alloc, b"a pattern for `%`", ty)?;
    let Ty::Tuple(parts) = ty else {
        return Ok((wanted, List::from_slice(c.alloc, b"bind it to one name")?));
    };
    let digits = number_text(c.alloc, parts.len() as u64)?;
    wanted.append(b", which has ")?;
    wanted.append(digits.as_slice())?;
    let words = b"write % components, `_` for what is not used";
    Ok((wanted, filled(c.alloc, words, digits.as_slice())?))
}

/// What is told of a pattern in square brackets that does not fit a type.
fn shape_reasons(
    c: Checking<'_>,
    pattern: &Pat,
    count: usize,
    ty: &Ty,
    beside: Option<Mark>,
) -> Result<Option<Reasons>, Memory> {
    let label = count_label(c, count)?;
    let (wanted, next) = shape_words(c, ty)?;
    let said = c.said(beside, wanted, next.as_slice())?;
    Ok(c.told(pattern_span(c.tokens, pattern), label, said))
}

/// The pattern at the fault with the type that it is to take apart.
#[cycle(unfit)]
fn unfit<'a>(c: Checking<'_>, pattern: &'a Pat, ty: &'a Ty) -> Option<(&'a Pat, &'a Ty)> {
    match &pattern.form {
        PatForm::Tuple(_) if pattern.at == c.fault.at => Some((pattern, ty)),
        PatForm::Tuple(parts) => match ty {
            Ty::Tuple(types) => unfit_in(c, parts.as_slice(), types.as_slice()),
            _ => None,
        },
        _ => None,
    }
}

#[cycle(unfit)]
fn unfit_in<'a>(c: Checking<'_>, parts: &'a [Pat], types: &'a [Ty]) -> Option<(&'a Pat, &'a Ty)> {
    for i in 0..parts.len().min(types.len()) {
        if let Some(found) = unfit(c, &parts[i], &types[i]) {
            return Some(found);
        }
    }
    None
}

/// What is told of a pattern that does not fit a type.
pub(super) fn pattern_reasons(
    c: Checking<'_>,
    pattern: &Pat,
    ty: &Ty,
    beside: Option<Mark>,
) -> Result<Option<Reasons>, Memory> {
    let Some((found, inner)) = unfit(c, pattern, ty) else {
        return Ok(None);
    };
    match &found.form {
        PatForm::Tuple(parts) => shape_reasons(c, found, parts.len(), inner, beside),
        _ => Ok(None),
    }
}

/// The names of a pattern, put in scope with the types that np gives them.
pub(super) fn cover_names(
    c: Checking<'_>,
    scope: &mut Scope,
    pattern: &Pat,
    ty: &Ty,
) -> Result<(), Memory> {
    bind_names(c, &mut scope.bound, pattern)?;
    match np_types::cover(c.alloc, &mut scope.env, pattern, ty) {
        Ok(_) => Ok(()),
        Err(np_types::LeastFail::Fault(_)) => Ok(()),
        Err(np_types::LeastFail::Memory) => Err(Memory),
    }
}
