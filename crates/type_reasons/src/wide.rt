//! Types that are too wide.

use super::checking::{Checking, Scope, type_of};
use np_syntax::{Expr, List, Memory, Proc, Text, Ty};
use source_forms::{Span, expr_span, index_at, token_text, type_span};
use source_places::{Mark, Reasons, counted, filled};
use std::alloc::Global;

/// How many nodes a type has.
#[cycle(count)]
pub(super) fn nodes(ty: &Ty) -> u64 {
    match ty {
        Ty::Chan(_, carried) => nodes(carried.get()).saturating_add(1),
        Ty::Tuple(parts) => nodes_in(parts.as_slice()).saturating_add(1),
        _ => 1,
    }
}

#[cycle(count)]
fn nodes_in(types: &[Ty]) -> u64 {
    let mut count: u64 = 0;
    for ty in types {
        count = count.saturating_add(nodes(ty));
    }
    count
}

/// Words in which a number stands.
fn with_count(alloc: Global, words: &[u8], number: u64) -> Result<Text, Memory> {
    let count = counted(alloc, number)?;
    filled(alloc, words, count.as_slice())
}

/// What is told of a `new` whose type is too wide.
pub(super) fn new_reasons(c: Checking<'_>, p: &Proc, ty: &Ty) -> Result<Option<Reasons>, Memory> {
    let first = index_at(c.tokens, p.at);
    let name = token_text(c.bytes, c.tokens, first.saturating_add(1));
    let label = filled(c.alloc, b"makes %", name)?;
    let count = with_count(c.alloc, b"this type has %", nodes(ty))?;
    let written = type_span(c.tokens, first.saturating_add(3));
    let beside = Some(c.mark_on(written, count));
    let wanted = List::from_slice(c.alloc, b"a type of at most 1,024 nodes")?;
    let next = b"carry less at once, or send the parts one after another";
    let said = c.said(beside, wanted, next)?;
    Ok(c.told(Span { first, last: first }, label, said))
}

/// The mark on the widest component, the first one of several.
fn widest_mark(c: Checking<'_>, scope: &Scope, parts: &[Expr]) -> Result<Option<Mark>, Memory> {
    let mut most: u64 = 0;
    let mut found = None;
    for part in parts {
        let count = match type_of(c.alloc, scope, part)? {
            Some(ty) => nodes(&ty),
            None => 0,
        };
        if most < count {
            most = count;
            found = Some(expr_span(c.tokens, part));
        }
    }
    let Some(span) = found else {
        return Ok(None);
    };
    let label = with_count(c.alloc, b"% of them", most)?;
    Ok(Some(c.mark_on(span, label)))
}

/// How many nodes the type of a tuple of these has.
fn tuple_nodes(c: Checking<'_>, scope: &Scope, parts: &[Expr]) -> Result<u64, Memory> {
    let mut count: u64 = 1;
    for part in parts {
        if let Some(ty) = type_of(c.alloc, scope, part)? {
            count = count.saturating_add(nodes(&ty));
        }
    }
    Ok(count)
}

/// What is told of a tuple whose type is too wide.
pub(super) fn tuple_reasons(
    c: Checking<'_>,
    scope: &Scope,
    e: &Expr,
    parts: &[Expr],
) -> Result<Option<Reasons>, Memory> {
    let beside = widest_mark(c, scope, parts)?;
    let count = tuple_nodes(c, scope, parts)?;
    let label = with_count(c.alloc, b"its type has % nodes", count)?;
    let wanted = List::from_slice(c.alloc, b"a type of at most 1,024 nodes")?;
    let next = b"send the parts one after another, or name less in one tuple";
    let said = c.said(beside, wanted, next)?;
    Ok(c.told(expr_span(c.tokens, e), label, said))
}
