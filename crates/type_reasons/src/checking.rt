//! What is known where a fault is.

use super::showing::type_text;
use np_lex::Token;
use np_syntax::{Expr, List, Memory, Text, Ty};
use np_types::{Env, LeastFail, TypeFault, least};
use source_forms::{Span, expr_span, index_at, range_of, token_text};
use source_places::{Mark, Reasons, marked};
use std::alloc::Global;

/// How a name is bound.
#[derive(Clone, Copy, PartialEq, Eq)]
pub(super) enum How {
    New,
    AgentForm,
    Pattern,
}

/// A binder that is in scope: its number, how it is bound, and the index of its name among the tokens.
#[derive(Clone, Copy)]
pub(super) struct Bound {
    pub binder: u32,
    pub how: How,
    pub name: usize,
}

/// The types of the binders in scope, and where they are bound.
#[derive(Drop)]
pub(super) struct Scope {
    pub env: Env,
    pub bound: List<Bound>,
}

/// A source with its tokens, and the fault that is looked for.
#[derive(Clone, Copy)]
pub(super) struct Checking<'a> {
    pub alloc: Global,
    pub bytes: &'a [u8],
    pub tokens: &'a [Token],
    pub fault: TypeFault,
}

/// What is told beside the place: another mark, what was wanted, why, and how to go on.
#[derive(Drop)]
pub(super) struct Said {
    pub beside: Option<Mark>,
    pub wanted: Text,
    pub why: Text,
    pub next: Text,
}

impl<'a> Checking<'a> {
    /// Whether the fault stands at an offset or behind it.
    pub(super) fn is_from(&self, at: u32) -> bool {
        at <= self.fault.at
    }

    /// How the first token of a part is written.
    pub(super) fn word_at(&self, at: u32) -> &'a [u8] {
        token_text(self.bytes, self.tokens, index_at(self.tokens, at))
    }

    /// A mark on tokens.
    pub(super) fn mark_on(&self, span: Span, label: Text) -> Mark {
        Mark {
            range: range_of(self.tokens, span),
            label,
        }
    }

    /// A mark on an expression, which is labelled with a type.
    pub(super) fn typed_mark(&self, e: &Expr, ty: &Ty) -> Result<Mark, Memory> {
        let label = type_text(self.alloc, ty)?;
        Ok(self.mark_on(expr_span(self.tokens, e), label))
    }

    /// A mark on one token, with these words.
    pub(super) fn token_mark(&self, index: usize, words: &[u8]) -> Result<Option<Mark>, Memory> {
        let label = List::from_slice(self.alloc, words)?;
        let span = Span {
            first: index,
            last: index,
        };
        Ok(Some(self.mark_on(span, label)))
    }

    /// What is told of tokens at which the fault is.
    pub(super) fn told(&self, span: Span, label: Text, said: Said) -> Option<Reasons> {
        let found = range_of(self.tokens, span);
        let Said {
            beside,
            wanted,
            why,
            next,
        } = said;
        Some(Reasons {
            refused: Some(marked(found, self.fault.at as usize, label)),
            beside,
            wanted,
            why,
            next,
        })
    }

    /// What is told of an expression of a type.
    pub(super) fn told_type(
        &self,
        e: &Expr,
        ty: &Ty,
        said: Said,
    ) -> Result<Option<Reasons>, Memory> {
        let label = type_text(self.alloc, ty)?;
        Ok(self.told(expr_span(self.tokens, e), label, said))
    }

    /// These words as what is told, without a reason.
    pub(super) fn said(
        &self,
        beside: Option<Mark>,
        wanted: Text,
        next: &[u8],
    ) -> Result<Said, Memory> {
        Ok(Said {
            beside,
            wanted,
            why: List::new(self.alloc),
            next: List::from_slice(self.alloc, next)?,
        })
    }
}

/// The least type of an expression, where it has one.
pub(super) fn type_of(alloc: Global, scope: &Scope, e: &Expr) -> Result<Option<Ty>, Memory> {
    match least(alloc, &scope.env, e) {
        Ok(ty) => Ok(Some(ty)),
        Err(LeastFail::Fault(_)) => Ok(None),
        Err(LeastFail::Memory) => Err(Memory),
    }
}
