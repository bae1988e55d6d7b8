//! Location tests.

use np_lex::{Sign, Token};
use np_syntax::{List, Memory};
use source_forms::{Span, index_at, range_of, sign_behind};
use source_places::{Range, Reasons, marked};
use std::alloc::Global;

/// What is told of a test of where an agent is, which a run with migration in one step cannot have.
pub fn reasons_of_test(alloc: Global, tokens: &[Token], at: u32) -> Result<Reasons, Memory> {
    let first = index_at(tokens, at);
    let channel = sign_behind(tokens, first, Sign::Bang).saturating_sub(1);
    let span = Span {
        first: channel,
        last: channel,
    };
    let found = Range {
        from: at as usize,
        to: range_of(tokens, span).from,
    };
    let label = List::from_slice(alloc, b"asks where an agent is")?;
    let wanted = List::from_slice(alloc, b"no `iflocal` and no `<b@s>` with `--one`")?;
    let words = b"migration in one step is told apart from two by such a test";
    let why = List::from_slice(alloc, words)?;
    let next = List::from_slice(alloc, b"leave `--one` out, or send by `<b@?>`")?;
    Ok(Reasons {
        refused: Some(marked(found, at as usize, label)),
        beside: None,
        wanted,
        why,
        next,
    })
}
