//! What is told of a source that np refuses.

ghost use Rattle.std.specs.Prelude.{◌≡◌, ◌<◌, ◌≤◌, length, IfOk};
ghost use Rattle.np_syntax.specs.declared.limits.TheConstants.{LONGEST_SOURCE};
ghost use Rattle.refusal_diagnoses.specs.Marks.{MarksAt, MarksIn, offset_at};
ghost use Rattle.source_places.specs.Holds.{Holds};

use super::resolved::fault_reasons;
use super::spot::{Spot, spot_of};
use np_syntax::{LONGEST_SOURCE, List, Memory};
use np_verdict::{Refusal, tokens_of};
use source_places::{Mark, Range, Reasons, marked, without_marks};
use std::alloc::Global;
use syntax_reasons::{reasons_of_depth, reasons_of_syntax};
use token_reasons::{
    Source, char_reasons, home_reasons, many_reasons, number_reasons, string_reasons,
    twice_reasons, unbound_reasons,
};

/// What is told of a refusal of which the tokens of a source tell more.
fn reasons_of_tokens(alloc: Global, bytes: &[u8], refusal: Refusal) -> Result<Reasons, Memory>
    requires { length bytes.now ≤ LONGEST_SOURCE }
{
    let tokens = match tokens_of(alloc, bytes) {
        Ok(tokens) => tokens,
        Err(Refusal::Memory) => return Err(Memory),
        Err(_) => return without_marks(alloc, b"", b""),
    };
    let source = Source {
        bytes,
        tokens: tokens.as_slice(),
    };
    match refusal {
        Refusal::Syntax(at) => {
            let at = (at as usize).min(bytes.len());
            reasons_of_syntax(alloc, bytes, source.tokens, at)
        }
        Refusal::TooDeep(at) => reasons_of_depth(alloc, source.tokens, at),
        Refusal::Unbound(at) => unbound_reasons(alloc, source, at),
        Refusal::SiteTwice(at) => twice_reasons(alloc, source, at),
        Refusal::TooManySites(at) => many_reasons(alloc, source, at),
        Refusal::NotASite(at) => home_reasons(alloc, source, at),
        _ => fault_reasons(alloc, bytes, &tokens, refusal),
    }
}

/// What is told of a refusal, with the place that is refused as it was found.
fn found_reasons(alloc: Global, bytes: &[u8], refusal: Refusal) -> Result<Reasons, Memory>
    requires { length bytes.now ≤ LONGEST_SOURCE }
{
    match refusal {
        Refusal::BadChar(at) => char_reasons(alloc, bytes, at as usize),
        Refusal::BadString(at) => string_reasons(alloc, bytes, at as usize),
        Refusal::BigNumber(at) => number_reasons(alloc, bytes, at as usize),
        Refusal::TooLong => without_marks(
            alloc,
            b"a source of at most 1,048,576 bytes",
            b"shorten it; blanks and comments count too",
        ),
        _ => reasons_of_tokens(alloc, bytes, refusal),
    }
}

/// A mark that holds an offset of a text, but at its end.
fn held(mark: Mark, at: usize, len: usize) -> Mark
    ensures { at < len → Holds result at }
{
    if len <= at {
        return mark;
    }
    let Mark { range, label } = mark;
    marked(range, at, label)
}

/// The same of what may be marked: where nothing is, the offset alone is marked, without a label.
fn holding(alloc: Global, mark: Option<Mark>, at: usize, len: usize) -> Option<Mark>
    ensures { MarksAt result at len }
{
    match mark {
        Some(mark) => Some(held(mark, at, len)),
        None if at < len => Some(marked(Range { from: at, to: at }, at, List::new(alloc))),
        None => None,
    }
}

/// The offset of a spot, or the end of the text where it has none.
fn offset_at(spot: Spot, len: usize) -> usize
    ensures { result ≡ offset_at spot len }
{
    match spot {
        Spot::Offset(at) => at as usize,
        Spot::Line(_) | Spot::Marked | Spot::Nowhere => len,
    }
}

/// What is told of a refusal of a source.
pub fn source_reasons(alloc: Global, bytes: &[u8], refusal: Refusal) -> Result<Reasons, Memory>
    requires { length bytes.now ≤ LONGEST_SOURCE }
    ensures { IfOk result (MarksIn bytes.now refusal) }
{
    let found = found_reasons(alloc, bytes, refusal)?;
    let Reasons {
        refused,
        beside,
        wanted,
        why,
        next,
    } = found;
    let at = offset_at(spot_of(refusal), bytes.len());
    Ok(Reasons {
        refused: holding(alloc, refused, at, bytes.len()),
        beside,
        wanted,
        why,
        next,
    })
}
