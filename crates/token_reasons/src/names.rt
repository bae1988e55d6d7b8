//! Names that stand for nothing, and names in the list of sites.

ghost use Rattle.std.specs.Prelude.{IfOk};
ghost use Rattle.token_reasons.specs.Marks.{MarksAt};

use np_lex::{Sign, Token};
use np_syntax::{List, Memory};
use source_forms::{Span, index_at, range_of, sign_behind, token_text};
use source_places::{Mark, Range, Reasons, filled, marked};
use std::alloc::Global;

/// A source with its tokens.
#[derive(Clone, Copy)]
pub struct Source<'a> {
    pub bytes: &'a [u8],
    pub tokens: &'a [Token],
}

/// The token of an offset: its range, and how it is written.
fn found_at<'a>(source: Source<'a>, at: u32) -> (Range, &'a [u8]) {
    let index = index_at(source.tokens, at);
    let found = range_of(
        source.tokens,
        Span {
            first: index,
            last: index,
        },
    );
    (found, token_text(source.bytes, source.tokens, index))
}

/// What is told of a name: its label and what to do next have the name in their gaps.
fn told(
    alloc: Global,
    source: Source<'_>,
    at: u32,
    label: &[u8],
    wanted: &[u8],
    next: &[u8],
    beside: Option<Mark>,
) -> Result<Reasons, Memory>
    ensures { IfOk result (MarksAt at) }
{
    let (found, name) = found_at(source, at);
    let label = filled(alloc, label, name)?;
    let wanted = List::from_slice(alloc, wanted)?;
    let next = filled(alloc, next, name)?;
    Ok(Reasons {
        refused: Some(marked(found, at as usize, label)),
        beside,
        wanted,
        why: List::new(alloc),
        next,
    })
}

/// What is told of a name that no site and no binder in scope has.
pub fn unbound_reasons(alloc: Global, source: Source<'_>, at: u32) -> Result<Reasons, Memory>
    ensures { IfOk result (MarksAt at) }
{
    let wanted = b"a site, or a name that is bound where this stands";
    let next = b"bind it further out, by `new`, `agent`, `let` or the pattern of an input";
    told(
        alloc,
        source,
        at,
        b"nothing here is called %",
        wanted,
        next,
        None,
    )
}

/// The index of the first token that is written as another one.
fn first_written(source: Source<'_>, name: &[u8]) -> usize {
    for index in 0..source.tokens.len() {
        if token_text(source.bytes, source.tokens, index) == name {
            return index;
        }
    }
    0
}

/// What is told of a site that stands in the list before.
pub fn twice_reasons(alloc: Global, source: Source<'_>, at: u32) -> Result<Reasons, Memory>
    ensures { IfOk result (MarksAt at) }
{
    let (_, name) = found_at(source, at);
    let first = first_written(source, name);
    let label = filled(alloc, b"the first %", name)?;
    let range = range_of(source.tokens, Span { first, last: first });
    let next = b"leave it out, or give it another name";
    let beside = Some(Mark { range, label });
    told(
        alloc,
        source,
        at,
        b"% again",
        b"each site once",
        next,
        beside,
    )
}

/// What is told of the site that is one too many.
pub fn many_reasons(alloc: Global, source: Source<'_>, at: u32) -> Result<Reasons, Memory>
    ensures { IfOk result (MarksAt at) }
{
    let next = b"leave out sites: several agents may stand at one site";
    let wanted = b"at most 128 sites";
    told(alloc, source, at, b"the 129th site", wanted, next, None)
}

/// What is told of a name behind `main at` that is no site.
pub fn home_reasons(alloc: Global, source: Source<'_>, at: u32) -> Result<Reasons, Memory>
    ensures { IfOk result (MarksAt at) }
{
    let last = sign_behind(source.tokens, 0, Sign::Semi).saturating_sub(1);
    let label = List::from_slice(alloc, b"the sites")?;
    let range = range_of(source.tokens, Span { first: 1, last });
    let next = b"add `%` to the list, or let main begin at a site of it";
    let beside = Some(Mark { range, label });
    let wanted = b"a site of the list";
    told(alloc, source, at, b"% is no site", wanted, next, beside)
}
