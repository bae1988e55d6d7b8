//! How patterns are read.

ghost use Rattle.std.specs.Prelude.{◌≡◌, ◌≤◌, ◌<◌, ◌+◌, suc, IfOk};
ghost use Rattle.np_parse.specs.Input.{Reads, nothing};
ghost use Rattle.np_parse.specs.Read.Tuples.{sized, tuple_in, parts};
ghost use Rattle.np_parse.specs.Read.Patterns as spec;

use super::closing::closes;
use super::cursor::Cursor;
use super::fail::ParseFail;
use np_lex::{Sign, What};
use np_syntax::{DEEPEST, List, MOST_PARTS};
use np_tree::{RawPat, RawPatForm};
use std::alloc::Global;

fn begins_pat(what: &What) -> bool
    ensures { result ≡ spec.begins_pat what.now }
{
    match what {
        What::Ident(_) => true,
        What::Sign(Sign::Underscore | Sign::SquareOpen) => true,
        _ => false,
    }
}

/// Where no level is left for a pattern.
#[tactic(auto, unfolding(crate::specs::Input::nothing))]
fn no_pat(tokens: &Cursor<'_>) -> Result<(RawPat, u32), ParseFail>
    ensures reads { Reads (nothing spec.begins_pat tokens.now) result tokens.now }
    ensures within { IfOk result (λ x. x.1 ≡ 0) }
{
    if begins_pat(tokens.peek()?) {
        Err(tokens.too_deep())
    } else {
        Err(tokens.syntax())
    }
}

#[tactic(auto, unfolding(crate::specs::Read::Patterns::any))]
fn any(tokens: &mut Cursor<'_>) -> Result<(RawPat, u32), ParseFail>
    ensures reads { Reads (spec.any tokens.old) result tokens.new }
    ensures within { IfOk result (λ x. x.1 ≡ 1) }
{
    let at = tokens.take()?;
    let form = RawPatForm::Any;
    Ok((RawPat { at, form }, 1))
}

#[tactic(auto, unfolding(crate::specs::Read::Patterns::binder))]
fn binder(alloc: Global, tokens: &mut Cursor<'_>) -> Result<(RawPat, u32), ParseFail>
    ensures reads { Reads (spec.binder tokens.old) result tokens.new }
    ensures within { IfOk result (λ x. x.1 ≡ 1) }
{
    let name = tokens.name(alloc)?;
    let at = name.at;
    let form = RawPatForm::Bind(name);
    Ok((RawPat { at, form }, 1))
}

/// The parts of a tuple pattern behind these, and the closing bracket: gives the depth of the deepest.
#[tactic(auto, using(crate::proofs::Steps::all_parts))]
#[cycle(pat)]
fn pat_parts(
    alloc: Global,
    tokens: &mut Cursor<'_>,
    below: u32,
    items: &mut List<RawPat>,
) -> Result<u32, ParseFail>
    requires { below < DEEPEST }
    ensures reads { Reads (parts (spec.pat below) MOST_PARTS items.old 0 tokens.old) (sized items.new result) tokens.new }
    ensures within { IfOk result (λ x. x ≤ below) }
{
    let mut depth: u32 = 0;
    'parts: for _ in 0..MOST_PARTS {
        if closes(tokens.peek()?) {
            tokens.take()?;
            return Ok(depth);
        }
        let (item, deep) = pat(alloc, tokens, below)?;
        items.add(item)?;
        depth = depth.max(deep);
    }
    tokens.expect_sign(Sign::SquareClose)?;
    Ok(depth)
}

#[tactic(auto, unfolding(crate::specs::Read::Tuples::tuple_in))]
#[cycle(pat)]
fn tuple_pat(alloc: Global, tokens: &mut Cursor<'_>, below: u32) -> Result<(RawPat, u32), ParseFail>
    requires { below < DEEPEST }
    ensures reads { Reads (tuple_in (spec.pat below) spec.tuple_pattern tokens.old) result tokens.new }
    ensures within { IfOk result (λ x. x.1 ≤ below + 1) }
{
    let at = tokens.take()?;
    let mut items = List::new(alloc);
    let depth = pat_parts(alloc, tokens, below, &mut items)?;
    let form = RawPatForm::Tuple(items);
    Ok((RawPat { at, form }, depth + 1))
}

/// A pattern, with so many levels below it for its parts.
#[tactic(auto, unfolding(crate::specs::Read::Patterns::pat, crate::specs::Read::Patterns::pat_in))]
#[cycle(pat)]
fn pat_in(alloc: Global, tokens: &mut Cursor<'_>, below: u32) -> Result<(RawPat, u32), ParseFail>
    requires { below < DEEPEST }
    ensures reads { Reads (spec.pat (suc below) tokens.old) result tokens.new }
    ensures within { IfOk result (λ x. x.1 ≤ below + 1) }
{
    match tokens.peek()? {
        What::Ident(_) => binder(alloc, tokens),
        What::Sign(Sign::Underscore) => any(tokens),
        What::Sign(Sign::SquareOpen) => tuple_pat(alloc, tokens, below),
        _ => Err(tokens.syntax()),
    }
}

/// A pattern of so many levels at most.
#[tactic(auto, using(crate::proofs::Levels::deeper_pat), unfolding(crate::specs::Read::Patterns::pat))]
#[cycle(pat)]
pub fn pat(alloc: Global, tokens: &mut Cursor<'_>, levels: u32) -> Result<(RawPat, u32), ParseFail>
    requires { levels ≤ DEEPEST }
    ensures reads { Reads (spec.pat levels tokens.old) result tokens.new }
    ensures within { IfOk result (λ x. x.1 ≤ levels) }
{
    if levels == 0 {
        no_pat(tokens)
    } else {
        pat_in(alloc, tokens, levels - 1)
    }
}
