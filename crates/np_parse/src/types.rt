//! How types are read.

ghost use Rattle.std.specs.Prelude.{◌≡◌, ◌≤◌, ◌<◌, ◌+◌, suc, IfOk};
ghost use Rattle.np_parse.specs.Input.{Reads, nothing};
ghost use Rattle.np_parse.specs.Read.Tuples.{sized, tuple_in, parts};
ghost use Rattle.np_parse.specs.Read.Types as spec;

use super::closing::closes;
use super::cursor::Cursor;
use super::fail::ParseFail;
use np_lex::{Key, Sign, What};
use np_syntax::{Boxed, Cap, DEEPEST, List, MOST_PARTS, Ty};
use std::alloc::Global;

fn begins_chan(what: &What) -> bool
    ensures { result ≡ spec.begins_chan what.now }
{
    matches!(what, What::Sign(Sign::Caret | Sign::Query | Sign::Bang))
}

fn begins_type(what: &What) -> bool
    ensures { result ≡ spec.begins_type what.now }
{
    match what {
        What::Word(Key::IntType | Key::BoolType | Key::StringType) => true,
        What::Word(Key::SiteType | Key::AgentType) => true,
        What::Sign(Sign::SquareOpen) => true,
        _ => begins_chan(what),
    }
}

/// Where no level is left for a channel type.
#[tactic(auto, unfolding(crate::specs::Input::nothing))]
fn no_chan(tokens: &Cursor<'_>) -> Result<(Ty, u32), ParseFail>
    ensures reads { Reads (nothing spec.begins_chan tokens.now) result tokens.now }
    ensures within { IfOk result (λ x. x.1 ≡ 0) }
{
    if begins_chan(tokens.peek()?) {
        Err(tokens.too_deep())
    } else {
        Err(tokens.syntax())
    }
}

/// Where no level is left for a type.
#[tactic(auto, unfolding(crate::specs::Input::nothing))]
fn no_type(tokens: &Cursor<'_>) -> Result<(Ty, u32), ParseFail>
    ensures reads { Reads (nothing spec.begins_type tokens.now) result tokens.now }
    ensures within { IfOk result (λ x. x.1 ≡ 0) }
{
    if begins_type(tokens.peek()?) {
        Err(tokens.too_deep())
    } else {
        Err(tokens.syntax())
    }
}

fn ground(tokens: &mut Cursor<'_>, ty: Ty) -> Result<(Ty, u32), ParseFail>
    ensures reads { Reads (spec.ground ty tokens.old) result tokens.new }
    ensures within { IfOk result (λ x. x.1 ≡ 1) }
{
    tokens.take()?;
    Ok((ty, 1))
}

/// A channel type, from its sign on.
#[tactic(auto, unfolding(crate::specs::Read::Types::carried))]
#[cycle(ty)]
fn carried(
    alloc: Global,
    tokens: &mut Cursor<'_>,
    below: u32,
    cap: Cap,
) -> Result<(Ty, u32), ParseFail>
    requires { below < DEEPEST }
    ensures reads { Reads (spec.carried (spec.type below) below cap tokens.old) result tokens.new }
    ensures within { IfOk result (λ x. x.1 ≤ below + 1) }
{
    if below == 0 {
        return Err(tokens.too_deep());
    }
    tokens.take()?;
    let (inner, depth) = ty(alloc, tokens, below)?;
    Ok((Ty::Chan(cap, Boxed::of(alloc, inner)?), depth + 1))
}

/// The parts of a tuple type behind these, and the closing bracket: gives the depth of the deepest.
#[tactic(auto, using(crate::proofs::Steps::all_parts))]
#[cycle(ty)]
fn type_parts(
    alloc: Global,
    tokens: &mut Cursor<'_>,
    below: u32,
    items: &mut List<Ty>,
) -> Result<u32, ParseFail>
    requires { below < DEEPEST }
    ensures reads { Reads (parts (spec.type below) MOST_PARTS items.old 0 tokens.old) (sized items.new result) tokens.new }
    ensures within { IfOk result (λ x. x ≤ below) }
{
    let mut depth: u32 = 0;
    'parts: for _ in 0..MOST_PARTS {
        if closes(tokens.peek()?) {
            tokens.take()?;
            return Ok(depth);
        }
        let (item, deep) = ty(alloc, tokens, below)?;
        items.add(item)?;
        depth = depth.max(deep);
    }
    tokens.expect_sign(Sign::SquareClose)?;
    Ok(depth)
}

#[tactic(auto, unfolding(crate::specs::Read::Tuples::tuple_in))]
#[cycle(ty)]
fn tuple_type(alloc: Global, tokens: &mut Cursor<'_>, below: u32) -> Result<(Ty, u32), ParseFail>
    requires { below < DEEPEST }
    ensures reads { Reads (tuple_in (spec.type below) spec.tuple_type tokens.old) result tokens.new }
    ensures within { IfOk result (λ x. x.1 ≤ below + 1) }
{
    tokens.take()?;
    let mut items = List::new(alloc);
    let depth = type_parts(alloc, tokens, below, &mut items)?;
    Ok((Ty::Tuple(items), depth + 1))
}

/// A type, with so many levels below it for its parts.
#[tactic(auto, unfolding(crate::specs::Read::Types::readers, crate::specs::Read::Types::type_in))]
#[cycle(ty)]
fn type_in(alloc: Global, tokens: &mut Cursor<'_>, below: u32) -> Result<(Ty, u32), ParseFail>
    requires { below < DEEPEST }
    ensures reads { Reads (spec.type (suc below) tokens.old) result tokens.new }
    ensures within { IfOk result (λ x. x.1 ≤ below + 1) }
{
    match tokens.peek()? {
        What::Word(Key::IntType) => ground(tokens, Ty::Int),
        What::Word(Key::BoolType) => ground(tokens, Ty::Bool),
        What::Word(Key::StringType) => ground(tokens, Ty::Str),
        What::Word(Key::SiteType) => ground(tokens, Ty::Site),
        What::Word(Key::AgentType) => ground(tokens, Ty::Agent),
        What::Sign(Sign::SquareOpen) => tuple_type(alloc, tokens, below),
        What::Sign(Sign::Caret) => carried(alloc, tokens, below, Cap::Both),
        What::Sign(Sign::Query) => carried(alloc, tokens, below, Cap::Input),
        What::Sign(Sign::Bang) => carried(alloc, tokens, below, Cap::Output),
        _ => Err(tokens.syntax()),
    }
}

/// A type of so many levels at most.
#[tactic(auto, using(crate::proofs::Levels::deeper_type), unfolding(crate::specs::Read::Types::readers))]
#[cycle(ty)]
fn ty(alloc: Global, tokens: &mut Cursor<'_>, levels: u32) -> Result<(Ty, u32), ParseFail>
    requires { levels ≤ DEEPEST }
    ensures reads { Reads (spec.type levels tokens.old) result tokens.new }
    ensures within { IfOk result (λ x. x.1 ≤ levels) }
{
    if levels == 0 {
        no_type(tokens)
    } else {
        type_in(alloc, tokens, levels - 1)
    }
}

/// A channel type, with so many levels below it for its parts.
#[tactic(auto, unfolding(crate::specs::Read::Types::readers, crate::specs::Read::Types::chan_in))]
fn chan_in(alloc: Global, tokens: &mut Cursor<'_>, below: u32) -> Result<(Ty, u32), ParseFail>
    requires { below < DEEPEST }
    ensures reads { Reads (spec.chan (suc below) tokens.old) result tokens.new }
    ensures within { IfOk result (λ x. x.1 ≤ below + 1) }
{
    match tokens.peek()? {
        What::Sign(Sign::Caret) => carried(alloc, tokens, below, Cap::Both),
        What::Sign(Sign::Query) => carried(alloc, tokens, below, Cap::Input),
        What::Sign(Sign::Bang) => carried(alloc, tokens, below, Cap::Output),
        _ => Err(tokens.syntax()),
    }
}

/// A channel type of so many levels at most.
#[tactic(auto, using(crate::proofs::Levels::deeper_chan), unfolding(crate::specs::Read::Types::readers))]
pub fn chan(alloc: Global, tokens: &mut Cursor<'_>, levels: u32) -> Result<(Ty, u32), ParseFail>
    requires { levels ≤ DEEPEST }
    ensures reads { Reads (spec.chan levels tokens.old) result tokens.new }
    ensures within { IfOk result (λ x. x.1 ≤ levels) }
{
    if levels == 0 {
        no_chan(tokens)
    } else {
        chan_in(alloc, tokens, levels - 1)
    }
}
