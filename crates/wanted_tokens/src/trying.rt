//! Which kinds of tokens are wanted at a place.

ghost use Rattle.std.specs.Prelude.{◌≡◌, ◌≢◌, ◌≤◌, ◌∷◌, ◌++◌, [], if◌then◌else◌, IfOk, MatchBool, OnOk, length};
ghost use Rattle.np_syntax.specs.declared.limits.TheConstants.{LONGEST_SOURCE};
ghost use Rattle.source_forms.specs.declared.kind.TheConstants.{KINDS};
ghost use Rattle.wanted_tokens.specs.Wanted as spec;

use np_lex::{LexFail, Tokens, lex};
use np_parse::{ParseFail, parse};
use np_syntax::{List, Memory, Text};
use source_forms::{KINDS, Kind, kind_text};
use std::alloc::Global;

/// The text up to a place, and a token of a kind in a line of its own behind it.
fn with_token(alloc: Global, bytes: &[u8], at: usize, kind: Kind) -> Result<Text, Memory>
    requires { at ≤ length bytes.now }
    ensures { IfOk result (λ text. text ≡ spec.with_token bytes.now at kind) }
{
    let (front, _) = bytes.split_at(at);
    let mut text = List::from_slice(alloc, front)?;
    text.append(b"\n")?;
    text.append(kind_text(kind))?;
    Ok(text)
}

/// Whether a place is another one.
fn differs(place: u32, at: usize) -> bool
    ensures { MatchBool result (place ≢ at) (place ≡ at) }
{
    place as usize != at
}

/// Whether tokens are not refused at the token of an offset.
fn goes_on(alloc: Global, tokens: &Tokens, at: usize) -> Result<bool, Memory>
    ensures { IfOk result (λ goes. MatchBool goes (spec.GoesOn tokens.now at) (spec.Stops tokens.now at)) }
{
    match parse(alloc, tokens) {
        Ok(tree) => {
            drop(tree);
            Ok(true)
        }
        Err(ParseFail::Memory) => Err(Memory),
        Err(ParseFail::Syntax(place)) => Ok(differs(place, at)),
        Err(ParseFail::TooDeep(place)) => Ok(differs(place, at)),
    }
}

/// Whether a token of a kind is wanted at a place.
fn is_wanted(alloc: Global, bytes: &[u8], at: usize, kind: Kind) -> Result<bool, Memory>
    requires short { length bytes.now ≤ LONGEST_SOURCE }
    requires within { at ≤ length bytes.now }
    ensures { IfOk result (λ goes. MatchBool goes (spec.IsWanted bytes.now at kind) (spec.IsUnwanted bytes.now at kind)) }
{
    let text = with_token(alloc, bytes, at, kind)?;
    match lex(alloc, text.as_slice()) {
        Ok(tokens) => goes_on(alloc, &tokens, at + 1),
        Err(LexFail::Memory) => Err(Memory),
        Err(_) => Ok(false),
    }
}

/// Adds a kind, if it goes on.
fn add_if(wanted: &mut List<Kind>, goes: bool, kind: Kind) -> Result<(), Memory>
    ensures { OnOk result (wanted.new ≡ (if goes then wanted.old ++ kind ∷ [] else wanted.old)) }
{
    if goes {
        return wanted.add(kind);
    }
    Ok(())
}

/// Those of some kinds of tokens that are wanted at a place, in their order.
fn wanted_of(alloc: Global, bytes: &[u8], at: usize, kinds: &[Kind]) -> Result<List<Kind>, Memory>
    requires short { length bytes.now ≤ LONGEST_SOURCE }
    requires within { at ≤ length bytes.now }
    ensures { IfOk result (λ wanted. spec.Chosen bytes.now at kinds.now wanted) }
{
    let mut wanted = List::new(alloc);
    for kind in kinds {
        let goes = is_wanted(alloc, bytes, at, *kind)?;
        add_if(&mut wanted, goes, *kind)?;
    }
    Ok(wanted)
}

/// The kinds of tokens that are wanted at a place, in the order of all kinds.
pub fn wanted_at(alloc: Global, bytes: &[u8], at: usize) -> Result<List<Kind>, Memory>
    requires short { length bytes.now ≤ LONGEST_SOURCE }
    requires within { at ≤ length bytes.now }
    ensures just { IfOk result (spec.AreWanted bytes.now at) }
    ensures order { IfOk result (spec.Chosen bytes.now at KINDS) }
{
    wanted_of(alloc, bytes, at, KINDS.as_slice())
}
