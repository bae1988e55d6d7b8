//! How processes without processes in them are read.

ghost use Rattle.std.specs.Prelude.{◌≡◌, IfOk};
ghost use Rattle.np_parse.specs.Input.{Reads};
ghost use Rattle.np_parse.specs.Read.Heads as spec;

use super::cursor::Cursor;
use super::expression::{atom, expr};
use super::fail::ParseFail;
use np_lex::{Sign, What};
use np_syntax::DEEPEST;
use np_tree::{Ident, RawExpr, RawProc, RawProcForm};
use std::alloc::Global;

/// The process `0`, where a number comes next.
pub fn stop(
    alloc: Global,
    tokens: &mut Cursor<'_>,
    number: i64,
) -> Result<(RawProc, u32), ParseFail>
    ensures reads { Reads (spec.stop_by number tokens.old) result tokens.new }
    ensures within { IfOk result (λ x. x.1 ≡ 1) }
{
    match number {
        0 => {
            let at = tokens.take()?;
            let process = RawProc::new(alloc, at, RawProcForm::Stop)?;
            Ok((process, 1))
        }
        _ => Err(tokens.syntax()),
    }
}

#[tactic(auto, unfolding(crate::specs::Read::Heads::print))]
pub fn print(alloc: Global, tokens: &mut Cursor<'_>) -> Result<(RawProc, u32), ParseFail>
    ensures reads { Reads (spec.print DEEPEST tokens.old) result tokens.new }
    ensures within { IfOk result (λ x. x.1 ≡ 1) }
{
    let at = tokens.take()?;
    let (value, _) = expr(alloc, tokens, DEEPEST)?;
    let process = RawProc::new(alloc, at, RawProcForm::Print(value))?;
    Ok((process, 1))
}

/// An output, behind the channel's name.
#[tactic(auto, unfolding(crate::specs::Read::Heads::output))]
pub fn output(
    alloc: Global,
    tokens: &mut Cursor<'_>,
    channel: Ident,
) -> Result<(RawProc, u32), ParseFail>
    ensures reads { Reads (spec.output DEEPEST channel tokens.old) result tokens.new }
    ensures within { IfOk result (λ x. x.1 ≡ 1) }
{
    tokens.take()?;
    let (value, _) = expr(alloc, tokens, DEEPEST)?;
    let at = channel.at;
    let process = RawProc::new(alloc, at, RawProcForm::Out(channel, value))?;
    Ok((process, 1))
}

/// The channel and the value of a message to an agent.
#[tactic(auto, unfolding(crate::specs::Read::Heads::message))]
pub fn message(alloc: Global, tokens: &mut Cursor<'_>) -> Result<(Ident, RawExpr), ParseFail>
    ensures { Reads (spec.message DEEPEST tokens.old) result tokens.new }
{
    let channel = tokens.name(alloc)?;
    tokens.expect_sign(Sign::Bang)?;
    let (value, _) = expr(alloc, tokens, DEEPEST)?;
    Ok((channel, value))
}

/// Behind `@`, to the agent wherever it is.
#[tactic(auto, unfolding(crate::specs::Read::Heads::post))]
fn post(
    alloc: Global,
    tokens: &mut Cursor<'_>,
    at: u32,
    agent: RawExpr,
) -> Result<(RawProc, u32), ParseFail>
    ensures reads { Reads (spec.post DEEPEST at agent tokens.old) result tokens.new }
    ensures within { IfOk result (λ x. x.1 ≡ 1) }
{
    tokens.take()?;
    tokens.expect_sign(Sign::Greater)?;
    let (channel, value) = message(alloc, tokens)?;
    let process = RawProc::new(alloc, at, RawProcForm::Post(agent, channel, value))?;
    Ok((process, 1))
}

/// Behind `@`, to the agent at a site.
#[tactic(auto, unfolding(crate::specs::Read::Heads::send))]
fn send(
    alloc: Global,
    tokens: &mut Cursor<'_>,
    at: u32,
    agent: RawExpr,
) -> Result<(RawProc, u32), ParseFail>
    ensures reads { Reads (spec.send DEEPEST at agent tokens.old) result tokens.new }
    ensures within { IfOk result (λ x. x.1 ≡ 1) }
{
    let (site, _) = atom(alloc, tokens, DEEPEST)?;
    tokens.expect_sign(Sign::Greater)?;
    let (channel, value) = message(alloc, tokens)?;
    let process = RawProc::new(alloc, at, RawProcForm::Send(agent, site, channel, value))?;
    Ok((process, 1))
}

/// A message to an agent, from `<` on.
#[tactic(auto, unfolding(crate::specs::Read::Heads::directed))]
pub fn directed(alloc: Global, tokens: &mut Cursor<'_>) -> Result<(RawProc, u32), ParseFail>
    ensures reads { Reads (spec.directed DEEPEST tokens.old) result tokens.new }
    ensures within { IfOk result (λ x. x.1 ≡ 1) }
{
    let at = tokens.take()?;
    let (agent, _) = atom(alloc, tokens, DEEPEST)?;
    tokens.expect_sign(Sign::At)?;
    match tokens.peek()? {
        What::Sign(Sign::Query) => post(alloc, tokens, at, agent),
        _ => send(alloc, tokens, at, agent),
    }
}
