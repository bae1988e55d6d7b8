//! What stands before the processes in a process.

ghost use Rattle.std.specs.Prelude.{◌≡◌};
ghost use Rattle.np_parse.specs.Input.{Reads};
ghost use Rattle.np_parse.specs.Read.Heads as spec;

use super::cursor::Cursor;
use super::expression::{atom, expr};
use super::fail::ParseFail;
use super::flat::message;
use super::pattern::pat;
use super::types::chan;
use np_lex::{Key, Sign};
use np_syntax::{DEEPEST, Ty};
use np_tree::{Ident, RawExpr, RawPat};
use std::alloc::Global;

/// What stands before the process of a form that has one process in it, with the offset of the form.
#[derive(Drop)]
pub struct Single {
    pub at: u32,
    pub form: SingleForm,
}

/// The forms that have one process in them.
#[derive(Drop)]
pub enum SingleForm {
    New(Ident, Ty),
    Inp(Ident, RawPat),
    Rep(Ident, RawPat),
    Migrate(RawExpr),
    Let(RawPat, RawExpr),
}

/// What stands before the first process of a form that has two processes in it, with the offset of the form.
#[derive(Drop)]
pub struct Double {
    pub at: u32,
    pub form: DoubleForm,
}

/// The forms that have two processes in them.
#[derive(Drop)]
pub enum DoubleForm {
    Agent(Ident),
    IfLocal(RawExpr, Ident, RawExpr),
    If(RawExpr),
}

/// From `new` to `in`.
#[tactic(auto, unfolding(crate::specs::Read::Heads::new_head))]
pub fn new_head(alloc: Global, tokens: &mut Cursor<'_>, below: u32) -> Result<Single, ParseFail>
    ensures { Reads (spec.new_head DEEPEST below tokens.old) result tokens.new }
{
    if below == 0 {
        return Err(tokens.too_deep());
    }
    let at = tokens.take()?;
    let name = tokens.name(alloc)?;
    tokens.expect_sign(Sign::Colon)?;
    let (ty, _) = chan(alloc, tokens, DEEPEST)?;
    tokens.expect_word(Key::In)?;
    let form = SingleForm::New(name, ty);
    Ok(Single { at, form })
}

/// Behind the channel's name, from `?` to `->`.
#[tactic(auto, unfolding(crate::specs::Read::Heads::input_head))]
pub fn input_head(
    alloc: Global,
    tokens: &mut Cursor<'_>,
    below: u32,
    channel: Ident,
) -> Result<Single, ParseFail>
    ensures { Reads (spec.input_head DEEPEST below channel tokens.old) result tokens.new }
{
    if below == 0 {
        return Err(tokens.too_deep());
    }
    tokens.take()?;
    let (pattern, _) = pat(alloc, tokens, DEEPEST)?;
    tokens.expect_sign(Sign::Arrow)?;
    let at = channel.at;
    let form = SingleForm::Inp(channel, pattern);
    Ok(Single { at, form })
}

/// From `*` to `->`.
#[tactic(auto, unfolding(crate::specs::Read::Heads::replicated_head))]
pub fn replicated_head(
    alloc: Global,
    tokens: &mut Cursor<'_>,
    below: u32,
) -> Result<Single, ParseFail>
    ensures { Reads (spec.replicated_head DEEPEST below tokens.old) result tokens.new }
{
    if below == 0 {
        return Err(tokens.too_deep());
    }
    let at = tokens.take()?;
    let channel = tokens.name(alloc)?;
    tokens.expect_sign(Sign::Query)?;
    let (pattern, _) = pat(alloc, tokens, DEEPEST)?;
    tokens.expect_sign(Sign::Arrow)?;
    let form = SingleForm::Rep(channel, pattern);
    Ok(Single { at, form })
}

/// From `migrate` to `->`.
#[tactic(auto, unfolding(crate::specs::Read::Heads::migrate_head))]
pub fn migrate_head(alloc: Global, tokens: &mut Cursor<'_>, below: u32) -> Result<Single, ParseFail>
    ensures { Reads (spec.migrate_head DEEPEST below tokens.old) result tokens.new }
{
    if below == 0 {
        return Err(tokens.too_deep());
    }
    let at = tokens.take()?;
    tokens.expect_word(Key::To)?;
    let (site, _) = expr(alloc, tokens, DEEPEST)?;
    tokens.expect_sign(Sign::Arrow)?;
    let form = SingleForm::Migrate(site);
    Ok(Single { at, form })
}

/// From `let` to `in`.
#[tactic(auto, unfolding(crate::specs::Read::Heads::let_head))]
pub fn let_head(alloc: Global, tokens: &mut Cursor<'_>, below: u32) -> Result<Single, ParseFail>
    ensures { Reads (spec.let_head DEEPEST below tokens.old) result tokens.new }
{
    if below == 0 {
        return Err(tokens.too_deep());
    }
    let at = tokens.take()?;
    let (pattern, _) = pat(alloc, tokens, DEEPEST)?;
    tokens.expect_sign(Sign::Equals)?;
    let (value, _) = expr(alloc, tokens, DEEPEST)?;
    tokens.expect_word(Key::In)?;
    let form = SingleForm::Let(pattern, value);
    Ok(Single { at, form })
}

/// From `agent` to `=`.
#[tactic(auto, unfolding(crate::specs::Read::Heads::agent_head))]
pub fn agent_head(alloc: Global, tokens: &mut Cursor<'_>, below: u32) -> Result<Double, ParseFail>
    ensures { Reads (spec.agent_head below tokens.old) result tokens.new }
{
    if below == 0 {
        return Err(tokens.too_deep());
    }
    let at = tokens.take()?;
    let name = tokens.name(alloc)?;
    tokens.expect_sign(Sign::Equals)?;
    let form = DoubleForm::Agent(name);
    Ok(Double { at, form })
}

/// From `iflocal` to `then`.
#[tactic(auto, unfolding(crate::specs::Read::Heads::iflocal_head))]
pub fn iflocal_head(alloc: Global, tokens: &mut Cursor<'_>, below: u32) -> Result<Double, ParseFail>
    ensures { Reads (spec.iflocal_head DEEPEST below tokens.old) result tokens.new }
{
    if below == 0 {
        return Err(tokens.too_deep());
    }
    let at = tokens.take()?;
    tokens.expect_sign(Sign::Less)?;
    let (agent, _) = atom(alloc, tokens, DEEPEST)?;
    tokens.expect_sign(Sign::Greater)?;
    let (channel, value) = message(alloc, tokens)?;
    tokens.expect_word(Key::Then)?;
    let form = DoubleForm::IfLocal(agent, channel, value);
    Ok(Double { at, form })
}

/// From `if` to `then`.
#[tactic(auto, unfolding(crate::specs::Read::Heads::if_head))]
pub fn if_head(alloc: Global, tokens: &mut Cursor<'_>, below: u32) -> Result<Double, ParseFail>
    ensures { Reads (spec.if_head DEEPEST below tokens.old) result tokens.new }
{
    if below == 0 {
        return Err(tokens.too_deep());
    }
    let at = tokens.take()?;
    let (test, _) = expr(alloc, tokens, DEEPEST)?;
    tokens.expect_word(Key::Then)?;
    let form = DoubleForm::If(test);
    Ok(Double { at, form })
}
