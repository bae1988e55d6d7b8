//! How processes are read.

ghost use Rattle.std.specs.Prelude.{◌≡◌, ◌≢◌, ◌≤◌, ◌<◌, ◌+◌, suc, None, IfOk};
ghost use Rattle.np_parse.specs.Input.{Reads};
ghost use Rattle.np_parse.specs.Read.Heads.{single_form, double_form, between};
ghost use Rattle.np_parse.specs.Read.Processes as spec;

use super::cursor::Cursor;
use super::fail::ParseFail;
use super::flat::{directed, output, print, stop};
use super::head::{
    Double, DoubleForm, Single, SingleForm, agent_head, if_head, iflocal_head, input_head,
    let_head, migrate_head, new_head, replicated_head,
};
use np_lex::{Key, Sign, What};
use np_syntax::{DEEPEST, Memory};
use np_tree::{RawProc, RawProcForm};
use std::alloc::Global;

/// The form with this process in it.
fn single_form(head: SingleForm, inner: RawProc) -> RawProcForm
    ensures { result ≡ single_form head inner }
{
    match head {
        SingleForm::New(name, ty) => RawProcForm::New(name, ty, inner),
        SingleForm::Inp(channel, pattern) => RawProcForm::Inp(channel, pattern, inner),
        SingleForm::Rep(channel, pattern) => RawProcForm::Rep(channel, pattern, inner),
        SingleForm::Migrate(site) => RawProcForm::Migrate(site, inner),
        SingleForm::Let(pattern, value) => RawProcForm::Let(pattern, value, inner),
    }
}

/// The form with these processes in it.
fn double_form(head: DoubleForm, first: RawProc, second: RawProc) -> RawProcForm
    ensures { result ≡ double_form head first second }
{
    match head {
        DoubleForm::Agent(name) => RawProcForm::Agent(name, first, second),
        DoubleForm::IfLocal(agent, channel, value) => {
            RawProcForm::IfLocal(agent, channel, value, first, second)
        }
        DoubleForm::If(test) => RawProcForm::If(test, first, second),
    }
}

/// Takes the keyword between the two processes.
fn between(tokens: &mut Cursor<'_>, head: &DoubleForm) -> Result<u32, ParseFail>
    ensures { Reads (between head.now tokens.old) result tokens.new }
{
    match head {
        DoubleForm::Agent(_) => tokens.expect_word(Key::In),
        DoubleForm::IfLocal(_, _, _) => tokens.expect_word(Key::Else),
        DoubleForm::If(_) => tokens.expect_word(Key::Else),
    }
}

/// Takes the sign behind the processes so far of a bracket: a bar, with its offset, or the closing bracket.
#[tactic(auto, unfolding(crate::specs::Read::Processes::bar))]
fn bar(tokens: &mut Cursor<'_>, below: u32, depth: u32) -> Result<Option<u32>, ParseFail>
    ensures reads { Reads (spec.bar (suc below) depth tokens.old) result tokens.new }
    ensures room { IfOk result (λ x. x ≢ None → depth ≤ below) }
{
    match tokens.peek()? {
        What::Sign(Sign::RoundClose) => {
            tokens.take()?;
            Ok(None)
        }
        What::Sign(Sign::Bar) if depth > below => Err(tokens.too_deep()),
        What::Sign(Sign::Bar) => Ok(Some(tokens.take()?)),
        _ => Err(tokens.syntax()),
    }
}

/// The composition of both, with its depth.
fn both(
    alloc: Global,
    at: u32,
    left: (RawProc, u32),
    right: (RawProc, u32),
) -> Result<(RawProc, u32), Memory>
    requires left { left.1 < DEEPEST }
    requires right { right.1 < DEEPEST }
    ensures { IfOk result (λ x. x ≡ spec.both at left right) }
{
    let (left, deep) = left;
    let (right, depth) = right;
    let both = RawProc::new(alloc, at, RawProcForm::Par(left, right))?;
    Ok((both, deep.max(depth) + 1))
}

/// A form with one process in it, behind what stands before it.
#[tactic(auto, unfolding(crate::specs::Read::Processes::single))]
#[cycle(proc)]
fn single(
    alloc: Global,
    tokens: &mut Cursor<'_>,
    below: u32,
    head: Single,
) -> Result<(RawProc, u32), ParseFail>
    requires { below < DEEPEST }
    ensures reads { Reads (spec.single (spec.proc DEEPEST below) head tokens.old) result tokens.new }
    ensures within { IfOk result (λ x. x.1 ≤ below + 1) }
{
    let Single { at, form } = head;
    let (inner, depth) = proc(alloc, tokens, below)?;
    let whole = RawProc::new(alloc, at, single_form(form, inner))?;
    Ok((whole, depth + 1))
}

/// The two processes of a form, and the keyword between them.
#[tactic(auto, unfolding(crate::specs::Read::Processes::two))]
#[cycle(proc)]
fn two(
    alloc: Global,
    tokens: &mut Cursor<'_>,
    below: u32,
    form: &DoubleForm,
) -> Result<((RawProc, u32), (RawProc, u32)), ParseFail>
    requires { below < DEEPEST }
    ensures reads { Reads (spec.two (spec.proc DEEPEST below) form.now tokens.old) result tokens.new }
    ensures first { IfOk result (λ x. x.0.1 ≤ below) }
    ensures second { IfOk result (λ x. x.1.1 ≤ below) }
{
    let first = proc(alloc, tokens, below)?;
    between(tokens, form)?;
    let second = proc(alloc, tokens, below)?;
    Ok((first, second))
}

/// A form with two processes in it, behind what stands before the first.
#[tactic(auto, using(crate::proofs::Steps::double_two))]
#[cycle(proc)]
fn double(
    alloc: Global,
    tokens: &mut Cursor<'_>,
    below: u32,
    head: Double,
) -> Result<(RawProc, u32), ParseFail>
    requires { below < DEEPEST }
    ensures reads { Reads (spec.double (spec.proc DEEPEST below) head tokens.old) result tokens.new }
    ensures within { IfOk result (λ x. x.1 ≤ below + 1) }
{
    let Double { at, form } = head;
    let ((first, deep), (second, depth)) = two(alloc, tokens, below, &form)?;
    let whole = RawProc::new(alloc, at, double_form(form, first, second))?;
    Ok((whole, deep.max(depth) + 1))
}

/// An output or an input, from the channel's name on.
#[tactic(auto, unfolding(crate::specs::Read::Processes::on_channel))]
#[cycle(proc)]
fn on_channel(
    alloc: Global,
    tokens: &mut Cursor<'_>,
    below: u32,
) -> Result<(RawProc, u32), ParseFail>
    requires { below < DEEPEST }
    ensures reads { Reads (spec.on_channel (spec.proc DEEPEST below) DEEPEST below tokens.old) result tokens.new }
    ensures within { IfOk result (λ x. x.1 ≤ below + 1) }
{
    let channel = tokens.name(alloc)?;
    match tokens.peek()? {
        What::Sign(Sign::Bang) => output(alloc, tokens, channel),
        What::Sign(Sign::Query) => {
            let head = input_head(alloc, tokens, below, channel)?;
            single(alloc, tokens, below, head)
        }
        _ => Err(tokens.syntax()),
    }
}

/// A bracket of processes.
#[tactic(auto, unfolding(crate::specs::Read::Processes::bracket))]
#[cycle(proc)]
fn bracket(alloc: Global, tokens: &mut Cursor<'_>, below: u32) -> Result<(RawProc, u32), ParseFail>
    requires { below < DEEPEST }
    ensures reads { Reads (spec.bracket (spec.proc DEEPEST below) below tokens.old) result tokens.new }
    ensures within { IfOk result (λ x. x.1 ≤ below + 1) }
{
    if below == 0 {
        return Err(tokens.too_deep());
    }
    let at = tokens.take()?;
    let first = proc(alloc, tokens, below)?;
    tokens.expect_sign(Sign::Bar)?;
    others(alloc, tokens, below, at, first)
}

/// What stands behind the first bar of a bracket.
#[cycle(proc)]
fn others(
    alloc: Global,
    tokens: &mut Cursor<'_>,
    below: u32,
    at: u32,
    first: (RawProc, u32),
) -> Result<(RawProc, u32), ParseFail>
    requires levels { below < DEEPEST }
    requires first { first.1 ≤ below }
    ensures reads { Reads (spec.others (spec.proc DEEPEST below) below at first tokens.old) result tokens.new }
    ensures within { IfOk result (λ x. x.1 ≤ below + 1) }
{
    let second = proc(alloc, tokens, below)?;
    let left = both(alloc, at, first, second)?;
    more(alloc, tokens, below, at, left)
}

/// The processes of a bracket from the third on, and the closing bracket.
#[tactic(auto, using(crate::proofs::Steps::mores))]
#[cycle(proc)]
fn more(
    alloc: Global,
    tokens: &mut Cursor<'_>,
    below: u32,
    at: u32,
    first: (RawProc, u32),
) -> Result<(RawProc, u32), ParseFail>
    requires levels { below < DEEPEST }
    requires first { first.1 ≤ below + 1 }
    ensures reads { Reads (spec.more (spec.proc DEEPEST below) (suc below) at (suc below) first tokens.old) result tokens.new }
    ensures within { IfOk result (λ x. x.1 ≤ below + 1) }
{
    let mut left = first;
    'turns: for _ in 0..below + 1 {
        let Some(_) = bar(tokens, below, left.1)? else {
            return Ok(left);
        };
        let right = proc(alloc, tokens, below)?;
        left = both(alloc, at, left, right)?;
    }
    Err(tokens.too_deep())
}

/// A process, with so many levels below it for its parts.
#[tactic(auto, unfolding(crate::specs::Read::Processes::proc, crate::specs::Read::Processes::proc_in))]
#[cycle(proc)]
fn proc_in(alloc: Global, tokens: &mut Cursor<'_>, below: u32) -> Result<(RawProc, u32), ParseFail>
    requires { below < DEEPEST }
    ensures reads { Reads (spec.proc DEEPEST (suc below) tokens.old) result tokens.new }
    ensures within { IfOk result (λ x. x.1 ≤ below + 1) }
{
    match tokens.peek()? {
        What::Number(number) => stop(alloc, tokens, *number),
        What::Ident(_) => on_channel(alloc, tokens, below),
        What::Word(Key::New) => {
            let head = new_head(alloc, tokens, below)?;
            single(alloc, tokens, below, head)
        }
        What::Word(Key::AgentWord) => {
            let head = agent_head(alloc, tokens, below)?;
            double(alloc, tokens, below, head)
        }
        What::Word(Key::Migrate) => {
            let head = migrate_head(alloc, tokens, below)?;
            single(alloc, tokens, below, head)
        }
        What::Word(Key::IfLocal) => {
            let head = iflocal_head(alloc, tokens, below)?;
            double(alloc, tokens, below, head)
        }
        What::Word(Key::If) => {
            let head = if_head(alloc, tokens, below)?;
            double(alloc, tokens, below, head)
        }
        What::Word(Key::Let) => {
            let head = let_head(alloc, tokens, below)?;
            single(alloc, tokens, below, head)
        }
        What::Word(Key::Print) => print(alloc, tokens),
        What::Sign(Sign::RoundOpen) => bracket(alloc, tokens, below),
        What::Sign(Sign::Star) => {
            let head = replicated_head(alloc, tokens, below)?;
            single(alloc, tokens, below, head)
        }
        What::Sign(Sign::Less) => directed(alloc, tokens),
        _ => Err(tokens.syntax()),
    }
}

/// A process of so many levels at most.
#[tactic(auto, using(crate::proofs::Levels::deeper_proc), unfolding(crate::specs::Read::Processes::proc))]
#[cycle(proc)]
pub fn proc(
    alloc: Global,
    tokens: &mut Cursor<'_>,
    levels: u32,
) -> Result<(RawProc, u32), ParseFail>
    requires { levels ≤ DEEPEST }
    ensures reads { Reads (spec.proc DEEPEST levels tokens.old) result tokens.new }
    ensures within { IfOk result (λ x. x.1 ≤ levels) }
{
    if levels == 0 {
        Err(tokens.too_deep())
    } else {
        proc_in(alloc, tokens, levels - 1)
    }
}
