//! Faults of inputs and outputs.

use super::apart::apart;
use super::bound::{bound_mark, bound_of, carried_mark, made_mark};
use super::checking::{Checking, How, Said, Scope, type_of};
use super::expressions::inner_reasons;
use super::showing::{is_word, type_text, with_type};
use np_syntax::{Cap, Expr, List, Memory, Text, Ty};
use np_types::{is_agent, sub};
use source_places::{Reasons, filled, filled_by};
use std::alloc::Global;

/// What is done with a channel.
#[derive(Clone, Copy, PartialEq, Eq)]
pub(super) enum Use {
    Sent,
    Received,
}

fn sign_of(used: Use) -> &'static [u8] {
    match used {
        Use::Sent => b"!",
        Use::Received => b"?",
    }
}

/// What is told where no channel stands.
fn no_channel(
    c: Checking<'_>,
    scope: &Scope,
    channel: &Expr,
    ty: &Ty,
    used: Use,
) -> Result<Option<Reasons>, Memory> {
    let beside = bound_mark(c, scope, channel)?;
    let wanted = filled(c.alloc, b"a channel before `%`", sign_of(used))?;
    let words: &[u8] = if is_agent(ty) && used == Use::Sent {
        b"to send to an agent, name a channel too: `<%@?>NAME!VALUE`"
    } else {
        b"name a channel here: one that `new` makes, or one that was received"
    };
    let next = filled(c.alloc, words, c.word_at(channel.at))?;
    let said = c.said(beside, wanted, next.as_slice())?;
    c.told_type(channel, ty, said)
}

/// How to go on where a channel has not the right that is used.
fn right_next(
    c: Checking<'_>,
    scope: &Scope,
    channel: &Expr,
    carried: &Ty,
    used: Use,
) -> Result<Text, Memory> {
    let name = c.word_at(channel.at);
    let carried = type_text(c.alloc, carried)?;
    let made = matches!(bound_of(scope, channel), Some(bound) if bound.how == How::New);
    let words: &[u8] = match used {
        _ if made => b"make it with both rights: `new % : ^# in ..`",
        Use::Sent => b"let the channel that hands `%` over carry `^#` or `!#`",
        Use::Received => b"let the channel that hands `%` over carry `^#` or `?#`",
    };
    filled_by(c.alloc, words, name, carried.as_slice())
}

/// What is told of a channel that has not the right that is used.
fn no_right(
    c: Checking<'_>,
    scope: &Scope,
    channel: &Expr,
    ty: &Ty,
    carried: &Ty,
    used: Use,
) -> Result<Option<Reasons>, Memory> {
    let (wanted, why): (&[u8], &[u8]) = match used {
        Use::Sent => (
            b"a channel that may be sent on: `^` or `!`",
            b"`?` gives the right to receive alone",
        ),
        Use::Received => (
            b"a channel that may be received from: `^` or `?`",
            b"`!` gives the right to send alone",
        ),
    };
    let beside = made_mark(c, scope, channel)?;
    let next = right_next(c, scope, channel, carried, used)?;
    let said = Said {
        beside,
        wanted: List::from_slice(c.alloc, wanted)?,
        why: List::from_slice(c.alloc, why)?,
        next,
    };
    c.told_type(channel, ty, said)
}

/// Whether channels with these rights may be used so.
fn may(cap: Cap, used: Use) -> bool {
    match cap {
        Cap::Both => true,
        Cap::Input => used == Use::Received,
        Cap::Output => used == Use::Sent,
    }
}

/// What is told of a channel that is not used rightly.
pub(super) fn channel_reasons(
    c: Checking<'_>,
    scope: &Scope,
    channel: &Expr,
    used: Use,
) -> Result<Option<Reasons>, Memory> {
    let Some(ty) = type_of(c.alloc, scope, channel)? else {
        return Ok(None);
    };
    match &ty {
        Ty::Chan(cap, _) if may(*cap, used) => Ok(None),
        Ty::Chan(_, carried) => no_right(c, scope, channel, &ty, carried.get(), used),
        _ => no_channel(c, scope, channel, &ty, used),
    }
}

/// What was wanted on a channel that carries a type.
fn wanted_on(alloc: Global, carried: &Ty) -> Result<Text, Memory> {
    if is_word(carried) {
        with_type(alloc, b"`%`", carried)
    } else {
        with_type(alloc, b"`%`, or a type below it", carried)
    }
}

/// What is told of a value that does not fit its channel.
fn mismatch(
    c: Checking<'_>,
    scope: &Scope,
    channel: &Expr,
    carried: &Ty,
    value: &Expr,
    given: &Ty,
) -> Result<Option<Reasons>, Memory> {
    let name = c.word_at(channel.at);
    let words = b"send a value of this type, or change what `%` carries";
    let said = Said {
        beside: carried_mark(c, scope, channel)?,
        wanted: wanted_on(c.alloc, carried)?,
        why: apart(c.alloc, given, carried)?,
        next: filled(c.alloc, words, name)?,
    };
    c.told_type(value, given, said)
}

/// What is told of an output.
pub(super) fn output_reasons(
    c: Checking<'_>,
    scope: &Scope,
    channel: &Expr,
    value: &Expr,
) -> Result<Option<Reasons>, Memory> {
    if let Some(reasons) = channel_reasons(c, scope, channel, Use::Sent)? {
        return Ok(Some(reasons));
    }
    let ty = type_of(c.alloc, scope, channel)?;
    let Some(Ty::Chan(_, carried)) = &ty else {
        return Ok(None);
    };
    match type_of(c.alloc, scope, value)? {
        None => inner_reasons(c, scope, value),
        Some(given) if !sub(&given, carried.get()) => {
            mismatch(c, scope, channel, carried.get(), value, &given)
        }
        Some(_) => Ok(None),
    }
}
