//! The process at whose offset a fault is.

use super::bound::{bound_mark, carried_mark};
use super::channels::{Use, channel_reasons, output_reasons};
use super::checking::{Bound, Checking, How, Scope, type_of};
use super::expressions::inner_reasons;
use super::patterns::{cover_names, pattern_reasons};
use super::showing::with_type;
use super::wide::new_reasons;
use np_syntax::{Expr, List, Memory, Pat, Proc, ProcForm, Ty};
use np_types::{is_agent, is_bool, is_printable, is_site};
use source_forms::index_at;
use source_places::{Mark, Reasons};

/// What is wanted of an expression: whether a type meets it, and what is told where it does not.
#[derive(Clone, Copy)]
struct Need {
    site: bool,
    agent: bool,
    wanted: &'static [u8],
    next: &'static [u8],
    beside: &'static [u8],
}

const MIGRATES: Need = Need {
    site: true,
    agent: false,
    wanted: b"`Site` to migrate to",
    next: b"name a site of the list, or a value that is a site",
    beside: b"goes to a site",
};

const TO_AGENT: Need = Need {
    site: false,
    agent: true,
    wanted: b"`Agent` before `@`",
    next: b"name an agent here; `main` is the first one",
    beside: b"sends to an agent",
};

const AT_SITE: Need = Need {
    site: true,
    agent: false,
    wanted: b"`Site` behind `@`",
    next: b"name a site here, or write `?` for wherever the agent is",
    beside: b"sends to an agent",
};

const IS_LOCAL: Need = Need {
    site: false,
    agent: true,
    wanted: b"`Agent` between `<` and `>`",
    next: b"name the agent to ask for",
    beside: b"asks for an agent",
};

const IF_TRUE: Need = Need {
    site: false,
    agent: false,
    wanted: b"`Bool` behind `if`",
    next: b"compare: `if x == 0 then .. else ..`",
    beside: b"asks a truth value",
};

/// Whether a type is what is wanted.
fn meets(need: Need, ty: &Ty) -> bool {
    if need.site {
        is_site(ty)
    } else if need.agent {
        is_agent(ty)
    } else {
        is_bool(ty)
    }
}

/// The mark on where a name is bound, or else on the first token of a process.
fn bound_or_first(
    c: Checking<'_>,
    scope: &Scope,
    p: &Proc,
    e: &Expr,
    words: &[u8],
) -> Result<Option<Mark>, Memory> {
    match bound_mark(c, scope, e)? {
        Some(mark) => Ok(Some(mark)),
        None => c.token_mark(index_at(c.tokens, p.at), words),
    }
}

/// What is told of an expression that is not what a process wants.
fn need_reasons(
    c: Checking<'_>,
    scope: &Scope,
    p: &Proc,
    e: &Expr,
    need: Need,
) -> Result<Option<Reasons>, Memory> {
    let Some(ty) = type_of(c.alloc, scope, e)? else {
        return inner_reasons(c, scope, e);
    };
    if meets(need, &ty) {
        return Ok(None);
    }
    let beside = bound_or_first(c, scope, p, e, need.beside)?;
    let wanted = List::from_slice(c.alloc, need.wanted)?;
    let said = c.said(beside, wanted, need.next)?;
    c.told_type(e, &ty, said)
}

/// The first type in a type that is not printed.
#[cycle(unprinted)]
fn unprinted(ty: &Ty) -> Option<&Ty> {
    match ty {
        Ty::Int | Ty::Bool | Ty::Str | Ty::Site => None,
        Ty::Tuple(parts) => unprinted_in(parts.as_slice()),
        _ => Some(ty),
    }
}

#[cycle(unprinted)]
fn unprinted_in(types: &[Ty]) -> Option<&Ty> {
    for ty in types {
        if let Some(found) = unprinted(ty) {
            return Some(found);
        }
    }
    None
}

/// What is told of a value that is not printed.
fn print_reasons(
    c: Checking<'_>,
    scope: &Scope,
    p: &Proc,
    e: &Expr,
) -> Result<Option<Reasons>, Memory> {
    let Some(ty) = type_of(c.alloc, scope, e)? else {
        return inner_reasons(c, scope, e);
    };
    if is_printable(&ty) {
        return Ok(None);
    }
    let beside = bound_or_first(c, scope, p, e, b"prints")?;
    let words = b"`Int`, `Bool`, `String`, `Site`, or a tuple of these";
    let wanted = List::from_slice(c.alloc, words)?;
    let next = b"agents and channels have no text: print a number or string instead";
    let mut said = c.said(beside, wanted, next)?;
    match (&ty, unprinted(&ty)) {
        (Ty::Tuple(_), Some(inner)) => {
            said.why = with_type(c.alloc, b"`%` in it is not printed", inner)?;
        }
        _ => {}
    }
    c.told_type(e, &ty, said)
}

/// What is told of an input.
fn input_reasons(
    c: Checking<'_>,
    scope: &Scope,
    channel: &Expr,
    pattern: &Pat,
) -> Result<Option<Reasons>, Memory> {
    if let Some(reasons) = channel_reasons(c, scope, channel, Use::Received)? {
        return Ok(Some(reasons));
    }
    let ty = type_of(c.alloc, scope, channel)?;
    let Some(Ty::Chan(_, carried)) = &ty else {
        return Ok(None);
    };
    let beside = carried_mark(c, scope, channel)?;
    pattern_reasons(c, pattern, carried.get(), beside)
}

/// What is told of a `let`.
fn let_reasons(
    c: Checking<'_>,
    scope: &Scope,
    pattern: &Pat,
    value: &Expr,
) -> Result<Option<Reasons>, Memory> {
    let Some(ty) = type_of(c.alloc, scope, value)? else {
        return inner_reasons(c, scope, value);
    };
    let beside = c.typed_mark(value, &ty)?;
    pattern_reasons(c, pattern, &ty, Some(beside))
}

/// What is told of a message.
fn message_reasons(
    c: Checking<'_>,
    scope: &Scope,
    p: &Proc,
    agent: &Expr,
    need: Need,
    channel: &Expr,
    value: &Expr,
) -> Result<Option<Reasons>, Memory> {
    match need_reasons(c, scope, p, agent, need)? {
        Some(reasons) => Ok(Some(reasons)),
        None => output_reasons(c, scope, channel, value),
    }
}

/// What is told of a process, where the fault is in none that stands in it.
fn own_reasons(c: Checking<'_>, scope: &Scope, p: &Proc) -> Result<Option<Reasons>, Memory> {
    match p.form.get() {
        ProcForm::New(_, ty, _) => new_reasons(c, p, ty),
        ProcForm::Out(channel, value) => output_reasons(c, scope, channel, value),
        ProcForm::Inp(channel, pattern, _) | ProcForm::Rep(channel, pattern, _) => {
            input_reasons(c, scope, channel, pattern)
        }
        ProcForm::Migrate(site, _) => need_reasons(c, scope, p, site, MIGRATES),
        ProcForm::IfLocal(agent, channel, value, _, _) => {
            message_reasons(c, scope, p, agent, IS_LOCAL, channel, value)
        }
        ProcForm::Send(agent, site, channel, value) => {
            if let Some(reasons) = need_reasons(c, scope, p, agent, TO_AGENT)? {
                return Ok(Some(reasons));
            }
            message_reasons(c, scope, p, site, AT_SITE, channel, value)
        }
        ProcForm::Post(agent, channel, value) => {
            message_reasons(c, scope, p, agent, TO_AGENT, channel, value)
        }
        ProcForm::If(test, _, _) => need_reasons(c, scope, p, test, IF_TRUE),
        ProcForm::Let(pattern, value, _) => let_reasons(c, scope, pattern, value),
        ProcForm::Print(value) => print_reasons(c, scope, p, value),
        _ => Ok(None),
    }
}

/// Puts a binder in scope, whose name is the second token of a process.
fn bind(
    c: Checking<'_>,
    scope: &mut Scope,
    p: &Proc,
    binder: u32,
    how: How,
    ty: Ty,
) -> Result<(), Memory> {
    scope.bound.add(Bound {
        binder,
        how,
        name: index_at(c.tokens, p.at).saturating_add(1),
    })?;
    scope.env.set(binder, ty)
}

/// Puts what a process binds in scope.
fn enter(c: Checking<'_>, scope: &mut Scope, p: &Proc) -> Result<(), Memory> {
    match p.form.get() {
        ProcForm::New(binder, ty, _) => {
            let ty = ty.copy(c.alloc)?;
            bind(c, scope, p, *binder, How::New, ty)
        }
        ProcForm::Agent(binder, _, _) => bind(c, scope, p, *binder, How::AgentForm, Ty::Agent),
        ProcForm::Inp(channel, pattern, _) | ProcForm::Rep(channel, pattern, _) => {
            let ty = type_of(c.alloc, scope, channel)?;
            match &ty {
                Some(Ty::Chan(_, carried)) => cover_names(c, scope, pattern, carried.get()),
                _ => Ok(()),
            }
        }
        ProcForm::Let(pattern, value, _) => match type_of(c.alloc, scope, value)? {
            Some(ty) => cover_names(c, scope, pattern, &ty),
            None => Ok(()),
        },
        _ => Ok(()),
    }
}

/// The process in a process in which the fault is.
fn inside<'a>(c: Checking<'_>, p: &'a Proc) -> Option<&'a Proc> {
    match p.form.get() {
        ProcForm::Par(first, second)
        | ProcForm::If(_, first, second)
        | ProcForm::Agent(_, first, second)
        | ProcForm::IfLocal(_, _, _, first, second) => {
            if c.is_from(second.at) {
                Some(second)
            } else if c.is_from(first.at) {
                Some(first)
            } else {
                None
            }
        }
        ProcForm::New(_, _, body)
        | ProcForm::Inp(_, _, body)
        | ProcForm::Rep(_, _, body)
        | ProcForm::Migrate(_, body)
        | ProcForm::Let(_, _, body) => { if c.is_from(body.at) { Some(body) } else { None } }
        _ => None,
    }
}

/// What is told of the fault in a process. There are at most so many processes in one another.
pub(super) fn reasons_in(
    c: Checking<'_>,
    scope: &mut Scope,
    main: &Proc,
    levels: u32,
) -> Result<Option<Reasons>, Memory> {
    let mut p = main;
    for _ in 0..levels {
        match inside(c, p) {
            Some(body) => {
                enter(c, scope, p)?;
                p = body;
            }
            None => return own_reasons(c, scope, p),
        }
    }
    own_reasons(c, scope, p)
}
