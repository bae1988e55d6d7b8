//! Why a type is not below another one.

use super::showing::type_text;
use np_syntax::{Cap, DEEPEST, List, Memory, Text, Ty};
use np_types::sub;
use source_places::{filled_by, number_text};
use std::alloc::Global;

/// The first components that are not one below the other.
fn first_apart<'a>(one: &'a [Ty], other: &'a [Ty]) -> Option<(&'a Ty, &'a Ty)> {
    for (a, b) in one.iter().zip(other.iter()) {
        if !sub(a, b) {
            return Some((a, b));
        }
    }
    None
}

/// The pair inside two types of which the first is not below the second, where it fails inside of them.
fn inside<'a>(one: &'a Ty, other: &'a Ty) -> Option<(&'a Ty, &'a Ty)> {
    match (one, other) {
        (Ty::Tuple(a), Ty::Tuple(b)) if a.len() == b.len() => {
            first_apart(a.as_slice(), b.as_slice())
        }
        (Ty::Chan(Cap::Both | Cap::Input, a), Ty::Chan(Cap::Input, b)) => Some((a.get(), b.get())),
        _ => None,
    }
}

/// What may be done with channels.
fn rights(cap: Cap) -> &'static [u8] {
    match cap {
        Cap::Both => b"sent on and received from",
        Cap::Input => b"received from",
        Cap::Output => b"sent on",
    }
}

/// Why what is sent on the greater one does not fit the smaller one.
fn turned(alloc: Global, one: &Ty, other: &Ty, sent: &Ty, taken: &Ty) -> Result<Text, Memory> {
    let one = type_text(alloc, one)?;
    let other = type_text(alloc, other)?;
    let sent = type_text(alloc, sent)?;
    let taken = type_text(alloc, taken)?;
    let mut text = filled_by(
        alloc,
        b"what is sent on a `%` has to fit `#` too, and ",
        other.as_slice(),
        one.as_slice(),
    )?;
    let rest = filled_by(
        alloc,
        b"`%` is not below `#`",
        sent.as_slice(),
        taken.as_slice(),
    )?;
    text.append(rest.as_slice())?;
    Ok(text)
}

/// Which row of the table of subtyping fails for two types of channels.
fn channels_apart(
    alloc: Global,
    one: (Cap, &Ty),
    other: (Cap, &Ty),
    types: (&Ty, &Ty),
) -> Result<Text, Memory> {
    if other.0 == Cap::Both && one.0 == Cap::Both {
        return List::from_slice(alloc, b"a `^` stands for a `^` of the same type alone");
    }
    if one.0 != Cap::Both && one.0 != other.0 || other.0 == Cap::Both {
        return filled_by(
            alloc,
            b"what may only be % does not stand for what may be #",
            rights(one.0),
            rights(other.0),
        );
    }
    turned(alloc, types.0, types.1, other.1, one.1)
}

/// How two types are told that are not one below the other, and that are no two of the same kind.
fn kinds_apart(alloc: Global, one: &Ty, other: &Ty) -> Result<Text, Memory> {
    let one = type_text(alloc, one)?;
    let other = type_text(alloc, other)?;
    filled_by(alloc, b"`%` is not `#`", one.as_slice(), other.as_slice())
}

/// How many components two tuples have.
fn lengths_apart(alloc: Global, one: usize, other: usize) -> Result<Text, Memory> {
    let one = number_text(alloc, one as u64)?;
    let other = number_text(alloc, other as u64)?;
    let words = b"one has % components, the other #";
    filled_by(alloc, words, one.as_slice(), other.as_slice())
}

/// That a type is not below another one, and a colon, where these are not the types that are shown already.
fn fronted(alloc: Global, top: bool, one: &Ty, other: &Ty, rest: Text) -> Result<Text, Memory> {
    if top {
        return Ok(rest);
    }
    let one = type_text(alloc, one)?;
    let other = type_text(alloc, other)?;
    let words = b"`%` is not below `#`: ";
    let mut text = filled_by(alloc, words, one.as_slice(), other.as_slice())?;
    text.append(rest.as_slice())?;
    Ok(text)
}

/// Why a type is not below another one at the pair at which it fails.
fn pair_apart(alloc: Global, top: bool, one: &Ty, other: &Ty) -> Result<Text, Memory> {
    match (one, other) {
        (Ty::Tuple(a), Ty::Tuple(b)) => {
            let rest = lengths_apart(alloc, a.len(), b.len())?;
            fronted(alloc, top, one, other, rest)
        }
        (Ty::Chan(c, a), Ty::Chan(d, b)) => {
            let rest = channels_apart(alloc, (*c, a.get()), (*d, b.get()), (one, other))?;
            fronted(alloc, top, one, other, rest)
        }
        _ if top => Ok(List::new(alloc)),
        _ => kinds_apart(alloc, one, other),
    }
}

/// Why a type is not below another one: the first pair, from the outside in, at which the table of subtyping fails. Nothing where the two
/// themselves are of different kinds.
pub(super) fn apart(alloc: Global, one: &Ty, other: &Ty) -> Result<Text, Memory> {
    let mut pair = (one, other);
    let mut top = true;
    for _ in 0..DEEPEST {
        match inside(pair.0, pair.1) {
            Some(inner) => {
                pair = inner;
                top = false;
            }
            None => return pair_apart(alloc, top, pair.0, pair.1),
        }
    }
    pair_apart(alloc, top, pair.0, pair.1)
}
