ghost use Rattle.std.specs.Prelude.{◌≡◌, ◌↔◌, IsTrue, IfOk};
ghost use Rattle.np_syntax.specs.declared.types.Ty as shape;
ghost use Rattle.np_syntax.specs.declared.types.Ty.{out-Ty};
ghost use Rattle.np_syntax.specs.Parts.{as_channel};

use super::boxed::Boxed;
use super::list::List;
use super::memory::Memory;
use std::alloc::Global;

/// What may be done with a channel: `^` both, `?` input alone, `!` output alone.
#[derive(Clone, Copy, PartialEq, Eq)]
pub enum Cap {
    Both,
    Input,
    Output,
}

/// A type. `Letter` and `Places` are the types of the low level's own values.
pub enum Ty {
    Int,
    Bool,
    Str,
    Site,
    Agent,
    Chan(Cap, Boxed<Ty>),
    Tuple(List<Ty>),
    Letter,
    Places,
}

impl Drop for Ty {
    #[cycle(drop_ty)]
    fn drop(self) {
        match self {
            Ty::Int
            | Ty::Bool
            | Ty::Str
            | Ty::Site
            | Ty::Agent
            | Ty::Chan(_, _)
            | Ty::Tuple(_)
            | Ty::Letter
            | Ty::Places => {}
        }
    }
}

impl Ty {
    /// What may be done with the channels of a type, and the type that they carry, moved out of it.
    pub fn into_channel(self) -> Option<(Cap, Ty)>
        ensures { result ≡ as_channel (out-Ty self) }
    {
        match self {
            Ty::Chan(cap, carried) => Some((cap, carried.into_inner())),
            other => {
                drop(other);
                None
            }
        }
    }

    #[cycle(ty_copy)]
    pub fn copy(&self, alloc: Global) -> Result<Ty, Memory>
        ensures { IfOk result (λ copied. copied ≡ self.now) }
    {
        match self {
            Ty::Int => Ok(Ty::Int),
            Ty::Bool => Ok(Ty::Bool),
            Ty::Str => Ok(Ty::Str),
            Ty::Site => Ok(Ty::Site),
            Ty::Agent => Ok(Ty::Agent),
            Ty::Chan(cap, carried) => copy_chan(alloc, *cap, carried),
            Ty::Tuple(parts) => copy_tuple(alloc, parts.as_slice()),
            Ty::Letter => Ok(Ty::Letter),
            Ty::Places => Ok(Ty::Places),
        }
    }

    /// Equality, which takes no memory.
    #[cycle(ty_same)]
    pub fn same(&self, other: &Ty) -> bool
        ensures { IsTrue result ↔ (self.now ≡ other.now) }
    {
        match self {
            Ty::Int => matches!(other, Ty::Int),
            Ty::Bool => matches!(other, Ty::Bool),
            Ty::Str => matches!(other, Ty::Str),
            Ty::Site => matches!(other, Ty::Site),
            Ty::Agent => matches!(other, Ty::Agent),
            Ty::Chan(cap, mine) => match other {
                Ty::Chan(with, theirs) => *cap == *with && mine.get().same(theirs.get()),
                _ => false,
            },
            Ty::Tuple(mine) => match other {
                Ty::Tuple(theirs) => same_types(mine.as_slice(), theirs.as_slice()),
                _ => false,
            },
            Ty::Letter => matches!(other, Ty::Letter),
            Ty::Places => matches!(other, Ty::Places),
        }
    }
}

#[cycle(ty_copy)]
fn copy_chan(alloc: Global, cap: Cap, carried: &Boxed<Ty>) -> Result<Ty, Memory>
    ensures { IfOk result (λ copied. copied ≡ shape.Chan cap carried.now) }
{
    let carried = carried.get().copy(alloc)?;
    Ok(Ty::Chan(cap, Boxed::of(alloc, carried)?))
}

#[cycle(ty_copy)]
fn copy_tuple(alloc: Global, parts: &[Ty]) -> Result<Ty, Memory>
    ensures { IfOk result (λ copied. copied ≡ shape.Tuple parts.now) }
{
    Ok(Ty::Tuple(copy_types(alloc, parts)?))
}

#[cycle(ty_copy)]
fn copy_types(alloc: Global, types: &[Ty]) -> Result<List<Ty>, Memory>
    ensures { IfOk result (λ copied. copied ≡ types.now) }
{
    let mut copies = List::new(alloc);
    for ty in types {
        copies.add(ty.copy(alloc)?)?;
    }
    Ok(copies)
}

#[cycle(ty_same)]
fn same_types(mine: &[Ty], theirs: &[Ty]) -> bool
    ensures { IsTrue result ↔ (mine.now ≡ theirs.now) }
{
    if mine.len() != theirs.len() {
        return false;
    }
    for at in 0..mine.len() {
        if !mine[at].same(&theirs[at]) {
            return false;
        }
    }
    true
}
