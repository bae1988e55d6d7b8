ghost use Rattle.std.specs.Prelude.{◌≡◌, ◌↔◌, IsTrue, IfOk};
ghost use Rattle.np_syntax.specs.declared.value.Value as shape;
ghost use Rattle.np_syntax.specs.declared.value.Value.{out-Value};
ghost use Rattle.np_syntax.specs.Parts.{as_letter, as_places};

use super::boxed::Boxed;
use super::list::{List, Text};
use super::memory::Memory;
use std::alloc::Global;
use std::hash::{Hash, Hasher};

/// The name of an agent, a channel or a mark: the site that made it, and its number there. The names
/// that a program has from the start carry the number of its sites in the place of a site.
#[derive(Clone, Copy, Debug, PartialEq, Eq, PartialOrd, Ord)]
pub struct Name {
    pub site: u32,
    pub n: u32,
}

impl Hash for Name {
    ghost use Rattle.std.specs.Prelude.{◌+◌, ◌*◌, ◌^◌};
    ghost use Rattle.std.specs.Hash as fed;
    ghost use Rattle.std.specs.Cmp.Rules.{comparing, hashing};
    ghost use Rattle.std.proofs.Common.{rules};

    ghost hash_input = { λ name. fed.u64 (name.site * 2 ^ 32 + name.n) };

    ghost respects_eq = { Prim.search (hashing, rules) };

    // Both numbers are given as one: a hasher takes eight bytes at once.
    fn hash<H: Hasher>(&self, state: &mut H) {
        state.write_u64(u64::from(self.site) * (1 << 32) + u64::from(self.n));
    }
}

/// What an expression gives and a message carries. `Letter` and `Places` stand at the low level alone:
/// a letter is a channel with a value for it, and a map of places gives agents their lock channels.
pub enum Value {
    Int(i64),
    Truth(bool),
    Str(Text),
    Site(u32),
    Agent(Name),
    Chan(Name),
    Tuple(List<Value>),
    Letter(Name, Boxed<Value>),
    Places(List<(Name, Name)>),
}

impl Drop for Value {
    #[cycle(drop_value)]
    fn drop(self) {
        match self {
            Value::Int(_)
            | Value::Truth(_)
            | Value::Str(_)
            | Value::Site(_)
            | Value::Agent(_)
            | Value::Chan(_)
            | Value::Tuple(_)
            | Value::Letter(_, _)
            | Value::Places(_) => {}
        }
    }
}

impl Value {
    /// The channel and the value of a letter, moved out of it.
    pub fn into_letter(self) -> Option<(Name, Value)>
        ensures { result ≡ as_letter (out-Value self) }
    {
        match self {
            Value::Letter(chan, value) => Some((chan, value.into_inner())),
            other => {
                drop(other);
                None
            }
        }
    }

    /// The pairs of a map of places, moved out of it.
    pub fn into_places(self) -> Option<List<(Name, Name)>>
        ensures { result ≡ as_places (out-Value self) }
    {
        match self {
            Value::Places(places) => Some(places),
            other => {
                drop(other);
                None
            }
        }
    }

    #[cycle(value_copy)]
    pub fn copy(&self, alloc: Global) -> Result<Value, Memory>
        ensures { IfOk result (λ copied. copied ≡ self.now) }
    {
        match self {
            Value::Int(number) => Ok(Value::Int(*number)),
            Value::Truth(truth) => Ok(Value::Truth(*truth)),
            Value::Str(text) => copy_string(alloc, text),
            Value::Site(site) => Ok(Value::Site(*site)),
            Value::Agent(agent) => Ok(Value::Agent(*agent)),
            Value::Chan(chan) => Ok(Value::Chan(*chan)),
            Value::Tuple(parts) => copy_tuple(alloc, parts.as_slice()),
            Value::Letter(chan, value) => copy_letter(alloc, *chan, value),
            Value::Places(places) => copy_places(alloc, places),
        }
    }
}

fn copy_string(alloc: Global, text: &Text) -> Result<Value, Memory>
    ensures { IfOk result (λ copied. copied ≡ shape.Str text.now) }
{
    Ok(Value::Str(text.copy(alloc)?))
}

fn copy_places(alloc: Global, places: &List<(Name, Name)>) -> Result<Value, Memory>
    ensures { IfOk result (λ copied. copied ≡ shape.Places places.now) }
{
    Ok(Value::Places(places.copy(alloc)?))
}

#[cycle(value_copy)]
fn copy_tuple(alloc: Global, parts: &[Value]) -> Result<Value, Memory>
    ensures { IfOk result (λ copied. copied ≡ shape.Tuple parts.now) }
{
    Ok(Value::Tuple(copy_values(alloc, parts)?))
}

#[cycle(value_copy)]
fn copy_letter(alloc: Global, chan: Name, value: &Boxed<Value>) -> Result<Value, Memory>
    ensures { IfOk result (λ copied. copied ≡ shape.Letter chan value.now) }
{
    let value = value.get().copy(alloc)?;
    Ok(Value::Letter(chan, Boxed::of(alloc, value)?))
}

#[cycle(value_copy)]
fn copy_values(alloc: Global, values: &[Value]) -> Result<List<Value>, Memory>
    ensures { IfOk result (λ copied. copied ≡ values.now) }
{
    let mut copies = List::new(alloc);
    for value in values {
        copies.add(value.copy(alloc)?)?;
    }
    Ok(copies)
}

impl Value {
    /// Equality, which takes no memory.
    #[cycle(value_same)]
    pub fn same(&self, other: &Value) -> bool
        ensures { IsTrue result ↔ (self.now ≡ other.now) }
    {
        match self {
            Value::Int(mine) => match other {
                Value::Int(theirs) => *mine == *theirs,
                _ => false,
            },
            Value::Truth(mine) => match other {
                Value::Truth(theirs) => *mine == *theirs,
                _ => false,
            },
            Value::Str(mine) => match other {
                Value::Str(theirs) => same_text(mine.as_slice(), theirs.as_slice()),
                _ => false,
            },
            Value::Site(mine) => match other {
                Value::Site(theirs) => *mine == *theirs,
                _ => false,
            },
            Value::Agent(mine) => match other {
                Value::Agent(theirs) => *mine == *theirs,
                _ => false,
            },
            Value::Chan(mine) => match other {
                Value::Chan(theirs) => *mine == *theirs,
                _ => false,
            },
            Value::Tuple(mine) => match other {
                Value::Tuple(theirs) => same_values(mine.as_slice(), theirs.as_slice()),
                _ => false,
            },
            Value::Letter(chan, mine) => match other {
                Value::Letter(on, theirs) => *chan == *on && mine.get().same(theirs.get()),
                _ => false,
            },
            Value::Places(mine) => match other {
                Value::Places(theirs) => same_places(mine.as_slice(), theirs.as_slice()),
                _ => false,
            },
        }
    }
}

#[cycle(value_same)]
fn same_values(mine: &[Value], theirs: &[Value]) -> bool
    ensures { IsTrue result ↔ (mine.now ≡ theirs.now) }
{
    if mine.len() != theirs.len() {
        return false;
    }
    for at in 0..mine.len() {
        if !mine[at].same(&theirs[at]) {
            return false;
        }
    }
    true
}

fn same_text(mine: &[u8], theirs: &[u8]) -> bool
    ensures { IsTrue result ↔ (mine.now ≡ theirs.now) }
{
    mine == theirs
}

fn same_places(mine: &[(Name, Name)], theirs: &[(Name, Name)]) -> bool
    ensures { IsTrue result ↔ (mine.now ≡ theirs.now) }
{
    if mine.len() != theirs.len() {
        return false;
    }
    for at in 0..mine.len() {
        if mine[at] != theirs[at] {
            return false;
        }
    }
    true
}
