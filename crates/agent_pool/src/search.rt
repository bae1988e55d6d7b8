ghost use Rattle.std.specs.Prelude.{◌≡◌, ◌↔◌, false, IfSome, IfNone, IsTrue, None, length};
ghost use Rattle.np_syntax.specs.declared.value.Name.{Name as Named};
ghost use Rattle.np_tables.specs.Mapped.{mapped};
ghost use Rattle.agent_pool.specs.Calm.{NoOutput, CalmAt};
ghost use Rattle.agent_pool.specs.Pools.{seen_as};
ghost use Rattle.agent_pool.specs.Readies.{IsReady, NoPost, NothingReady, alone_in, pair_in, NoneAlone, NoneMeet};

use super::begins::{alone, pair};
use super::held::{Held, wait_of};
use super::ready::Ready;
use agent_index::{Index, Wait};
use np_code::Code;
use np_syntax::Name;

/// What the atom of a mark can do alone.
#[tactic(auto, using(crate::proofs::Maps::maps))]
pub fn alone_in(code: &Code, atoms: &Index<Held>, mark: Name) -> Option<Ready>
    ensures post { IfSome result NoPost }
    ensures is { (agent : Named) → result ≡ alone_in (length code.now.sites)
        (mapped (seen_as code.now.processes agent) atoms.now.items) mark }
{
    let held = atoms.get(mark)?;
    alone(code, mark, held)
}

/// What the atom of a mark can do with that of another.
#[tactic(auto, using(crate::proofs::Maps::maps))]
pub fn pair_in(code: &Code, atoms: &Index<Held>, mark: Name, other: Name) -> Option<Ready>
    ensures post { IfSome result NoPost }
    ensures is { (agent : Named) → result ≡ pair_in (mapped (seen_as code.now.processes agent) atoms.now.items) mark other }
{
    let taker = atoms.get(mark)?;
    let giver = atoms.get(other)?;
    pair(code, mark, taker, other, giver)
}

/// What any of the atoms can do alone. It walks over them.
pub fn any_alone(code: &Code, atoms: &Index<Held>) -> Option<Ready>
    ensures post { IfSome result NoPost }
    ensures some { (agent : Named) → IfSome result (IsReady code.now (mapped (seen_as code.now.processes agent) atoms.now.items)) }
    ensures none { (agent : Named) → IfNone result
        (NoneAlone (length code.now.sites) (mapped (seen_as code.now.processes agent) atoms.now.items)) }
{
    for at in 0..atoms.len() {
        if let Some(ready) = alone_in(code, atoms, atoms.key(at)) {
            return Some(ready);
        }
    }
    None
}

/// What the atom of a mark can do with any of the others. It walks over them.
pub fn any_with(code: &Code, atoms: &Index<Held>, mark: Name) -> Option<Ready>
    ensures post { IfSome result NoPost }
    ensures some { (agent : Named) → IfSome result (IsReady code.now (mapped (seen_as code.now.processes agent) atoms.now.items)) }
    ensures none { (agent : Named) → IfNone result
        ((other : Named) → pair_in (mapped (seen_as code.now.processes agent) atoms.now.items) mark other ≡ None) }
{
    for at in 0..atoms.len() {
        if let Some(ready) = pair_in(code, atoms, mark, atoms.key(at)) {
            return Some(ready);
        }
    }
    None
}

/// What any two of the atoms can do. It walks over the atoms for each of them.
pub fn any_pair(code: &Code, atoms: &Index<Held>) -> Option<Ready>
    ensures post { IfSome result NoPost }
    ensures some { (agent : Named) → IfSome result (IsReady code.now (mapped (seen_as code.now.processes agent) atoms.now.items)) }
    ensures none { (agent : Named) → IfNone result (NoneMeet (mapped (seen_as code.now.processes agent) atoms.now.items)) }
{
    for at in 0..atoms.len() {
        if let Some(ready) = any_with(code, atoms, atoms.key(at)) {
            return Some(ready);
        }
    }
    None
}

/// What any of the atoms can do, and none exactly where they can do nothing. It walks over the atoms for each of them.
fn any_ready(code: &Code, atoms: &Index<Held>) -> Option<Ready>
    ensures post { IfSome result NoPost }
    ensures some { (agent : Named) → IfSome result (IsReady code.now (mapped (seen_as code.now.processes agent) atoms.now.items)) }
    ensures none { (agent : Named) → IfNone result (NothingReady code.now (mapped (seen_as code.now.processes agent) atoms.now.items)) }
{
    match any_alone(code, atoms) {
        Some(ready) => Some(ready),
        None => any_pair(code, atoms),
    }
}

/// What the atom that acts alone, or the input and the output that meet, can do that wait longest, if the index tells
/// any. It walks over nothing.
pub fn likely_in(code: &Code, atoms: &Index<Held>) -> Option<Ready>
    ensures post { IfSome result NoPost }
    ensures some { (agent : Named) → IfSome result (IsReady code.now (mapped (seen_as code.now.processes agent) atoms.now.items)) }
{
    if let Some(mark) = atoms.first_alone() {
        if let Some(ready) = alone_in(code, atoms, mark) {
            return Some(ready);
        }
    }
    let (input, output) = atoms.first_pair()?;
    pair_in(code, atoms, input, output)
}

/// Whether an output is filed under a channel.
fn gives(atoms: &Index<Held>, chan: Name) -> bool
    ensures { result ≡ false → NoOutput atoms.now.items chan }
{
    match atoms.waiting(chan) {
        Some(waiters) => waiters.outputs() > 0,
        None => false,
    }
}

/// Whether the two wait for the same.
pub fn same(first: Wait, second: Wait) -> bool
    ensures { IsTrue result ↔ (first ≡ second) }
{
    first == second
}

/// Whether the atom of a mark is filed under what it waits for, and can do nothing then.
fn is_calm(code: &Code, atoms: &Index<Held>, mark: Name) -> bool
    ensures { IsTrue result → CalmAt code.now atoms.now.items mark }
{
    let Some(held) = atoms.get(mark) else {
        return true;
    };
    let Some(wait) = atoms.wait(mark) else {
        return true;
    };
    if alone(code, mark, held).is_some() {
        return false;
    }
    if !same(wait, wait_of(code, held)) {
        return false;
    }
    match wait {
        Wait::Takes(chan) => !gives(atoms, chan),
        Wait::Gives(_) => true,
        Wait::Acts => true,
        Wait::Stuck => true,
    }
}

/// Whether that holds of every atom. It walks over them.
fn all_calm(code: &Code, atoms: &Index<Held>) -> bool
    ensures { IsTrue result → (q : Named) → CalmAt code.now atoms.now.items q }
{
    for at in 0..atoms.len() {
        if !is_calm(code, atoms, atoms.key(at)) {
            return false;
        }
    }
    true
}

/// What the atoms can do, and none exactly where they can do nothing. Where the index tells of something that can be
/// done it walks over nothing, and where all are filed by this code once over the atoms.
pub fn ready_in(code: &Code, atoms: &Index<Held>) -> Option<Ready>
    ensures post { IfSome result NoPost }
    ensures some { (agent : Named) → IfSome result (IsReady code.now (mapped (seen_as code.now.processes agent) atoms.now.items)) }
    ensures none { (agent : Named) → IfNone result (NothingReady code.now (mapped (seen_as code.now.processes agent) atoms.now.items)) }
{
    if let Some(ready) = likely_in(code, atoms) {
        return Some(ready);
    }
    if all_calm(code, atoms) {
        return None;
    }
    any_ready(code, atoms)
}
