ghost use Rattle.std.specs.Prelude.{◌≡◌, ◌↔◌, false, IsTrue};
ghost use Rattle.std.specs.FinMap as map;
ghost use Rattle.agent_pool.specs.Idle.{waits_in, is_output, NoOutputBy, IsStill, IsIdle};

use super::held::{Held, wait_of};
use agent_index::{Index, Wait};
use np_code::Code;
use np_syntax::Name;

/// What the atom of a mark waits for.
pub fn waits_in(code: &Code, atoms: &Index<Held>, mark: Name) -> Option<Wait>
    ensures { result ≡ waits_in code.now.processes (map.get atoms.now.items mark) }
{
    match atoms.get(mark) {
        Some(held) => Some(wait_of(code, held)),
        None => None,
    }
}

/// Whether it is an output on a channel.
pub fn is_output(wait: Option<Wait>, chan: Name) -> bool
    ensures { result ≡ is_output wait chan }
{
    match wait {
        Some(Wait::Gives(on)) => on == chan,
        _ => false,
    }
}

/// Whether the agent has an output on a channel. It walks over the atoms.
fn any_output(code: &Code, atoms: &Index<Held>, chan: Name) -> bool
    ensures { (result ≡ false) ↔ NoOutputBy code.now.processes atoms.now.items chan }
{
    for at in 0..atoms.len() {
        if is_output(waits_in(code, atoms, atoms.key(at)), chan) {
            return true;
        }
    }
    false
}

/// Whether the atom of a mark waits, and no output is on the channel of an input. An input walks over the atoms.
fn is_still(code: &Code, atoms: &Index<Held>, mark: Name) -> bool
    ensures { IsTrue result ↔ IsStill code.now.processes atoms.now.items mark }
{
    match waits_in(code, atoms, mark) {
        Some(Wait::Acts) => false,
        Some(Wait::Takes(chan)) => !any_output(code, atoms, chan),
        _ => true,
    }
}

/// Whether that holds of every atom. It walks over them, and once more for each input.
pub fn is_idle(code: &Code, atoms: &Index<Held>) -> bool
    ensures { IsTrue result ↔ IsIdle code.now.processes atoms.now.items }
{
    for at in 0..atoms.len() {
        if !is_still(code, atoms, atoms.key(at)) {
            return false;
        }
    }
    true
}
