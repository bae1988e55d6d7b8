ghost use Rattle.std.specs.Prelude.{◌↔◌, IsTrue};
ghost use Rattle.np_configuration.specs.Going.{GivesAt, AnyGives, MayAct, AnyMayAct};

use super::places::Places;
use np_calculus::Atom;
use np_eval::errand_of;
use np_syntax::Name;
use np_tables::{Errand, Meeting, Table};

/// Whether an atom of an agent that has a place acts alone, or takes what another atom gives. It takes no memory, and
/// walks over the atoms.
pub fn any_may_act(atoms: &Table<Atom>, places: &Places) -> bool
    ensures { IsTrue result ↔ AnyMayAct atoms.now.items places.now.items }
{
    for at in 0..atoms.len() {
        if may_act(atoms, places, atoms.key(at)) {
            return true;
        }
    }
    false
}

/// Whether the atom of this mark does.
fn may_act(atoms: &Table<Atom>, places: &Places, mark: Name) -> bool
    ensures { IsTrue result ↔ MayAct atoms.now.items places.now.items mark }
{
    let Some(atom) = atoms.get(mark) else {
        return false;
    };
    let Some(_) = places.get(atom.agent) else {
        return false;
    };
    match errand_of(atom.agent, &atom.proc, &atom.env) {
        Errand::Acts => true,
        Errand::Takes(meeting) => any_gives(atoms, meeting),
        _ => false,
    }
}

/// Whether an atom gives at this meeting.
fn any_gives(atoms: &Table<Atom>, meeting: Meeting) -> bool
    ensures { IsTrue result ↔ AnyGives atoms.now.items meeting }
{
    for at in 0..atoms.len() {
        if gives_at(atoms, meeting, atoms.key(at)) {
            return true;
        }
    }
    false
}

/// Whether the atom of this mark does.
fn gives_at(atoms: &Table<Atom>, meeting: Meeting, mark: Name) -> bool
    ensures { IsTrue result ↔ GivesAt atoms.now.items meeting mark }
{
    let Some(atom) = atoms.get(mark) else {
        return false;
    };
    errand_of(atom.agent, &atom.proc, &atom.env) == Errand::Gives(meeting)
}
