ghost use Rattle.std.specs.Prelude.{◌≡◌, ◌≤◌, None, OnOk, OnErr};
ghost use Rattle.std.specs.FinMap as map;
ghost use Rattle.np_calculus.specs.Changes.{with_made};
ghost use Rattle.np_configuration.specs.Errands.{errand_of};

use np_calculus::Atom;
use np_eval::errand_of;
use np_syntax::{Made, Memory, Name};
use np_tables::{Errand, Names, Table, WorkLists};

/// Files a mark under an errand, with room for its atom. Want of memory leaves the work lists as they were.
pub fn file(
    atoms: &mut Table<Atom>,
    work: &mut WorkLists,
    mark: Name,
    errand: Errand,
) -> Result<(), Memory>
    ensures atoms { atoms.new.items ≡ atoms.old.items }
    ensures room { OnOk result (1 ≤ atoms.new.spare) }
    ensures ok { OnOk result (work.new ≡ map.insert work.old mark errand) }
    ensures err { OnErr result (work.new ≡ work.old) }
{
    atoms.reserve(1)?;
    work.file(mark, errand)
}

/// Files a mark under what its atom waits for. Want of memory leaves the work lists as they were.
pub fn file_atom(work: &mut WorkLists, mark: Name, atom: &Atom) -> Result<(), Memory>
    ensures ok { OnOk result (work.new ≡ map.insert work.old mark (errand_of atom.now)) }
    ensures err { OnErr result (work.new ≡ work.old) }
{
    work.file(mark, errand_of(atom.agent, &atom.proc, &atom.env))
}

/// Puts an atom under a mark, and files it. Want of memory leaves the atoms and the work lists as they were.
#[tactic(auto, using(np_tables::proofs::Tables::puts))]
pub fn put_filed(
    atoms: &mut Table<Atom>,
    work: &mut WorkLists,
    mark: Name,
    atom: Atom,
) -> Result<(), Memory>
    ensures items { OnOk result (atoms.new.items ≡ map.insert atoms.old.items mark atom) }
    ensures same { OnErr result (atoms.new.items ≡ atoms.old.items) }
    ensures ok { OnOk result (work.new ≡ map.insert work.old mark (errand_of atom)) }
    ensures err { OnErr result (work.new ≡ work.old) }
{
    atoms.reserve(1)?;
    file_atom(work, mark, &atom)?;
    atoms.put(mark, atom);
    Ok(())
}

/// Files an atom that comes under a new mark and one that goes on, with room for both and for two names that are born. Want
/// of memory leaves the work lists as they were.
pub fn file_two(
    atoms: &mut Table<Atom>,
    born: &mut Names,
    work: &mut WorkLists,
    mark: Name,
    comes: &Atom,
    actor: Name,
    stays: &Atom,
) -> Result<(), Memory>
    requires { map.get work.old mark ≡ None }
    ensures atoms { atoms.new.items ≡ atoms.old.items }
    ensures born { born.new.members ≡ born.old.members }
    ensures room { OnOk result (2 ≤ atoms.new.spare) }
    ensures names { OnOk result (2 ≤ born.new.spare) }
    ensures ok { OnOk result (work.new ≡ map.insert (map.insert work.old mark (errand_of comes.now)) actor (errand_of stays.now)) }
    ensures err { OnErr result (work.new ≡ work.old) }
{
    atoms.reserve(2)?;
    born.reserve(2)?;
    let first = errand_of(comes.agent, &comes.proc, &comes.env);
    let second = errand_of(stays.agent, &stays.proc, &stays.env);
    work.file_two(mark, first, actor, second)
}

/// The names that an event makes are born. It takes no memory.
pub fn bear(born: &mut Names, made: Made)
    requires { 2 ≤ born.old.spare }
    ensures { born.new.members ≡ with_made born.old.members made }
{
    match made {
        Made::Nothing => {}
        Made::One(name) => born.put(name),
        Made::Two(first, second) => {
            born.put(first);
            born.put(second);
        }
    }
}
