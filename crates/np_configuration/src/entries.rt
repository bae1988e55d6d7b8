ghost use Rattle.std.specs.Prelude.{◌≡◌, IsSome, OnOk, OnErr};
ghost use Rattle.std.specs.FinMap as map;
ghost use Rattle.np_configuration.specs.Found.{ended, entered, flown, spoken, stood};

use super::cfg::Cfg;
use super::filing::{bear, file_atom};
use np_calculus::{Atom, Packet};
use np_syntax::{Made, Memory, Name, Value};

// How atoms go on and end. Want of memory leaves a configuration as it was.
impl Cfg {
    /// An atom stands in the place of the one that stands under a mark, and the names that are made are born.
    pub(super) fn enter(&mut self, mark: Name, atom: Atom, made: Made) -> Result<(), Memory>
        requires { IsSome (map.get self.old.atoms mark) }
        ensures ok { OnOk result (self.new ≡ entered self.old mark atom made) }
        ensures err { OnErr result (self.new ≡ self.old) }
    {
        self.born.reserve(2)?;
        file_atom(&mut self.work, mark, &atom)?;
        self.atoms.replace(mark, atom);
        bear(&mut self.born, made);
        Ok(())
    }

    /// An atom stands in the place of the one that stands under a mark.
    pub(super) fn stand(&mut self, mark: Name, atom: Atom) -> Result<(), Memory>
        requires { IsSome (map.get self.old.atoms mark) }
        ensures ok { OnOk result (self.new ≡ stood self.old mark atom) }
        ensures err { OnErr result (self.new ≡ self.old) }
    {
        file_atom(&mut self.work, mark, &atom)?;
        self.atoms.replace(mark, atom);
        Ok(())
    }

    /// An atom ends.
    pub(super) fn end(&mut self, mark: Name)
        ensures { self.new ≡ ended self.old mark }
    {
        self.work.remove(mark);
        self.atoms.remove(mark);
    }

    /// An atom ends, and a packet flies under its mark.
    pub(super) fn fly(&mut self, mark: Name, packet: Packet) -> Result<(), Memory>
        requires { IsSome (map.get self.old.atoms mark) }
        ensures ok { OnOk result (self.new ≡ flown self.old mark packet) }
        ensures err { OnErr result (self.new ≡ self.old) }
    {
        self.packets.insert(mark, packet)?;
        self.work.remove(mark);
        self.atoms.remove(mark);
        Ok(())
    }

    /// An atom ends, and a value is said at a site.
    pub(super) fn say(&mut self, mark: Name, site: u32, value: Value) -> Result<(), Memory>
        ensures ok { OnOk result (self.new ≡ spoken self.old mark site value) }
        ensures err { OnErr result (self.new ≡ self.old) }
    {
        self.said.add((site, value))?;
        self.work.remove(mark);
        self.atoms.remove(mark);
        Ok(())
    }
}
