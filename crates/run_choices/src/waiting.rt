//! All that can happen next.

ghost use Rattle.std.specs.Prelude.{◌≡◌, [], None, OnOk, cond};
ghost use Rattle.std.specs.FinMap as map;
ghost use Rattle.np_calculus.specs.FrameRule.{Every};
ghost use Rattle.np_calculus.specs.Footprints.{listed};
ghost use Rattle.np_configuration.specs.Placed.{travels};
ghost use Rattle.np_syntax.specs.Events.{made_names};
ghost use Rattle.np_tables.specs.Names.{same_name};
ghost use Rattle.run_choices.specs.Choices.{errand_in};
ghost use Rattle.choice_entries.specs.Picks.{pick};
ghost use Rattle.run_choices.specs.Held.{Agrees, InStep, chosen_by, held, touched};
ghost use Rattle.run_choices.specs.Lines.{SameComing, line_of};

use super::choice::{Choice, Draw};
use super::entry_list::EntryList;
use super::line::Line;
use super::lines::{closed_by, enter, leave, opened_by, set_entry};
use choice_entries::{Entry, pick};
use indexmap::IndexMap;
use np_calculus::Place;
use np_configuration::Cfg;
use np_eval::errand_of;
use np_syntax::{Event, Made, Memory, Name};
use np_tables::{Errand, Table};
use std::alloc::Global;

/// What each atom waits for, the marks that wait for the same, and the list of all that can happen next.
pub struct Waiting {
    alloc: Global,
    filed: Table<Errand>,
    lines: IndexMap<Errand, Line>,
    list: EntryList,
}

impl Drop for Waiting {
    fn drop(self) {
        let Waiting {
            alloc: _,
            filed: _,
            lines: _,
            list: _,
        } = self;
    }
}

impl Waiting {
    /// Nothing, which takes no memory.
    pub fn new(alloc: Global) -> Waiting
        ensures step { InStep (held result) }
        ensures filed { result.filed.items ≡ map.empty }
        ensures none { result.list.entries.keys ≡ [] }
    {
        Waiting {
            alloc,
            filed: Table::new(alloc),
            lines: IndexMap::new(alloc),
            list: EntryList::new(alloc),
        }
    }

    /// The choice that a draw picks; none where there is none.
    pub fn chosen(&self, draw: &Draw) -> Option<Choice>
        ensures { result ≡ chosen_by (held self.now) draw.now }
    {
        match pick(&self.list, draw.entry)? {
            Entry::Arrives(agent) => Some(Choice::Arrives(agent)),
            Entry::Lands(mark) => Some(Choice::Lands(mark)),
            Entry::Acts(mark) => Some(Choice::Acts(mark)),
            Entry::Meets(meeting) => {
                let input = pick_mark(&self.lines, Errand::Takes(meeting), draw.input)?;
                let output = pick_mark(&self.lines, Errand::Gives(meeting), draw.output)?;
                Some(Choice::Meets(input, output))
            }
        }
    }

    /// An atom stands under a mark no more.
    fn unfile(&mut self, mark: Name) -> Result<(), Memory>
        requires { InStep (held self.old) }
        ensures step { OnOk result (InStep (held self.new)) }
        ensures filed { OnOk result (self.new.filed.items ≡ map.remove self.old.filed.items mark) }
        ensures coming { OnOk result (SameComing self.old.list.entries.keys self.new.list.entries.keys) }
    {
        let Some(errand) = self.filed.take(mark) else {
            return Ok(());
        };
        let others = leave(self.alloc, &mut self.lines, errand, mark)?;
        let gone = closed_by(mark, errand, others);
        set_entry(&mut self.list.entries, gone, false)
    }

    /// An atom that waits for this stands under a mark, under which none stood.
    fn file(&mut self, mark: Name, errand: Errand) -> Result<(), Memory>
        requires step { InStep (held self.old) }
        requires absent { map.get self.old.filed.items mark ≡ None }
        ensures step { OnOk result (InStep (held self.new)) }
        ensures filed { OnOk result (self.new.filed.items ≡ map.insert self.old.filed.items mark errand) }
        ensures coming { OnOk result (SameComing self.old.list.entries.keys self.new.list.entries.keys) }
    {
        self.filed.insert(mark, errand)?;
        enter(self.alloc, &mut self.lines, errand, mark)?;
        let new = opened_by(&self.lines, mark, errand);
        set_entry(&mut self.list.entries, new, true)
    }

    /// What stands under a mark waits for this, or nothing stands there.
    fn refile(&mut self, mark: Name, errand: Option<Errand>) -> Result<(), Memory>
        requires { InStep (held self.old) }
        ensures step { OnOk result (InStep (held self.new)) }
        ensures filed { OnOk result ((q : Name) → map.get self.new.filed.items q
            ≡ cond (same_name q mark) errand (map.get self.old.filed.items q)) }
        ensures coming { OnOk result (SameComing self.old.list.entries.keys self.new.list.entries.keys) }
    {
        self.unfile(mark)?;
        match errand {
            Some(errand) => self.file(mark, errand),
            None => Ok(()),
        }
    }

    /// What a configuration has of a name is listed anew.
    pub fn refresh(&mut self, c: &Cfg, name: Name) -> Result<(), Memory>
        requires { InStep (held self.old) }
        ensures step { OnOk result (InStep (held self.new)) }
        ensures here { OnOk result (Agrees c.now (held self.new) name) }
        ensures kept { OnOk result ((q : Name) → Agrees c.now (held self.old) q
            → Agrees c.now (held self.new) q) }
    {
        self.refile(name, errand_in(c, name))?;
        let flies = c.packet(name).is_some();
        set_entry(&mut self.list.entries, Some(Entry::Lands(name)), flies)?;
        set_entry(
            &mut self.list.entries,
            Some(Entry::Arrives(name)),
            is_under_way(c, name),
        )
    }

    /// The same of a name that there may be.
    fn refresh_any(&mut self, c: &Cfg, name: Option<Name>) -> Result<(), Memory>
        requires { InStep (held self.old) }
        ensures step { OnOk result (InStep (held self.new)) }
        ensures here { OnOk result (Every (Agrees c.now (held self.new)) (listed name)) }
        ensures kept { OnOk result ((q : Name) → Agrees c.now (held self.old) q
            → Agrees c.now (held self.new) q) }
    {
        match name {
            Some(name) => self.refresh(c, name),
            None => Ok(()),
        }
    }

    /// The same of the names that an event made.
    fn refresh_made(&mut self, c: &Cfg, made: Made) -> Result<(), Memory>
        requires { InStep (held self.old) }
        ensures step { OnOk result (InStep (held self.new)) }
        ensures here { OnOk result (Every (Agrees c.now (held self.new)) (made_names made)) }
        ensures kept { OnOk result ((q : Name) → Agrees c.now (held self.old) q
            → Agrees c.now (held self.new) q) }
    {
        match made {
            Made::Nothing => Ok(()),
            Made::One(name) => self.refresh(c, name),
            Made::Two(agent, mark) => {
                self.refresh(c, agent)?;
                self.refresh(c, mark)
            }
        }
    }

    /// The same of all names that an event touched, which led to the configuration; the agent is that of the atom that acted.
    pub fn follow(&mut self, c: &Cfg, event: &Event, agent: Option<Name>) -> Result<(), Memory>
        requires { InStep (held self.old) }
        ensures step { OnOk result (InStep (held self.new)) }
        ensures here { OnOk result (Every (Agrees c.now (held self.new)) (touched event.now agent)) }
        ensures kept { OnOk result ((q : Name) → Agrees c.now (held self.old) q
            → Agrees c.now (held self.new) q) }
    {
        self.refresh(c, event.actor)?;
        self.refresh_any(c, event.other)?;
        self.refresh_made(c, event.made)?;
        self.refresh_any(c, agent)
    }
}

/// The mark at which a number stops that counts round and round, of those that wait for this.
fn pick_mark(lines: &IndexMap<Errand, Line>, errand: Errand, number: u32) -> Option<Name>
    ensures { result ≡ pick (line_of lines.now errand) number }
{
    lines.get(&errand)?.pick(number)
}

/// What the atom of a mark waits for.
fn errand_in(c: &Cfg, mark: Name) -> Option<Errand>
    ensures { result ≡ errand_in c.now mark }
{
    let atom = c.atom(mark)?;
    Some(errand_of(atom.agent, &atom.proc, &atom.env))
}

/// Whether an agent is under way.
fn is_under_way(c: &Cfg, agent: Name) -> bool
    ensures { result ≡ travels (map.get c.now.places agent) }
{
    match c.place(agent) {
        Some(Place::Way(_)) => true,
        _ => false,
    }
}
