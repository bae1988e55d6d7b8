ghost use Rattle.std.specs.Prelude.{◌≡◌, OnOk};
ghost use Rattle.std.specs.FinSet as set;
ghost use Rattle.np_lift.specs.CachedLift.{at_first, posted, renamed, stands_for, with_mark, with_messenger};

use np_syntax::{Event, Kind, Made, Memory, Name, Role, Tag};
use np_tables::{Names, Table};
use std::alloc::Global;
use std::marker::Model;

/// The marks that stand for others, each with the mark that it stands for, and the messengers.
#[derive(Drop)]
pub struct StandIns {
    marks: Table<Name>,
    messengers: Names,
}

impl Model for StandIns {
    ghost use Rattle.np_lift.specs.CachedLift.{Standing, standing_code};

    ghost Value = { Standing };

    ghost coded = { standing_code };

    ghost view = { λ stand_ins. record { marks = stand_ins.marks.items; messengers = stand_ins.messengers.members } };
}

impl StandIns {
    /// Each mark stands for itself, and there is no messenger. It takes no memory.
    pub fn new(alloc: Global) -> StandIns
        ensures { result ≡ at_first }
    {
        StandIns {
            marks: Table::new(alloc),
            messengers: Names::new(alloc),
        }
    }

    /// The mark that a mark stands for.
    pub fn stands_for(&self, mark: Name) -> Name
        ensures { result ≡ stands_for self.now mark }
    {
        match self.marks.get(mark) {
            Some(other) => *other,
            None => mark,
        }
    }

    pub fn is_messenger(&self, agent: Name) -> bool
        ensures { result ≡ set.contains self.now.messengers agent }
    {
        self.messengers.has(agent)
    }

    /// From now on the mark stands for what another stands for.
    pub fn add_mark(&mut self, mark: Name, other: Name) -> Result<(), Memory>
        ensures { OnOk result (self.new ≡ with_mark self.old mark other) }
    {
        let meant = self.stands_for(other);
        self.marks.insert(mark, meant)
    }

    /// The same for the mark of a new messenger.
    pub fn add_messenger(&mut self, messenger: Name, mark: Name, other: Name) -> Result<(), Memory>
        ensures { OnOk result (self.new ≡ with_messenger self.old messenger mark other) }
    {
        self.add_mark(mark, other)?;
        self.messengers.insert(messenger)
    }

    /// The event with the marks for which its actor and its other stand.
    pub fn renamed(&self, event: &Event) -> Event
        ensures { result ≡ renamed self.now event.now }
    {
        let other = match event.other {
            Some(mark) => Some(self.stands_for(mark)),
            None => None,
        };
        Event {
            site: event.site,
            kind: event.kind,
            actor: self.stands_for(event.actor),
            other,
            tag: event.tag,
            made: event.made,
        }
    }

    /// The post that a Send is, or the creation of a messenger, with the mark for which its actor stands.
    pub fn posted(&self, event: &Event) -> Event
        ensures { result ≡ posted self.now event.now }
    {
        Event {
            site: event.site,
            kind: Kind::Post,
            actor: self.stands_for(event.actor),
            other: None,
            tag: Tag {
                node: event.tag.node,
                role: Role::Plain,
            },
            made: Made::Nothing,
        }
    }
}
