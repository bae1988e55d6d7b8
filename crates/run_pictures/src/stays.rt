//! Where agents stand, from row to row.

ghost use Rattle.std.specs.Prelude.{OnOk};
ghost use Rattle.run_pictures.specs.Columns.{Extends};

use super::columns::Columns;
use super::layout::{Birth, Column, Mark, Stay};
use super::marks::TOP;
use super::step::Step;
use np_syntax::{Kind, List, Made, Memory, Name};
use np_tables::Table;
use std::alloc::Global;

/// The stays so far, with the last one of each agent by its number.
#[derive(Drop)]
struct Staying {
    stays: List<Stay>,
    last: Table<u32>,
}

impl Staying {
    fn new(alloc: Global) -> Staying {
        Staying {
            stays: List::new(alloc),
            last: Table::new(alloc),
        }
    }

    /// A stay of an agent in a column, from here to there.
    fn add(&mut self, agent: Name, column: u32, from: u32, to: u32) -> Result<(), Memory> {
        let Ok(place) = u32::try_from(self.stays.len()) else {
            return Err(Memory);
        };
        self.last.insert(agent, place)?;
        self.stays.add(Stay { column, from, to })
    }

    /// The last stay of an agent, with its number.
    fn last_of(&self, agent: Name) -> Option<(usize, Stay)> {
        let place = self.last.get(agent).copied()? as usize;
        let stay = self.stays.as_slice().get(place).copied()?;
        Some((place, stay))
    }

    /// The stay of an agent in a column reaches as far as this, or begins here. One that no event made has been there from
    /// the start.
    fn reach(&mut self, agent: Name, column: u32, y: u32) -> Result<(), Memory> {
        match self.last_of(agent) {
            Some((place, stay)) if stay.column == column && place < self.stays.len() => {
                self.stays.set(place, Stay { to: y, ..stay });
                Ok(())
            }
            Some(_) => self.add(agent, column, y, y),
            None => self.add(agent, column, TOP, y),
        }
    }

    /// Notes a step that has this mark.
    fn note(&mut self, step: &Step, mark: Mark) -> Result<(), Memory> {
        match step.event.kind {
            Kind::Arrive => self.add(step.agent, mark.column, mark.y, mark.y),
            Kind::Land if !step.here => Ok(()),
            Kind::Depart => self.leave(step.agent, mark),
            _ => self.reach(step.agent, mark.column, mark.y),
        }
    }

    /// An agent stays as far as this mark, and is under way then.
    fn leave(&mut self, agent: Name, mark: Mark) -> Result<(), Memory> {
        self.reach(agent, mark.column, mark.y)?;
        self.last.remove(agent);
        Ok(())
    }

    /// Where agents stand idle behind their last events, up to the end.
    fn idles(&self, alloc: Global, end: u32) -> Result<List<Stay>, Memory> {
        let mut idles = List::new(alloc);
        for index in 0..self.last.len() {
            if let Some((_, stay)) = self.last_of(self.last.key(index)) {
                idles.add(Stay {
                    column: stay.column,
                    from: stay.to,
                    to: end,
                })?;
            }
        }
        Ok(idles)
    }
}

/// The agent that a step makes, if it makes one.
fn made_by(step: &Step) -> Option<Name> {
    match (step.event.kind, step.event.made) {
        (Kind::Agent, Made::Two(agent, _)) => Some(agent),
        _ => None,
    }
}

/// The stay of an agent begins that the step of a number makes, and that has this mark.
fn bear(
    columns: &mut Columns,
    staying: &mut Staying,
    births: &mut List<Birth>,
    event: u32,
    step: &Step,
    mark: Mark,
) -> Result<(), Memory>
    ensures { OnOk result (Extends columns.old.list columns.new.list) }
{
    let Some(agent) = made_by(step) else {
        return Ok(());
    };
    let column = columns.at(Column {
        site: step.event.site,
        agent,
    })?;
    births.add(Birth { event, column })?;
    staying.add(agent, column, mark.y, mark.y)
}

/// The stays of the agents, the births of those that are made, and where agents are idle at the end.
#[derive(Drop)]
pub(super) struct Stood {
    pub stays: List<Stay>,
    pub births: List<Birth>,
    pub idles: List<Stay>,
}

/// Where the agents of steps with these marks stand, up to this row.
pub(super) fn stays_of(
    alloc: Global,
    columns: &mut Columns,
    steps: &[Step],
    marks: &[Mark],
    end: u32,
) -> Result<Stood, Memory>
    ensures { OnOk result (Extends columns.old.list columns.new.list) }
{
    let mut staying = Staying::new(alloc);
    let mut births = List::new(alloc);
    let mut event = 0u32;
    for (step, mark) in steps.iter().zip(marks.iter()) {
        staying.note(step, *mark)?;
        bear(columns, &mut staying, &mut births, event, step, *mark)?;
        event = event.saturating_add(1);
    }
    let idles = staying.idles(alloc, end)?;
    let Staying { stays, last: _ } = staying;
    Ok(Stood {
        stays,
        births,
        idles,
    })
}
