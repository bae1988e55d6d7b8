//! The causes of events: who wrote last what they touch.

ghost use Rattle.std.specs.Prelude.{◌≡◌, ◌↔◌, ℕ, OnOk};
ghost use Rattle.std.specs.FinMap as map;
ghost use Rattle.np_calculus.specs.Footprints.{listed};
ghost use Rattle.run_views.specs.Index.{IsOneOf, causes, noted, noting};
ghost use Rattle.run_views.specs.Past.{made_names};
ghost use Rattle.run_views.specs.Causes.{index_of, last_of, places_of};
ghost use Rattle.run_views.specs.Touching.{touched_as, written_as};

use super::touching::{Touched, Written};
use np_syntax::{Made, Memory, Name};
use np_tables::Table;
use std::alloc::Global;

/// The places in the run of the events that wrote last what an event touches: the mark of its actor, the mark of its other,
/// and the places of the agent that acts and of the one that is asked for.
#[derive(Clone, Copy)]
pub struct Causes {
    pub actor: Option<u32>,
    pub other: Option<u32>,
    pub agent: Option<u32>,
    pub asked: Option<u32>,
}

/// Of each mark, and of the place of each agent, the place in the run of the event that wrote it last.
#[derive(Drop)]
pub(super) struct Writers {
    marks: Table<u32>,
    places: Table<u32>,
}

impl Writers {
    /// Nothing was written.
    pub fn new(alloc: Global) -> Writers
        ensures { index_of result ≡ record { marks = map.empty; places = map.empty } }
    {
        Writers {
            marks: Table::new(alloc),
            places: Table::new(alloc),
        }
    }

    /// Who wrote last what an event touches.
    pub fn causes(&self, touched: &Touched) -> Causes
        ensures { (k : ℕ) → IsOneOf k (places_of result) ↔ IsOneOf k (causes (index_of self.now) (touched_as touched.now)) }
    {
        Causes {
            actor: last(&self.marks, touched.actor),
            other: last(&self.marks, touched.other),
            agent: last(&self.places, touched.agent),
            asked: last(&self.places, touched.asked),
        }
    }

    /// Notes what the event at a place of the run writes.
    pub fn note(&mut self, place: u32, written: &Written) -> Result<(), Memory>
        ensures { OnOk result (index_of self.new ≡ noting (index_of self.old) place (written_as written.now)) }
    {
        note(&mut self.marks, place, written.actor)?;
        note(&mut self.marks, place, written.other)?;
        note_made(&mut self.marks, place, written.made)?;
        note(&mut self.places, place, written.agent)
    }
}

/// Who wrote last under a name.
fn last(table: &Table<u32>, name: Option<Name>) -> Option<u32>
    ensures { result ≡ last_of table.now.items name }
{
    table.get(name?).copied()
}

/// Notes what is written under a name.
fn note(table: &mut Table<u32>, place: u32, name: Option<Name>) -> Result<(), Memory>
    ensures { OnOk result (table.new.items ≡ noted table.old.items place (listed name)) }
{
    match name {
        Some(name) => table.insert(name, place),
        None => Ok(()),
    }
}

/// Notes the names that are made.
fn note_made(table: &mut Table<u32>, place: u32, made: Made) -> Result<(), Memory>
    ensures { OnOk result (table.new.items ≡ noted table.old.items place (made_names made)) }
{
    match made {
        Made::Nothing => Ok(()),
        Made::One(name) => table.insert(name, place),
        Made::Two(first, second) => {
            table.insert(first, place)?;
            table.insert(second, place)
        }
    }
}
