//! The columns of a picture, each made when it is first stood in.

ghost use Rattle.std.specs.Prelude.{◌≡◌, ℕ, [], IfOk, OnOk, Some, slice_get};
ghost use Rattle.run_pictures.specs.Columns.{Extends};

use super::layout::Column;
use np_syntax::{List, Memory, Name};
use np_tables::Table;
use std::alloc::Global;

/// The columns in the order in which they were made. `first` has for each agent the number of its first column, and `places`
/// the number of a column for its site and that number.
#[derive(Drop)]
pub(super) struct Columns {
    pub list: List<Column>,
    first: Table<u32>,
    places: Table<u32>,
}

impl Columns {
    pub fn new(alloc: Global) -> Columns
        ensures { result.list ≡ [] }
    {
        Columns {
            list: List::new(alloc),
            first: Table::new(alloc),
            places: Table::new(alloc),
        }
    }

    pub fn into_list(self) -> List<Column>
        ensures { result ≡ self.list }
    {
        let Columns {
            list,
            first: _,
            places: _,
        } = self;
        list
    }

    /// The number of a column, which is made where there is none yet.
    pub fn at(&mut self, wanted: Column) -> Result<u32, Memory>
        ensures at { IfOk result (λ place. slice_get self.new.list place ≡ Some wanted) }
        ensures extends { OnOk result (Extends self.old.list self.new.list) }
    {
        let key = self.key_of(wanted)?;
        match self.found(key, wanted) {
            Some(place) => Ok(place),
            None => self.add(key, wanted),
        }
    }

    /// The key of a column: its site, with the number of the first column of its agent.
    fn key_of(&mut self, wanted: Column) -> Result<Name, Memory>
        ensures { self.new.list ≡ self.old.list }
    {
        let site = wanted.site;
        if let Some(n) = self.first.get(wanted.agent).copied() {
            return Ok(Name { site, n });
        }
        let Ok(n) = u32::try_from(self.list.len()) else {
            return Err(Memory);
        };
        self.first.insert(wanted.agent, n)?;
        Ok(Name { site, n })
    }

    /// The number under a key, if it is that of the column.
    fn found(&self, key: Name, wanted: Column) -> Option<u32>
        ensures { (place : ℕ) → result ≡ Some place → slice_get self.now.list place ≡ Some wanted }
    {
        let place = self.places.get(key).copied()?;
        let column = self.list.as_slice().get(place as usize).copied()?;
        if column == wanted { Some(place) } else { None }
    }

    /// Adds a column under a key, and answers its number.
    fn add(&mut self, key: Name, wanted: Column) -> Result<u32, Memory>
        ensures at { IfOk result (λ place. slice_get self.new.list place ≡ Some wanted) }
        ensures extends { OnOk result (Extends self.old.list self.new.list) }
    {
        let Ok(place) = u32::try_from(self.list.len()) else {
            return Err(Memory);
        };
        self.places.insert(key, place)?;
        self.list.add(wanted)?;
        Ok(place)
    }
}
