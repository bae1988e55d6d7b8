//! The marks that wait for the same.

ghost use Rattle.std.specs.Prelude.{◌≡◌, ◌%◌, [], true, false, OnOk, length, slice_get};
ghost use Rattle.run_choices.specs.Lines.{Puts, has_some};

use indexmap::IndexSet;
use np_syntax::{Memory, Name};
use std::alloc::Global;
use std::marker::Model;

/// A set of marks, which contracts see as their list in some order.
pub struct Line {
    marks: IndexSet<Name>,
}

impl Drop for Line {
    fn drop(self) {
        let Line { marks: _ } = self;
    }
}

impl Model for Line {
    ghost use Rattle.std.specs.Prelude.{List};
    ghost use Rattle.std.specs.Coded.{coded_list};
    ghost use Rattle.np_syntax.specs.declared.value.Name.{Name};
    ghost use Rattle.np_syntax.specs.contracts.value.Name as name;

    ghost Value = { List Name };

    ghost coded = { coded_list name.the_row.coded };

    ghost view = { λ line. line.marks.keys };
}

impl Line {
    pub fn new(alloc: Global) -> Line
        ensures { result ≡ [] }
    {
        Line {
            marks: IndexSet::new(alloc),
        }
    }

    pub fn insert(&mut self, mark: Name) -> Result<(), Memory>
        ensures { OnOk result (Puts self.old self.new mark true) }
    {
        match self.marks.insert(mark) {
            Ok(_) => Ok(()),
            Err(_) => Err(Memory),
        }
    }

    pub fn remove(&mut self, mark: Name)
        ensures { Puts self.old self.new mark false }
    {
        let _ = self.marks.swap_remove(&mark);
    }

    pub fn has_some(&self) -> bool
        ensures { result ≡ has_some self.now }
    {
        !self.marks.is_empty()
    }

    /// The mark at which a number stops that counts round and round.
    pub fn pick(&self, number: u32) -> Option<Name>
        ensures { result ≡ slice_get self.now (number % length self.now) }
    {
        let len = self.marks.len();
        if len == 0 {
            return None;
        }
        self.marks.get_index(number as usize % len).copied()
    }
}
