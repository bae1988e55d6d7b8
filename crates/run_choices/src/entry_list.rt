//! The list of entries.

ghost use Rattle.std.specs.Prelude.{◌≡◌, []};

use choice_entries::{Entries, Entry};
use indexmap::IndexSet;
use std::alloc::Global;

/// The entries of all that can happen next, in some order.
pub struct EntryList {
    pub entries: IndexSet<Entry>,
}

impl Drop for EntryList {
    fn drop(self) {
        let EntryList { entries: _ } = self;
    }
}

impl EntryList {
    pub fn new(alloc: Global) -> EntryList
        ensures { result.entries.keys ≡ [] }
    {
        EntryList {
            entries: IndexSet::new(alloc),
        }
    }
}

impl Entries for EntryList {
    ghost listed = { λ list. list.entries.keys };

    fn count(&self) -> usize {
        self.entries.len()
    }

    fn entry_at(&self, place: usize) -> Option<Entry> {
        self.entries.get_index(place).copied()
    }
}
