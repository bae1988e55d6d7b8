ghost use Rattle.std.specs.Prelude.{◌≡◌, [], ◌∷◌, ◌++◌, OnOk, MatchOption, slice_get};

use super::trips::Item;
use np_syntax::Memory;
use std::alloc::Global;
use std::collections::VecDeque;
use std::marker::Model;

/// Items that wait, first in first out. Contracts see the list of them.
pub struct Queue {
    items: VecDeque<Item>,
}

impl Drop for Queue {
    fn drop(self) {
        let Queue { items: _ } = self;
    }
}

impl Model for Queue {
    ghost use Rattle.std.specs.Prelude.{List};
    ghost use Rattle.std.specs.Coded.{coded_list};
    ghost use Rattle.run_save.specs.declared.trips.Item.{Item};
    ghost use Rattle.run_save.specs.contracts.trips.Item as item;

    ghost Value = { List Item };

    ghost coded = { coded_list item.the_row.coded };

    ghost view = { λ queue. queue.items.items };
}

impl Queue {
    pub fn new(alloc: Global) -> Queue
        ensures { result ≡ [] }
    {
        Queue {
            items: VecDeque::new(alloc),
        }
    }

    pub fn push(&mut self, item: Item) -> Result<(), Memory>
        ensures { OnOk result (self.new ≡ self.old ++ item ∷ []) }
    {
        self.items.push_back(item)?;
        Ok(())
    }

    /// Takes the first item out.
    pub fn pop(&mut self) -> Option<Item>
        ensures { MatchOption result (self.old ≡ []) (λ first. self.old ≡ first ∷ self.new) }
    {
        self.items.pop_front()
    }
    /// The first item, which stays.
    pub fn first(&self) -> Option<Item>
        ensures { result ≡ slice_get self.now 0 }
    {
        self.items.front().copied()
    }
}
