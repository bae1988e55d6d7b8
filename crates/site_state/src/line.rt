ghost use Rattle.std.specs.Prelude.{◌≡◌, ◌<◌, ◌≤◌, ◌+◌, [], ◌∷◌, ◌++◌, ◌↔◌, IfOk, IsTrue, OnOk, MatchOption, option_copied, slice_get};
ghost use Rattle.site_state.specs.declared.line.TheConstants.{PLACES};

use agent_move::Item;
use np_syntax::Memory;
use std::alloc::Global;
use std::collections::VecDeque;
use std::marker::Model;

/// For how many items a line has room at first.
pub const PLACES: u32 = 16;

/// Items that wait to be put on a link, first come first served. `spare` is for how many more there is room.
pub struct Line {
    items: VecDeque<Item>,
}

impl Drop for Line {
    fn drop(self) {
        let Line { items: _ } = self;
    }
}

impl Model for Line {
    ghost use Rattle.std.specs.Prelude.{◌-◌};
    ghost use Rattle.std.specs.VecDeque.{deque_len, deque_capacity};
    ghost use Rattle.site_state.specs.Lines.{Waiting, waiting_code};

    ghost Value = { Waiting };

    ghost coded = { waiting_code };

    ghost view = { λ line. record { items = line.items.items; spare = deque_capacity line.items - deque_len line.items } };
}

impl Line {
    /// No items, and room for some.
    pub fn new(alloc: Global) -> Result<Line, Memory>
        ensures items { IfOk result (λ line. line.items ≡ []) }
        ensures spare { IfOk result (λ line. PLACES ≤ line.spare) }
    {
        let items = VecDeque::with_capacity(alloc, PLACES as usize)?;
        Ok(Line { items })
    }

    /// Makes sure of room for so many more.
    pub fn reserve(&mut self, more: u32) -> Result<(), Memory>
        ensures items { self.new.items ≡ self.old.items }
        ensures spare { self.old.spare ≤ self.new.spare }
        ensures ok { OnOk result (more ≤ self.new.spare) }
    {
        match self.items.reserve(more as usize) {
            Ok(()) => Ok(()),
            Err(_) => Err(Memory),
        }
    }

    pub fn is_empty(&self) -> bool
        ensures { IsTrue result ↔ (self.now.items ≡ []) }
    {
        self.items.is_empty()
    }

    /// An item comes last.
    pub fn put(&mut self, item: Item)
        requires { 0 < self.old.spare }
        ensures items { self.new.items ≡ self.old.items ++ item ∷ [] }
        ensures spare { self.old.spare ≡ self.new.spare + 1 }
    {
        self.items.push_back_reserved(item);
    }

    /// The first item.
    pub fn first(&self) -> Option<&Item>
        ensures { option_copied result ≡ slice_get self.now.items 0 }
    {
        self.items.front()
    }

    /// The first item goes, if there is one.
    pub fn take(&mut self) -> Option<Item>
        ensures { MatchOption result ((self.old.items ≡ []) × (self.new ≡ self.old))
            (λ item. (self.old.items ≡ item ∷ self.new.items) × (self.new.spare ≡ self.old.spare + 1)) }
    {
        self.items.pop_front()
    }

    /// An item comes first.
    pub fn put_first(&mut self, item: Item)
        requires { 0 < self.old.spare }
        ensures items { self.new.items ≡ item ∷ self.old.items }
        ensures spare { self.old.spare ≡ self.new.spare + 1 }
    {
        self.items.push_front_reserved(item);
    }
}
