ghost use Rattle.std.specs.Prelude.{◌≡◌, ◌<◌, ◌≤◌, ◌+◌, length, slice_index_or, MatchOption, OnOk, IfOk, IsOk, IsSome};
ghost use Rattle.std.specs.Option.{option_copied};
ghost use Rattle.std.specs.FinMap as map;
ghost use Rattle.np_tables.specs.Stored.{Covers};
ghost use Rattle.agent_index.specs.InStep.{IsInStep, Lends, NoneWaits};
ghost use Rattle.agent_index.specs.Shelves.{value_of, wait_of};

use super::lanes::Lanes;
use super::turns::Turns;
use super::wait::Wait;
use super::waiters::Waiters;
use np_syntax::{Memory, Name};
use np_tables::Table;
use std::alloc::Global;
use std::marker::Model;

/// For how many new values an index may make room ahead.
pub const MOST_AHEAD: usize = 2;

/// Values by their marks, each filed under what it waits for. Its `spare` is how many values are sure to find a
/// place, whatever they wait for. Beside it stands who is to be served next, which contracts do not see. All of it stands
/// behind one pointer, so that an index is small where it is moved.
pub struct Index<V> {
    inner: Box<Inner<V>>,
}

/// The values, the marks by what they wait for, and who is to be served next.
struct Inner<V> {
    entries: Table<(Wait, V)>,
    lanes: Lanes,
    turns: Turns,
}

impl<V: Drop> Drop for Inner<V> {
    fn drop(self) {
        let Inner {
            entries: _,
            lanes: _,
            turns: _,
        } = self;
    }
}

impl<V: Drop> Drop for Index<V> {
    fn drop(self) {
        let Index { inner: _ } = self;
    }
}

impl<V> Model for Index<V> {
    ghost use Rattle.std.specs.Prelude.{min};
    ghost use Rattle.agent_index.specs.InStep.{IsInStep};
    ghost use Rattle.agent_index.specs.Shelves.{Shelf, shelf_code};

    ghost Value = { Shelf V };

    ghost coded = { shelf_code V.code };

    ghost view = { λ index. record {
      items = index.inner.value.entries.items;
      spare = min index.inner.value.entries.spare index.inner.value.lanes.spare;
      keys = index.inner.value.entries.keys;
    } };

    ghost invariant = { λ index. IsInStep index.inner.value.entries.items index.inner.value.lanes.lanes };
}

/// A mark that is kept leaves the line of what it waits for.
fn leave<V>(entries: &Table<(Wait, V)>, lanes: &mut Lanes, turns: &mut Turns, mark: Name)
    requires { IsInStep entries.now.items lanes.old.lanes }
    ensures step { IsInStep (map.remove entries.now.items mark) lanes.new.lanes }
    ensures spare { lanes.old.spare ≤ lanes.new.spare }
{
    if let Some((wait, _)) = entries.get(mark) {
        lanes.leave(*wait, mark);
        turns.leave(entries, lanes, *wait, mark);
    }
}

impl<V: Drop> Index<V> {
    /// No values.
    pub fn new(alloc: Global) -> Result<Index<V>, Memory>
        ensures { IfOk result (λ index. index.items ≡ map.empty) }
    {
        let inner = Inner {
            entries: Table::new(alloc),
            lanes: Lanes::new(alloc),
            turns: Turns::new(alloc),
        };
        match Box::new(alloc, inner) {
            Ok(inner) => Ok(Index { inner }),
            Err(_) => Err(Memory),
        }
    }
}

impl<V> Index<V> {
    pub fn get(&self, mark: Name) -> Option<&V>
        ensures { option_copied result ≡ value_of (map.get self.now.items mark) }
    {
        match self.inner.entries.get(mark) {
            Some(kept) => Some(&kept.1),
            None => None,
        }
    }

    /// What a value waits for.
    pub fn wait(&self, mark: Name) -> Option<Wait>
        ensures { result ≡ wait_of (map.get self.now.items mark) }
    {
        match self.inner.entries.get(mark) {
            Some(kept) => Some(kept.0),
            None => None,
        }
    }

    /// How many values there are. A walk over `key` below this number meets the mark of each.
    pub fn len(&self) -> usize
        ensures len { result ≡ length self.now.keys }
        ensures covers { Covers self.now.items self.now.keys }
    {
        self.inner.entries.len()
    }

    /// The mark at an index of the walk.
    pub fn key(&self, index: usize) -> Name
        requires { index < length self.now.keys }
        ensures at { result ≡ slice_index_or self.now.keys index result }
        ensures there { IsSome (map.get self.now.items result) }
    {
        self.inner.entries.key(index)
    }

    /// Who waits on a channel, and none where no one does.
    pub fn waiting(&self, chan: Name) -> Option<&Waiters>
        ensures { MatchOption result (NoneWaits self.now.items chan) (λ waiters. Lends self.now.items chan waiters.now) }
    {
        self.inner.lanes.get(chan)
    }

    /// A mark that is kept under what acts alone, and waits longest. It is a hint: there may be one where none is told.
    pub fn first_alone(&self) -> Option<Name> {
        self.inner.turns.alone()
    }

    /// An input and an output on one channel that wait longest there. It is a hint too.
    pub fn first_pair(&self) -> Option<(Name, Name)> {
        let waiters = self.inner.lanes.get(self.inner.turns.busy()?)?;
        Some((waiters.first_input()?, waiters.first_output()?))
    }

    /// Makes room for so many more values, whatever they wait for.
    pub fn reserve(&mut self, more: usize) -> Result<(), Memory>
        requires { more ≤ MOST_AHEAD }
        ensures items { self.new.items ≡ self.old.items }
        ensures keys { self.new.keys ≡ self.old.keys }
        ensures spare { self.old.spare ≤ self.new.spare }
        ensures ok { OnOk result (more ≤ self.new.spare) }
        ensures room { more ≤ self.old.spare → IsOk result }
    {
        self.inner.entries.reserve(more)?;
        self.inner.lanes.reserve(more)
    }

    /// Takes a value out.
    pub fn take(&mut self, mark: Name) -> Option<V>
        ensures value { result ≡ value_of (map.get self.old.items mark) }
        ensures items { self.new.items ≡ map.remove self.old.items mark }
        ensures spare { self.old.spare ≤ self.new.spare }
    {
        let inner = &mut *self.inner;
        let (wait, value) = inner.entries.take(mark)?;
        inner.lanes.leave(wait, mark);
        inner.turns.leave(&inner.entries, &inner.lanes, wait, mark);
        Some(value)
    }
}

impl<V: Drop> Index<V> {
    /// Puts a value under a mark, filed under what it waits for. One that is there gives way.
    #[tactic(auto, using(np_tables::proofs::Tables::puts))]
    pub fn put(&mut self, mark: Name, value: V, wait: Wait)
        requires { 1 ≤ self.old.spare }
        ensures items { self.new.items ≡ map.insert self.old.items mark (wait, value) }
        ensures spare { self.old.spare ≤ self.new.spare + 1 }
    {
        let inner = &mut *self.inner;
        leave(&inner.entries, &mut inner.lanes, &mut inner.turns, mark);
        inner.lanes.enter(wait, mark);
        inner.entries.put(mark, (wait, value));
        inner.turns.enter(&inner.lanes, wait, mark);
    }

    pub fn remove(&mut self, mark: Name)
        ensures items { self.new.items ≡ map.remove self.old.items mark }
        ensures spare { self.old.spare ≤ self.new.spare }
    {
        let _ = self.take(mark);
    }
}
