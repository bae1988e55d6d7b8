ghost use Rattle.std.specs.Prelude.{◌≡◌, ◌<◌, ◌≤◌, ◌+◌, ◌↔◌, length, slice_index_or, OnOk, OnErr, IsOk, IsSome, IfSome, IsTrue, is_some};
ghost use Rattle.std.specs.Prelude.{Some};
ghost use Rattle.std.specs.Option.{option_copied, option_copied_mut};
ghost use Rattle.std.specs.Borrow.{sem};
ghost use Rattle.std.specs.FinMap as map;
ghost use Rattle.np_tables.specs.Lent.{IsPlace, lends_item, lends_there};
ghost use Rattle.np_tables.specs.Stored.{Covers};

use indexmap::IndexMap;
use np_syntax::{Memory, Name};
use std::alloc::Global;
use std::marker::Model;

/// A finite map from names, which lends its values to be changed in place. Its `spare` is how many new names are sure
/// to find room, and its `keys` are the names in the order of a walk, which `take` and `remove` change.
pub struct Table<V> {
    entries: IndexMap<Name, V>,
}

impl<V: Drop> Drop for Table<V> {
    fn drop(self) {
        let Table { entries: _ } = self;
    }
}

impl<V> Model for Table<V> {
    ghost use Rattle.np_tables.specs.Stored.{Stored, stored_code, map_of};
    ghost use Rattle.indexmap.specs.IndexMap as indexed;

    ghost Value = { Stored V };

    ghost coded = { stored_code V.code };

    ghost view = { λ table. record {
      items = map_of table.entries.entries;
      spare = indexed.spare table.entries;
      keys = indexed.keys table.entries;
    } };
}

impl<V> Table<V> {
    /// The empty table, which takes no memory.
    pub fn new(alloc: Global) -> Table<V>
        ensures { result.items ≡ map.empty }
    {
        Table {
            entries: IndexMap::new(alloc),
        }
    }

    pub fn get(&self, key: Name) -> Option<&V>
        ensures { option_copied result ≡ map.get self.now.items key }
    {
        self.entries.get(&key)
    }

    /// The value of a name, to be changed in place.
    pub fn get_mut(&mut self, key: Name) -> Option<&mut V>
        ensures* writes_back { sem 𝓛 (lends_item V.row self.entry key result) }
        ensures value { option_copied_mut result ≡ map.get self.old.items key }
    {
        self.entries.get_mut(&key)
    }

    /// Where a name stands in the order of the walk.
    pub fn index(&self, key: Name) -> Option<usize>
        ensures found { is_some result ≡ is_some (map.get self.now.items key) }
        ensures place { IfSome result (IsPlace self.now.keys key) }
    {
        self.entries.get_index_of(&key)
    }

    /// The value of the name at an index of the walk, to be changed in place. No name is looked up.
    pub fn value_at(&mut self, key: Name, index: usize) -> &mut V
        requires { IsPlace self.old.keys key index }
        ensures* writes_back { sem 𝓛 (lends_there V.row self.entry key result) }
        ensures value { Some result.now ≡ map.get self.old.items key }
    {
        &mut self.entries[index]
    }

    /// The value of a name, which is looked for at an index first. Where it stands there, this takes no search.
    pub fn get_near(&self, index: usize, key: Name) -> Option<&V>
        ensures { option_copied result ≡ map.get self.now.items key }
    {
        match self.entries.get_index(index) {
            Some((near, value)) if *near == key => Some(value),
            _ => self.get(key),
        }
    }

    pub fn has(&self, key: Name) -> bool
        ensures { result ≡ is_some (map.get self.now.items key) }
    {
        self.entries.contains_key(&key)
    }

    pub fn is_empty(&self) -> bool
        ensures { IsTrue result ↔ (self.now.items ≡ map.empty) }
    {
        self.entries.is_empty()
    }

    /// Makes sure of room for so many new names.
    pub fn reserve(&mut self, more: usize) -> Result<(), Memory>
        ensures items { self.new.items ≡ self.old.items }
        ensures keys { self.new.keys ≡ self.old.keys }
        ensures spare { self.old.spare ≤ self.new.spare }
        ensures ok { OnOk result (more ≤ self.new.spare) }
        ensures room { more ≤ self.old.spare → IsOk result }
    {
        match self.entries.reserve(more) {
            Ok(()) => Ok(()),
            Err(_) => Err(Memory),
        }
    }

    /// Puts a value in the place of the one that is there, and answers that one.
    pub fn swap(&mut self, key: Name, value: V) -> V
        requires { IsSome (map.get self.old.items key) }
        ensures held { map.get self.old.items key ≡ Some result }
        ensures items { self.new.items ≡ map.insert self.old.items key value }
        ensures spare { self.old.spare ≤ self.new.spare }
    {
        match self.entries.get_mut(&key) {
            Some(place) => std::mem::replace(place, value),
            None => unreachable!(),
        }
    }

    /// Takes the value of a name out, with the name.
    pub fn take(&mut self, key: Name) -> Option<V>
        ensures value { result ≡ map.get self.old.items key }
        ensures items { self.new.items ≡ map.remove self.old.items key }
        ensures spare { self.old.spare ≤ self.new.spare }
    {
        self.entries.swap_remove(&key)
    }

    /// How many names there are. A walk over `key` below this number meets each of them.
    pub fn len(&self) -> usize
        ensures len { result ≡ length self.now.keys }
        ensures covers { Covers self.now.items self.now.keys }
    {
        self.entries.len()
    }

    /// The name at an index of the walk.
    pub fn key(&self, index: usize) -> Name
        requires { index < length self.now.keys }
        ensures at { result ≡ slice_index_or self.now.keys index result }
        ensures there { IsSome (map.get self.now.items result) }
    {
        match self.entries.get_index(index) {
            Some((key, _)) => *key,
            None => unreachable!(),
        }
    }
}

impl<V: Drop> Table<V> {
    /// A name that is there takes no room.
    pub fn insert(&mut self, key: Name, value: V) -> Result<(), Memory>
        ensures ok { OnOk result (self.new.items ≡ map.insert self.old.items key value) }
        ensures err { OnErr result (self.new.items ≡ self.old.items) }
        ensures absent { OnErr result (map.get self.old.items key ≡ None) }
        ensures room { 0 < self.old.spare → IsOk result }
        ensures spare { self.old.spare ≤ self.new.spare + 1 }
    {
        match self.entries.insert(key, value) {
            Ok(_) => Ok(()),
            Err(_) => Err(Memory),
        }
    }

    /// `insert` where there is room.
    pub fn put(&mut self, key: Name, value: V)
        requires { 0 < self.old.spare }
        ensures items { self.new.items ≡ map.insert self.old.items key value }
        ensures spare { self.old.spare ≤ self.new.spare + 1 }
    {
        match self.insert(key, value) {
            Ok(()) => {}
            Err(_) => unreachable!(),
        }
    }

    /// `put` that answers the value that was there.
    pub(crate) fn exchange(&mut self, key: Name, value: V) -> Option<V>
        requires { 0 < self.old.spare }
        ensures before { result ≡ map.get self.old.items key }
        ensures items { self.new.items ≡ map.insert self.old.items key value }
    {
        match self.entries.insert(key, value) {
            Ok(before) => before,
            Err(_) => unreachable!(),
        }
    }

    /// Puts a value in the place of the one that is there.
    pub fn replace(&mut self, key: Name, value: V)
        requires { IsSome (map.get self.old.items key) }
        ensures items { self.new.items ≡ map.insert self.old.items key value }
        ensures spare { self.old.spare ≤ self.new.spare }
    {
        match self.entries.get_mut(&key) {
            Some(place) => *place = value,
            None => unreachable!(),
        }
    }

    pub fn remove(&mut self, key: Name)
        ensures items { self.new.items ≡ map.remove self.old.items key }
        ensures spare { self.old.spare ≤ self.new.spare }
    {
        let _ = self.take(key);
    }
}
