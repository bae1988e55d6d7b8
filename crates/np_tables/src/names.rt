ghost use Rattle.std.specs.Prelude.{◌≡◌, ◌<◌, ◌≤◌, ◌+◌, ◌↔◌, OnOk, OnErr, IsOk, IsTrue, IfSome, IfNone, false};
ghost use Rattle.std.specs.FinSet as set;

use indexmap::IndexMap;
use np_syntax::{Memory, Name};
use std::alloc::Global;
use std::marker::Model;

/// A finite set of names. Its `spare` is how many new names are sure to find room.
pub struct Names {
    names: IndexMap<Name, ()>,
}

impl Drop for Names {
    fn drop(self) {
        let Names { names: _ } = self;
    }
}

impl Model for Names {
    ghost use Rattle.np_tables.specs.Stored.{StoredNames, stored_names_code, set_of};
    ghost use Rattle.indexmap.specs.IndexMap as indexed;

    ghost Value = { StoredNames };

    ghost coded = { stored_names_code };

    ghost view = { λ held. record { members = set_of (indexed.keys held.names); spare = indexed.spare held.names } };
}

impl Names {
    /// The empty set, which takes no memory.
    pub fn new(alloc: Global) -> Names
        ensures { result.members ≡ set.empty }
    {
        Names {
            names: IndexMap::new(alloc),
        }
    }

    pub fn has(&self, name: Name) -> bool
        ensures { result ≡ set.contains self.now.members name }
    {
        self.names.contains_key(&name)
    }

    pub fn is_empty(&self) -> bool
        ensures { IsTrue result ↔ (self.now.members ≡ set.empty) }
    {
        self.names.is_empty()
    }

    /// One of the names, if there are any.
    pub fn first(&self) -> Option<Name>
        ensures some { IfSome result (λ name. IsTrue (set.contains self.now.members name)) }
        ensures none { IfNone result (self.now.members ≡ set.empty) }
    {
        match self.names.first() {
            Some((name, _)) => Some(*name),
            None => None,
        }
    }

    /// Makes sure of room for so many new names.
    pub fn reserve(&mut self, more: usize) -> Result<(), Memory>
        ensures members { self.new.members ≡ self.old.members }
        ensures spare { self.old.spare ≤ self.new.spare }
        ensures ok { OnOk result (more ≤ self.new.spare) }
        ensures room { more ≤ self.old.spare → IsOk result }
    {
        match self.names.reserve(more) {
            Ok(()) => Ok(()),
            Err(_) => Err(Memory),
        }
    }

    /// A name that is there takes no room.
    pub fn insert(&mut self, name: Name) -> Result<(), Memory>
        ensures ok { OnOk result (self.new.members ≡ set.insert self.old.members name) }
        ensures err { OnErr result (self.new.members ≡ self.old.members) }
        ensures absent { OnErr result (set.contains self.old.members name ≡ false) }
        ensures room { 0 < self.old.spare → IsOk result }
        ensures spare { self.old.spare ≤ self.new.spare + 1 }
    {
        match self.names.insert(name, ()) {
            Ok(_) => Ok(()),
            Err(_) => Err(Memory),
        }
    }

    /// `insert` where there is room.
    pub fn put(&mut self, name: Name)
        requires { 0 < self.old.spare }
        ensures members { self.new.members ≡ set.insert self.old.members name }
        ensures spare { self.old.spare ≤ self.new.spare + 1 }
    {
        match self.insert(name) {
            Ok(()) => {}
            Err(_) => unreachable!(),
        }
    }

    pub fn remove(&mut self, name: Name)
        ensures members { self.new.members ≡ set.remove self.old.members name }
        ensures spare { self.old.spare ≤ self.new.spare }
    {
        let _ = self.names.swap_remove(&name);
    }
}
