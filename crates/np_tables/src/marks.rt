ghost use Rattle.std.specs.Prelude.{◌≡◌, ◌↔◌, OnOk, OnErr, IsTrue, IfSome, IfNone};
ghost use Rattle.std.specs.FinSet as set;
ghost use Rattle.np_tables.specs.Names.{is_one};

use super::names::Names;
use np_syntax::{Memory, Name};
use std::alloc::Global;
use std::marker::Model;

/// A finite set of names, one of which stands in place, so that a set of one name takes no memory.
pub struct Marks {
    one: Option<Name>,
    others: Names,
}

impl Drop for Marks {
    fn drop(self) {
        let Marks { one: _, others: _ } = self;
    }
}

impl Model for Marks {
    ghost use Rattle.np_tables.specs.Names.{NameSet, with_one};
    ghost use Rattle.std.specs.FinSet as set;
    ghost use Rattle.np_syntax.specs.contracts.value.Name as name;

    ghost Value = { NameSet };

    ghost coded = { set.code name.the_row.coded };

    ghost view = { λ marks. with_one marks.one marks.others.members };
}

/// Whether the name that stands in place is this one.
fn matches_one(one: Option<Name>, mark: Name) -> bool
    ensures { result ≡ is_one one mark }
{
    match one {
        Some(name) => mark == name,
        None => false,
    }
}

/// Whether a name is among the others, of which there are mostly none, so that none is looked up then.
fn has_other(others: &Names, mark: Name) -> bool
    ensures { result ≡ set.contains others.now.members mark }
{
    if others.is_empty() {
        return false;
    }
    others.has(mark)
}

/// Takes a name from the others, in the same way.
fn remove_other(others: &mut Names, mark: Name)
    ensures { others.new.members ≡ set.remove others.old.members mark }
{
    if !others.is_empty() {
        others.remove(mark);
    }
}

impl Marks {
    pub fn new(alloc: Global) -> Marks
        ensures { result ≡ set.empty }
    {
        Marks {
            one: None,
            others: Names::new(alloc),
        }
    }

    pub fn has(&self, mark: Name) -> bool
        ensures { result ≡ set.contains self.now mark }
    {
        matches_one(self.one, mark) || has_other(&self.others, mark)
    }

    pub fn is_empty(&self) -> bool
        ensures { IsTrue result ↔ (self.now ≡ set.empty) }
    {
        match self.one {
            Some(_) => false,
            None => self.others.is_empty(),
        }
    }

    /// One of the names, whichever.
    pub fn first(&self) -> Option<Name>
        ensures some { IfSome result (λ mark. IsTrue (set.contains self.now mark)) }
        ensures none { IfNone result (self.now ≡ set.empty) }
    {
        match self.one {
            Some(mark) => Some(mark),
            None => self.others.first(),
        }
    }

    /// The name that stands in place, where there is no other.
    pub fn alone(&self) -> Option<Name>
        ensures { IfSome result (λ mark. IsTrue (set.contains self.now mark)) }
    {
        match self.one {
            Some(mark) if self.others.is_empty() => Some(mark),
            _ => None,
        }
    }

    /// The first name of an empty set takes no memory.
    pub fn insert(&mut self, mark: Name) -> Result<(), Memory>
        ensures ok { OnOk result (self.new ≡ set.insert self.old mark) }
        ensures err { OnErr result (self.new ≡ self.old) }
    {
        match self.one {
            Some(_) => self.others.insert(mark),
            None => {
                self.one = Some(mark);
                Ok(())
            }
        }
    }

    pub fn remove(&mut self, mark: Name)
        ensures { self.new ≡ set.remove self.old mark }
    {
        remove_other(&mut self.others, mark);
        if matches_one(self.one, mark) {
            self.one = None;
        }
    }
}
