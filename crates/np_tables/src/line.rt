ghost use Rattle.std.specs.Prelude.{◌≡◌, ◌↔◌, OnOk, OnErr, IsTrue, IfSome, IfNone};
ghost use Rattle.std.specs.FinSet as set;

use super::marks::Marks;
use np_syntax::{Memory, Name};
use std::alloc::Global;
use std::collections::VecDeque;
use std::marker::Model;

/// Marks that wait for the same. Contracts see the set of them. Beside it stands the order in which they are
/// served, where a mark may be missing, for want of memory, or stand though it is gone. A mark that is alone needs
/// no order, so that its line takes no memory.
pub struct Line {
    marks: Marks,
    order: VecDeque<Name>,
}

impl Drop for Line {
    fn drop(self) {
        let Line { marks: _, order: _ } = self;
    }
}

impl Model for Line {
    ghost use Rattle.np_tables.specs.Names.{NameSet};
    ghost use Rattle.std.specs.FinSet as set;
    ghost use Rattle.np_syntax.specs.contracts.value.Name as name;

    ghost Value = { NameSet };

    ghost coded = { set.code name.the_row.coded };

    ghost view = { λ line. line.marks };
}

impl Line {
    pub fn new(alloc: Global) -> Line
        ensures { result ≡ set.empty }
    {
        Line {
            marks: Marks::new(alloc),
            order: VecDeque::new(alloc),
        }
    }

    pub fn has(&self, mark: Name) -> bool
        ensures { result ≡ set.contains self.now mark }
    {
        self.marks.has(mark)
    }

    pub fn is_empty(&self) -> bool
        ensures { IsTrue result ↔ (self.now ≡ set.empty) }
    {
        self.marks.is_empty()
    }

    /// A mark comes, and is the last to be served where `served` says that the line is served in order.
    pub fn insert(&mut self, mark: Name, served: bool) -> Result<(), Memory>
        ensures ok { OnOk result (self.new ≡ set.insert self.old mark) }
        ensures err { OnErr result (self.new ≡ self.old) }
    {
        if self.marks.has(mark) {
            return Ok(());
        }
        let before = self.marks.alone();
        self.marks.insert(mark)?;
        if served && self.marks.alone().is_none() {
            queue(&mut self.order, before, mark);
        }
        Ok(())
    }

    pub fn remove(&mut self, mark: Name)
        ensures { self.new ≡ set.remove self.old mark }
    {
        self.marks.remove(mark);
        if self.order.back().copied() == Some(mark) {
            let _ = self.order.pop_back();
        }
    }

    /// One of the marks, whichever.
    pub fn any(&self) -> Option<Name>
        ensures some { IfSome result (λ mark. IsTrue (set.contains self.now mark)) }
        ensures none { IfNone result (self.now ≡ set.empty) }
    {
        self.marks.first()
    }

    /// The mark to be served, which goes to the end of the line.
    pub fn next(&mut self) -> Option<Name>
        ensures same { self.new ≡ self.old }
        ensures some { IfSome result (λ mark. IsTrue (set.contains self.old mark)) }
        ensures none { IfNone result (self.old ≡ set.empty) }
    {
        if let Some(mark) = self.marks.alone() {
            return Some(mark);
        }
        match longest_waiting(&self.marks, &mut self.order) {
            Some(mark) => {
                let _ = self.order.push_back(mark);
                Some(mark)
            }
            None => self.marks.first(),
        }
    }
}

/// A mark comes last in the order, which begins with the mark that was alone before, if one was.
fn queue(order: &mut VecDeque<Name>, alone: Option<Name>, mark: Name) {
    if let Some(first) = alone {
        order.clear();
        let _ = order.push_back(first);
    }
    let _ = order.push_back(mark);
}

/// Takes the first of the order that is still among the marks, and those before it.
fn longest_waiting(marks: &Marks, order: &mut VecDeque<Name>) -> Option<Name>
    ensures { IfSome result (λ mark. IsTrue (set.contains marks.now mark)) }
{
    while let Some(mark) = order.pop_front() {
        if marks.has(mark) {
            return Some(mark);
        }
    }
    None
}
