ghost use Rattle.std.specs.Prelude.{◌≡◌, ◌<◌, ◌≤◌, ◌^◌, ◌+◌, [], length, ◌↔◌, IfOk, IsTrue, OnOk, MatchOption, option_copied, slice_get};
ghost use Rattle.site_state.specs.declared.line.TheConstants.{PLACES};
ghost use Rattle.site_state.specs.Lines.{queue_at, room_at, AreEmpty, AreGrown, HaveRoom, HaveRoomBelow, NothingOut, SameLines, IsPut};
ghost use Rattle.site_state.specs.Lines.{IsNext, IsTaken, NothingFrom};

use super::line::{Line, PLACES};
use super::marks::Marks;
use agent_move::Item;
use np_syntax::Memory;
use std::alloc::Global;
use std::marker::Model;

/// The items that a site has to put on its links, in a line for each site. `marks` are of the lines that may have items.
/// `sure` is for how many more there is room in each line. `last` is a hint: the site for which an item came last.
pub struct Outgoing {
    lines: Vec<Line>,
    marks: Marks,
    sure: u32,
    last: u32,
}

impl Drop for Outgoing {
    fn drop(self) {
        let Outgoing {
            lines: _,
            marks: _,
            sure: _,
            last: _,
        } = self;
    }
}

impl Model for Outgoing {
    ghost use Rattle.site_state.specs.Lines.{AreMarked, Queues, queues_code, HaveRoom};

    ghost Value = { Queues };

    ghost coded = { queues_code };

    ghost view = { λ outgoing. record { lines = outgoing.lines.items; sure = outgoing.sure } };

    ghost invariant = { λ outgoing. HaveRoom outgoing.sure outgoing.lines.items × AreMarked outgoing.marks outgoing.lines.items };
}

impl Outgoing {
    /// No items for any of the sites.
    pub fn new(alloc: Global, sites: u32) -> Result<Outgoing, Memory>
        ensures lines { IfOk result (λ outgoing. AreEmpty sites outgoing.lines) }
        ensures sure { IfOk result (λ outgoing. outgoing.sure ≡ PLACES) }
    {
        let lines = lines_for(alloc, sites)?;
        Ok(Outgoing {
            lines,
            marks: Marks::none(),
            sure: PLACES,
            last: 0,
        })
    }

    /// Whether there is no item for any site.
    pub fn is_empty(&self) -> bool
        ensures { IsTrue result ↔ NothingOut self.now.lines }
    {
        are_empty(&self.lines)
    }

    /// Whether there is no item for a site.
    pub fn has_none_for(&self, to: u32) -> bool
        ensures { IsTrue result ↔ (queue_at self.now.lines to ≡ []) }
    {
        match self.lines.get(to as usize) {
            Some(line) => line.is_empty(),
            None => true,
        }
    }

    /// The first site from a number on for which there may be an item.
    pub fn next_from(&self, from: u32) -> Option<u32>
        ensures { MatchOption result (NothingFrom self.now.lines from) (IsNext self.now.lines from) }
    {
        let to = self.marks.first_from(from);
        if (to as usize) < self.lines.len() {
            Some(to)
        } else {
            None
        }
    }

    /// The site for which an item came last. It is a hint.
    pub fn last(&self) -> u32 {
        self.last
    }

    /// The first item for a site.
    pub fn first(&self, to: u32) -> Option<&Item>
        ensures { option_copied result ≡ slice_get (queue_at self.now.lines to) 0 }
    {
        match self.lines.get(to as usize) {
            Some(line) => line.first(),
            None => None,
        }
    }

    /// Makes sure of room for one more item, whatever site it is for.
    pub fn reserve(&mut self) -> Result<(), Memory>
        ensures lines { SameLines self.old.lines self.new.lines }
        ensures sure { self.old.sure ≤ self.new.sure }
        ensures ok { OnOk result (0 < self.new.sure) }
    {
        if self.sure == 0 {
            reserve_each(&mut self.lines)?;
            self.sure = PLACES;
        }
        Ok(())
    }

    /// An item comes last in the line for a site.
    pub fn put(&mut self, to: u32, item: Item)
        requires to { to < length self.old.lines }
        requires room { 0 < self.old.sure }
        ensures put { IsPut self.old.lines to item self.new.lines }
        ensures sure { self.old.sure ≡ self.new.sure + 1 }
    {
        self.sure -= 1;
        self.last = to;
        self.marks.mark(to);
        self.lines[to as usize].put(item);
    }

    /// Takes the first item for a site, if there is one.
    pub fn take(&mut self, to: u32) -> Option<Item>
        requires { to < length self.old.lines }
        ensures taken { MatchOption result ((queue_at self.old.lines to ≡ []) × SameLines self.old.lines self.new.lines)
            (λ item. IsTaken self.old.lines to item self.new.lines) }
        ensures sure { self.new.sure ≡ self.old.sure }
    {
        let item = self.lines[to as usize].take();
        if is_empty_at(&self.lines, to as usize) {
            self.marks.strike(to);
        }
        item
    }

    /// An item comes first in the line for a site.
    pub fn put_first(&mut self, to: u32, item: Item)
        requires to { to < length self.old.lines }
        requires room { 0 < room_at self.old.lines to }
        ensures first { IsTaken self.new.lines to item self.old.lines }
        ensures sure { self.old.sure ≤ self.new.sure + 1 }
    {
        self.sure = self.sure.saturating_sub(1);
        self.marks.mark(to);
        self.lines[to as usize].put_first(item);
    }
}

/// A line with no items for each site.
#[tactic(auto, using(crate::proofs::Lines::lines))]
fn lines_for(alloc: Global, sites: u32) -> Result<Vec<Line>, Memory>
    ensures lines { IfOk result (λ lines. AreEmpty sites lines.items) }
    ensures room { IfOk result (λ lines. HaveRoom PLACES lines.items) }
{
    let mut lines = Vec::with_capacity(alloc, sites as usize)?;
    for _ in 0..sites {
        add_line(alloc, &mut lines)?;
    }
    Ok(lines)
}

/// One more line, with no items.
fn add_line(alloc: Global, lines: &mut Vec<Line>) -> Result<(), Memory>
    ensures lines { OnOk result (AreGrown lines.old.items lines.new.items) }
{
    let line = Line::new(alloc)?;
    lines.push(line)?;
    Ok(())
}

/// Makes sure of room for some more items in each line.
#[tactic(auto, using(crate::proofs::Lines::lines))]
fn reserve_each(lines: &mut Vec<Line>) -> Result<(), Memory>
    ensures lines { SameLines lines.old.items lines.new.items }
    ensures ok { OnOk result (HaveRoom PLACES lines.new.items) }
{
    for i in 0..lines.len() {
        reserve_at(lines, i)?;
    }
    Ok(())
}

/// Makes sure of room for some more items in one of the lines, and takes no room from the others.
fn reserve_at(lines: &mut Vec<Line>, at: usize) -> Result<(), Memory>
    requires { at < length lines.old.items }
    ensures lines { SameLines lines.old.items lines.new.items }
    ensures room { HaveRoomBelow at PLACES lines.old.items → OnOk result (HaveRoomBelow (at + 1) PLACES lines.new.items) }
{
    lines[at].reserve(PLACES)
}

/// Whether each line has no items.
fn are_empty(lines: &Vec<Line>) -> bool
    ensures { IsTrue result ↔ NothingOut lines.now.items }
{
    for i in 0..lines.len() {
        if !is_empty_at(lines, i) {
            return false;
        }
    }
    true
}

/// Whether one of the lines has no items.
fn is_empty_at(lines: &Vec<Line>, at: usize) -> bool
    requires { at < length lines.now.items }
    ensures { IsTrue result ↔ (queue_at lines.now.items at ≡ []) }
{
    lines[at].is_empty()
}
