ghost use Rattle.std.specs.Prelude.{◌≡◌, ◌<◌, ◌&&◌, ◌||◌, ◌↔◌, not, Some, IfSome, IfNone, IfOk, OnOk, OnErr, IsTrue, true, false, []};
ghost use Rattle.std.specs.FinSet as set;
ghost use Rattle.indexmap.specs.IndexMap as index_map;
ghost use Rattle.np_tables.specs.declared.errand.Errand.TheVariants as errand;
ghost use Rattle.np_tables.specs.Errands.{meeting_of};
ghost use Rattle.np_tables.specs.Lines.{line_of, has_some, has_both, is_at, is_busy, is_due, NoneDue, SameLines, SetsLine, BusyAt};

use super::errand::{Errand, Meeting};
use super::line::Line;
use super::turns::Turn;
use indexmap::IndexMap;
use np_syntax::{Memory, Name};
use std::alloc::Global;
use std::marker::Model;

/// The marks by their errands. Those that act alone have a line of their own, which is never given up.
pub struct Lines {
    alloc: Global,
    acts: Line,
    others: IndexMap<Errand, Line>,
}

impl Drop for Lines {
    fn drop(self) {
        let Lines {
            alloc: _,
            acts: _,
            others: _,
        } = self;
    }
}

impl Model for Lines {
    ghost use Rattle.std.specs.Coded.{coded_ℕ};
    ghost use Rattle.std.specs.FinSet as set;
    ghost use Rattle.indexmap.specs.Layout.{hash_map_code};
    ghost use Rattle.np_syntax.specs.contracts.value.Name as name;
    ghost use Rattle.np_tables.specs.contracts.errand.Errand as errand;
    ghost use Rattle.np_tables.specs.Lines.{LineMap, with_acts};

    ghost Value = { LineMap };

    ghost coded = { hash_map_code errand.the_row.coded (set.code name.the_row.coded) coded_ℕ };

    ghost view = { λ lines. with_acts lines.acts lines.others };
}

/// The marks by their errands, each errand's in a line, and the meetings that have both an input and an output.
pub struct ByErrand {
    lines: Lines,
    busy: IndexMap<Meeting, ()>,
}

impl Drop for ByErrand {
    fn drop(self) {
        let ByErrand { lines: _, busy: _ } = self;
    }
}

/// A mark comes into the line of an errand.
fn enter(
    alloc: Global,
    lines: &mut IndexMap<Errand, Line>,
    errand: Errand,
    mark: Name,
) -> Result<(), Memory>
    ensures ok { OnOk result (SetsLine lines.old lines.new errand (set.insert (line_of lines.old errand) mark)) }
    ensures err { OnErr result (SameLines lines.old lines.new) }
{
    let served = errand.meeting().is_some();
    match lines.get_mut(&errand) {
        Some(line) => line.insert(mark, served),
        None => {
            let mut line = Line::new(alloc);
            line.insert(mark, served)?;
            match lines.insert(errand, line) {
                Ok(_) => Ok(()),
                Err(_) => Err(Memory),
            }
        }
    }
}

/// A mark leaves the line of an errand. This tells whether others are in it still.
fn leave(lines: &mut IndexMap<Errand, Line>, errand: Errand, mark: Name) -> bool
    ensures lines { SetsLine lines.old lines.new errand (set.remove (line_of lines.old errand) mark) }
    ensures others { result ≡ has_some (line_of lines.new errand) }
{
    let Some(line) = lines.get_mut(&errand) else {
        return false;
    };
    line.remove(mark);
    if !line.is_empty() {
        return true;
    }
    give_up(lines, errand);
    false
}

/// The line of an errand that has no mark left is given up.
fn give_up(lines: &mut IndexMap<Errand, Line>, errand: Errand)
    requires { has_some (line_of lines.old errand) ≡ false }
    ensures { SameLines lines.old lines.new }
{
    let _ = lines.swap_remove(&errand);
}

/// Whether an errand has marks.
fn has(lines: &IndexMap<Errand, Line>, errand: Errand) -> bool
    ensures { result ≡ has_some (line_of lines.now errand) }
{
    match lines.get(&errand) {
        Some(line) => !line.is_empty(),
        None => false,
    }
}

/// The mark to be served of a line that has some, which goes to the end of it.
fn next_of(line: &mut Line) -> Name
    requires { IsTrue (has_some line.old) }
    ensures member { IsTrue (set.contains line.old result) }
    ensures same { line.new ≡ line.old }
{
    match line.next() {
        Some(mark) => mark,
        None => unreachable!(),
    }
}

/// The mark to be served under an errand, which goes to the end of its line.
fn serve(lines: &mut IndexMap<Errand, Line>, errand: Errand) -> Name
    requires { IsTrue (has_some (line_of lines.old errand)) }
    ensures member { IsTrue (set.contains (line_of lines.old errand) result) }
    ensures lines { SameLines lines.old lines.new }
{
    match lines.get_mut(&errand) {
        Some(line) => next_of(line),
        None => unreachable!(),
    }
}

impl Lines {
    fn new(alloc: Global) -> Lines
        ensures { (errand : Errand) → line_of result errand ≡ set.empty }
    {
        Lines {
            alloc,
            acts: Line::new(alloc),
            others: IndexMap::new(alloc),
        }
    }

    /// Whether a mark is one of those that act alone.
    fn is_acting(&self, mark: Name) -> bool
        ensures { result ≡ set.contains (line_of self.now errand.Acts) mark }
    {
        self.acts.has(mark)
    }

    fn has_acting(&self) -> bool
        ensures { result ≡ has_some (line_of self.now errand.Acts) }
    {
        !self.acts.is_empty()
    }

    /// One of the marks that act alone, whichever.
    fn any_acting(&self) -> Option<Name>
        ensures some { IfSome result (λ mark. IsTrue (set.contains (line_of self.now errand.Acts) mark)) }
        ensures none { IfNone result (has_some (line_of self.now errand.Acts) ≡ false) }
    {
        self.acts.any()
    }

    /// Whether the meeting of an errand that has marks has both an input and an output, which its other side tells.
    fn meets(&self, errand: Errand) -> bool
        requires { has_some (line_of self.now errand) ≡ true }
        ensures { (meeting : Meeting) → Some meeting ≡ meeting_of errand → result ≡ has_both self.now meeting }
    {
        match errand {
            Errand::Gives(meeting) => has(&self.others, Errand::Takes(meeting)),
            Errand::Takes(meeting) => has(&self.others, Errand::Gives(meeting)),
            Errand::Acts | Errand::Stuck => false,
        }
    }

    fn enter(&mut self, errand: Errand, mark: Name) -> Result<(), Memory>
        ensures ok { OnOk result (SetsLine self.old self.new errand (set.insert (line_of self.old errand) mark)) }
        ensures err { OnErr result (SameLines self.old self.new) }
    {
        if errand == Errand::Acts {
            self.acts.insert(mark, false)
        } else {
            enter(self.alloc, &mut self.others, errand, mark)
        }
    }

    fn leave(&mut self, errand: Errand, mark: Name) -> bool
        ensures lines { SetsLine self.old self.new errand (set.remove (line_of self.old errand) mark) }
        ensures others { result ≡ has_some (line_of self.new errand) }
    {
        if errand == Errand::Acts {
            self.acts.remove(mark);
            !self.acts.is_empty()
        } else {
            leave(&mut self.others, errand, mark)
        }
    }

    fn serve(&mut self, errand: Errand) -> Name
        requires { IsTrue (has_some (line_of self.old errand)) }
        ensures member { IsTrue (set.contains (line_of self.old errand) result) }
        ensures lines { SameLines self.old self.new }
    {
        if errand == Errand::Acts {
            next_of(&mut self.acts)
        } else {
            serve(&mut self.others, errand)
        }
    }
}

/// The meeting of an errand that a mark came under is busy if it has both now, which is told.
fn open(lines: &Lines, busy: &mut IndexMap<Meeting, ()>, errand: Errand) -> bool
    requires room { 0 < index_map.spare busy.old }
    requires own { has_some (line_of lines.now errand) ≡ true }
    ensures busy { (meeting : Meeting) → is_busy busy.new meeting
        ≡ (is_busy busy.old meeting || (is_at errand meeting && has_both lines.now meeting)) }
    ensures told { (meeting : Meeting) → Some meeting ≡ meeting_of errand → result ≡ has_both lines.now meeting }
{
    let Some(meeting) = errand.meeting() else {
        return false;
    };
    if !lines.meets(errand) {
        return false;
    }
    match busy.insert(meeting, ()) {
        Ok(_) => true,
        Err(_) => unreachable!(),
    }
}

/// The meeting of an errand that a mark left is busy no more if the errand has no others.
fn close(busy: &mut IndexMap<Meeting, ()>, errand: Errand, others: bool)
    ensures { (meeting : Meeting) → is_busy busy.new meeting ≡ (is_busy busy.old meeting && (others || not (is_at errand meeting))) }
{
    if others {
        return;
    }
    if let Some(meeting) = errand.meeting() {
        let _ = busy.swap_remove(&meeting);
    }
}

/// One of the busy meetings, whichever.
fn any_busy(busy: &IndexMap<Meeting, ()>) -> Option<Meeting>
    ensures some { IfSome result (λ meeting. IsTrue (is_busy busy.now meeting)) }
    ensures none { IfNone result (busy.now.entries ≡ []) }
{
    match busy.first() {
        Some((meeting, _)) => Some(*meeting),
        None => None,
    }
}

impl ByErrand {
    pub fn new(alloc: Global) -> ByErrand
        ensures lines { (errand : Errand) → line_of result.lines errand ≡ set.empty }
        ensures busy { BusyAt result.lines result.busy }
    {
        ByErrand {
            lines: Lines::new(alloc),
            busy: IndexMap::new(alloc),
        }
    }

    /// Puts a mark under an errand, where other errands keep theirs. It tells whether the meeting of the errand is busy now.
    pub fn add(&mut self, errand: Errand, mark: Name) -> Result<bool, Memory>
        requires { BusyAt self.old.lines self.old.busy }
        ensures ok { OnOk result (SetsLine self.old.lines self.new.lines errand (set.insert (line_of self.old.lines errand) mark)) }
        ensures err { OnErr result (SameLines self.old.lines self.new.lines) }
        ensures busy { BusyAt self.new.lines self.new.busy }
        ensures told { (meeting : Meeting) → Some meeting ≡ meeting_of errand
            → IfOk result (λ told. told ≡ has_both self.new.lines meeting) }
    {
        self.busy.reserve(1)?;
        self.lines.enter(errand, mark)?;
        Ok(open(&self.lines, &mut self.busy, errand))
    }

    /// Takes a mark from an errand, where other errands keep theirs.
    pub fn remove(&mut self, errand: Errand, mark: Name)
        requires { BusyAt self.old.lines self.old.busy }
        ensures lines { SetsLine self.old.lines self.new.lines errand (set.remove (line_of self.old.lines errand) mark) }
        ensures busy { BusyAt self.new.lines self.new.busy }
    {
        let others = self.lines.leave(errand, mark);
        close(&mut self.busy, errand, others);
    }

    /// Whether there is something to be served in this turn.
    pub fn is_due(&self, turn: Turn) -> bool
        ensures { result ≡ is_due self.now.lines self.now.busy turn }
    {
        match turn {
            Turn::Alone(mark) => self.lines.is_acting(mark),
            Turn::Meets(meeting) => self.busy.contains_key(&meeting),
        }
    }

    /// A turn in which there is something to be served, whichever.
    pub fn any_due(&self) -> Option<Turn>
        ensures some { IfSome result (λ turn. IsTrue (is_due self.now.lines self.now.busy turn)) }
        ensures none { IfNone result (NoneDue self.now.lines self.now.busy) }
    {
        match self.lines.any_acting() {
            Some(mark) => Some(Turn::Alone(mark)),
            None => Some(Turn::Meets(any_busy(&self.busy)?)),
        }
    }

    pub fn is_quiet(&self) -> bool
        ensures { IsTrue result ↔ NoneDue self.now.lines self.now.busy }
    {
        !self.lines.has_acting() && self.busy.is_empty()
    }

    /// The mark to be served under an errand, which goes to the end of its line.
    pub fn serve(&mut self, errand: Errand) -> Name
        requires { IsTrue (has_some (line_of self.old.lines errand)) }
        ensures member { IsTrue (set.contains (line_of self.old.lines errand) result) }
        ensures lines { SameLines self.old.lines self.new.lines }
        ensures busy { self.new.busy ≡ self.old.busy }
    {
        self.lines.serve(errand)
    }
}
