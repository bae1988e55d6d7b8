ghost use Rattle.std.specs.Prelude.{◌≡◌, ◌<◌, ◌↔◌, IfSome, IfNone, OnOk, OnErr, IsTrue, None};
ghost use Rattle.std.specs.FinMap as map;
ghost use Rattle.np_tables.specs.Errands.{Work, IsReady, NothingReady};
ghost use Rattle.np_tables.specs.Lines.{is_due, SameLines, BusyAt, InLines, InLinesAnd};

use super::by_errand::ByErrand;
use super::errand::{Errand, Ready};
use super::table::Table;
use super::turns::{Turn, Turns};
use np_syntax::{Memory, Name};
use std::alloc::Global;
use std::marker::Model;

/// Which mark is filed under which errand, and what is ready then. Marks that act alone and meetings are served in
/// the order in which they came, as far as memory allows, and so are the inputs and the outputs of a meeting.
pub struct WorkLists {
    filed: Table<Errand>,
    marks: ByErrand,
    turns: Turns,
}

impl Drop for WorkLists {
    fn drop(self) {
        let WorkLists {
            filed: _,
            marks: _,
            turns: _,
        } = self;
    }
}

impl Model for WorkLists {
    ghost use Rattle.std.specs.FinMap as map;
    ghost use Rattle.np_syntax.specs.contracts.value.Name as name;
    ghost use Rattle.np_tables.specs.contracts.errand.Errand as errand;
    ghost use Rattle.np_tables.specs.Errands.{Work};

    ghost Value = { Work };

    ghost coded = { map.code name.the_row.coded errand.the_row.coded };

    ghost use Rattle.np_tables.specs.InStep.{InStep};

    ghost view = { λ lists. lists.filed.items };

    ghost invariant = { InStep };
}

impl WorkLists {
    /// No marks, which takes no memory.
    pub fn new(alloc: Global) -> WorkLists
        ensures { result ≡ map.empty }
    {
        WorkLists {
            filed: Table::new(alloc),
            marks: ByErrand::new(alloc),
            turns: Turns::new(alloc),
        }
    }

    /// Files a mark anew, or in the place of what it was filed under.
    pub fn file(&mut self, mark: Name, errand: Errand) -> Result<(), Memory>
        ensures ok { OnOk result (self.new ≡ map.insert self.old mark errand) }
        ensures err { OnErr result (self.new ≡ self.old) }
    {
        self.filed.reserve(1)?;
        let busy = self.marks.add(errand, mark)?;
        settle(&mut self.filed, &mut self.marks, mark, errand);
        announce(&mut self.turns, mark, errand, busy);
        Ok(())
    }

    /// Files a new mark and another one, both or neither.
    pub fn file_two(
        &mut self,
        new_mark: Name,
        new_errand: Errand,
        mark: Name,
        errand: Errand,
    ) -> Result<(), Memory>
        requires absent { map.get self.old new_mark ≡ None }
        ensures ok { OnOk result (self.new ≡ map.insert (map.insert self.old new_mark new_errand) mark errand) }
        ensures err { OnErr result (self.new ≡ self.old) }
    {
        self.file(new_mark, new_errand)?;
        match self.file(mark, errand) {
            Ok(()) => Ok(()),
            Err(memory) => {
                self.remove(new_mark);
                Err(memory)
            }
        }
    }

    /// Files a mark no more. This takes no memory.
    pub fn remove(&mut self, mark: Name)
        ensures { self.new ≡ map.remove self.old mark }
    {
        if let Some(errand) = self.filed.take(mark) {
            self.marks.remove(errand, mark);
        }
    }

    /// What is to go on now. It stays filed until the caller files it anew or removes it. This takes no memory.
    pub fn next(&mut self) -> Option<Ready>
        ensures same { self.new ≡ self.old }
        ensures ready { IfSome result (IsReady self.old) }
        ensures none { IfNone result (NothingReady self.old) }
    {
        let turn = match due(&mut self.turns, &self.marks) {
            Some(turn) => turn,
            None => self.marks.any_due()?,
        };
        Some(serve(&mut self.marks, turn))
    }

    /// Whether `next` has nothing to give, told without a search.
    pub fn is_quiet(&self) -> bool
        ensures { IsTrue result ↔ NothingReady self.now }
    {
        self.marks.is_quiet()
    }
}

/// Ends the filing of a mark that has come under its errand: it leaves the errand that it was filed under, if that
/// is another.
fn settle(filed: &mut Table<Errand>, marks: &mut ByErrand, mark: Name, errand: Errand)
    requires room { 0 < filed.old.spare }
    requires lines { InLinesAnd filed.old.items marks.old.lines errand mark }
    requires busy { BusyAt marks.old.lines marks.old.busy }
    ensures filed { filed.new.items ≡ map.insert filed.old.items mark errand }
    ensures lines { InLines filed.new.items marks.new.lines }
    ensures busy { BusyAt marks.new.lines marks.new.busy }
{
    let Some(before) = filed.exchange(mark, errand) else {
        return;
    };
    if before == errand {
        return;
    }
    marks.remove(before, mark);
}

/// A turn for a mark that acts alone, or for the meeting at which it waits, if that is busy.
fn announce(turns: &mut Turns, mark: Name, errand: Errand, busy: bool) {
    match errand {
        Errand::Acts => turns.alone(mark),
        Errand::Gives(meeting) | Errand::Takes(meeting) => {
            if busy {
                turns.meets(meeting);
            }
        }
        Errand::Stuck => {}
    }
}

/// The first turn in which there is something to be served. It is taken, and goes to the end if it is a meeting's;
/// those before it are given up.
fn due(turns: &mut Turns, marks: &ByErrand) -> Option<Turn>
    ensures { IfSome result (λ turn. IsTrue (is_due marks.now.lines marks.now.busy turn)) }
{
    while let Some(turn) = turns.pop() {
        if marks.is_due(turn) {
            if let Turn::Meets(meeting) = turn {
                turns.again(meeting);
            }
            return Some(turn);
        }
        turns.forget(turn);
    }
    None
}

/// What is served in a turn.
fn serve(marks: &mut ByErrand, turn: Turn) -> Ready
    requires due { IsTrue (is_due marks.old.lines marks.old.busy turn) }
    requires busy { BusyAt marks.old.lines marks.old.busy }
    ensures lines { SameLines marks.old.lines marks.new.lines }
    ensures busy { marks.new.busy ≡ marks.old.busy }
    ensures ready { (work : Work) → InLines work marks.old.lines → IsReady work result }
{
    match turn {
        Turn::Alone(mark) => Ready::Acts(mark),
        Turn::Meets(meeting) => {
            let input = marks.serve(Errand::Takes(meeting));
            let output = marks.serve(Errand::Gives(meeting));
            Ready::Meets(input, output)
        }
    }
}
