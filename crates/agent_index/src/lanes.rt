ghost use Rattle.std.specs.Prelude.{◌≡◌, ◌<◌, ◌≤◌, ◌+◌, ◌++◌, ◌∷◌, [], length, All, MatchOption, OnOk, IsOk, IfSome, Some};
ghost use Rattle.std.specs.Prelude.{true, false};
ghost use Rattle.std.specs.Option.{option_copied};
ghost use Rattle.std.specs.FinMap as map;
ghost use Rattle.agent_index.specs.Lines.{Waiting, in_line, without, is_bare, SetsLine, SameLines};
ghost use Rattle.agent_index.specs.Lanes.{free, AreGrown, GainsInput, GainsOutput, HasCome, HasLeft, IsFree, IsPaid};
ghost use Rattle.agent_index.specs.Lanes.{LosesInput, LosesOutput, OwesMore};

use super::wait::Wait;
use super::waiters::Waiters;
use np_syntax::{List, Memory, Name};
use np_tables::Table;
use std::alloc::Global;
use std::marker::Model;

/// For how many marks a lane has places ahead.
const MOST_OWED: usize = 2;

/// How many lanes that no channel has are kept for others.
const MOST_STOCK: usize = 16;

/// Who waits on each channel. A channel on which no one waits has no entry. Its `spare` is how many marks more are sure
/// to find a place, on whatever channel: each has places ahead, but for the channels to which the last marks came.
pub struct Lanes {
    alloc: Global,
    table: Table<Waiters>,
    stock: List<Waiters>,
    first: Option<Name>,
    second: Option<Name>,
}

impl Drop for Lanes {
    fn drop(self) {
        let Lanes {
            alloc: _,
            table: _,
            stock: _,
            first: _,
            second: _,
        } = self;
    }
}

impl Model for Lanes {
    ghost use Rattle.std.specs.Prelude.{◌+◌};
    ghost use Rattle.agent_index.specs.Lanes.{Laned, laned_code, free, IsLanes};

    ghost Value = { Laned };

    ghost coded = { laned_code };

    ghost view = { λ lanes. record { lanes = lanes.table.items; spare = free lanes.first + free lanes.second } };

    ghost invariant = { IsLanes };
}

/// A free lane.
fn free_lane(stock: &mut List<Waiters>) -> Waiters
    requires stock { 1 ≤ length stock.old }
    requires stocked { All IsFree stock.old }
    ensures free { IsFree result }
    ensures stock { length stock.old ≤ length stock.new + 1 }
    ensures stocked { All IsFree stock.new }
{
    match stock.pop() {
        Some(waiters) => waiters,
        None => unreachable!(),
    }
}

/// Keeps a lane in which no one waits for others, if it has places and there are few.
fn keep(stock: &mut List<Waiters>, waiters: Waiters)
    requires bare { is_bare waiters ≡ true }
    requires stocked { All IsFree stock.old }
    ensures stock { length stock.old ≤ length stock.new }
    ensures stocked { All IsFree stock.new }
{
    if waiters.room() >= MOST_OWED && stock.len() < MOST_STOCK {
        let _ = stock.push(waiters);
    }
}

/// The lane of a channel on which no one waits goes, and is kept for others.
fn give_up(table: &mut Table<Waiters>, stock: &mut List<Waiters>, chan: Name)
    requires bare { (w : Waiting) → map.get table.old.items chan ≡ Some w → is_bare w ≡ true }
    requires stocked { All IsFree stock.old }
    ensures items { table.new.items ≡ map.remove table.old.items chan }
    ensures spare { table.old.spare ≤ table.new.spare }
    ensures stock { length stock.old ≤ length stock.new }
    ensures stocked { All IsFree stock.new }
{
    if let Some(waiters) = table.take(chan) {
        keep(stock, waiters);
    }
}

/// A mark comes last of the outputs that wait on a channel, in a free lane where no one waits there.
fn enter_output(table: &mut Table<Waiters>, stock: &mut List<Waiters>, chan: Name, mark: Name)
    requires room { (w : Waiting) → map.get table.old.items chan ≡ Some w → 0 < w.room }
    requires place { 1 ≤ table.old.spare }
    requires stock { 1 ≤ length stock.old }
    requires stocked { All IsFree stock.old }
    ensures come { HasCome (GainsOutput mark) table.old.items chan table.new.items }
    ensures spare { table.old.spare ≤ table.new.spare + 1 }
    ensures stock { length stock.old ≤ length stock.new + 1 }
    ensures stocked { All IsFree stock.new }
{
    match table.get_mut(chan) {
        Some(waiters) => waiters.add_output(mark),
        None => {
            let mut waiters = free_lane(stock);
            waiters.add_output(mark);
            table.put(chan, waiters);
        }
    }
}

/// A mark leaves the outputs that wait on a channel.
fn leave_output(table: &mut Table<Waiters>, stock: &mut List<Waiters>, chan: Name, mark: Name)
    requires { All IsFree stock.old }
    ensures left { MatchOption (map.get table.old.items chan) (table.new.items ≡ table.old.items)
        (HasLeft (LosesOutput mark) table.old.items chan table.new.items) }
    ensures spare { table.old.spare ≤ table.new.spare }
    ensures stock { length stock.old ≤ length stock.new }
    ensures stocked { All IsFree stock.new }
{
    let Some(waiters) = table.get_mut(chan) else {
        return;
    };
    waiters.remove_output(mark);
    if waiters.is_bare() {
        give_up(table, stock, chan);
    }
}

/// A mark comes last of the inputs that wait on a channel, in a free lane where no one waits there.
fn enter_input(table: &mut Table<Waiters>, stock: &mut List<Waiters>, chan: Name, mark: Name)
    requires room { (w : Waiting) → map.get table.old.items chan ≡ Some w → 0 < w.room }
    requires place { 1 ≤ table.old.spare }
    requires stock { 1 ≤ length stock.old }
    requires stocked { All IsFree stock.old }
    ensures come { HasCome (GainsInput mark) table.old.items chan table.new.items }
    ensures spare { table.old.spare ≤ table.new.spare + 1 }
    ensures stock { length stock.old ≤ length stock.new + 1 }
    ensures stocked { All IsFree stock.new }
{
    match table.get_mut(chan) {
        Some(waiters) => waiters.add_input(mark),
        None => {
            let mut waiters = free_lane(stock);
            waiters.add_input(mark);
            table.put(chan, waiters);
        }
    }
}

/// A mark leaves the inputs that wait on a channel.
fn leave_input(table: &mut Table<Waiters>, stock: &mut List<Waiters>, chan: Name, mark: Name)
    requires { All IsFree stock.old }
    ensures left { MatchOption (map.get table.old.items chan) (table.new.items ≡ table.old.items)
        (HasLeft (LosesInput mark) table.old.items chan table.new.items) }
    ensures spare { table.old.spare ≤ table.new.spare }
    ensures stock { length stock.old ≤ length stock.new }
    ensures stocked { All IsFree stock.new }
{
    let Some(waiters) = table.get_mut(chan) else {
        return;
    };
    waiters.remove_input(mark);
    if waiters.is_bare() {
        give_up(table, stock, chan);
    }
}

/// A channel is owed one place more.
fn owe(first: &mut Option<Name>, second: &mut Option<Name>, chan: Name)
    requires { 1 ≤ free first.old + free second.old }
    ensures { OwesMore first.new second.new first.old second.old chan }
{
    match *first {
        None => *first = Some(chan),
        Some(_) => *second = Some(chan),
    }
}

/// Gives a channel that is owed places what it is owed.
fn pay(table: &mut Table<Waiters>, owed: Option<Name>) -> Result<(), Memory>
    ensures grown { AreGrown table.old.items table.new.items }
    ensures spare { table.old.spare ≤ table.new.spare }
    ensures ok { OnOk result (IsPaid table.new.items owed) }
{
    let Some(chan) = owed else {
        return Ok(());
    };
    match table.get_mut(chan) {
        Some(waiters) => waiters.reserve(MOST_OWED),
        None => Ok(()),
    }
}

/// One free lane more.
fn add_free(alloc: Global, stock: &mut List<Waiters>) -> Result<(), Memory>
    requires { All IsFree stock.old }
    ensures stocked { All IsFree stock.new }
    ensures more { length stock.old ≤ length stock.new }
    ensures ok { OnOk result (length stock.new ≡ length stock.old + 1) }
{
    let mut waiters = Waiters::new(alloc);
    waiters.reserve(MOST_OWED)?;
    stock.add(waiters)?;
    Ok(())
}

/// Makes sure of two free lanes.
fn fill(alloc: Global, stock: &mut List<Waiters>) -> Result<(), Memory>
    requires { All IsFree stock.old }
    ensures stocked { All IsFree stock.new }
    ensures more { length stock.old ≤ length stock.new }
    ensures ok { OnOk result (MOST_OWED ≤ length stock.new) }
{
    if stock.len() < MOST_OWED {
        add_free(alloc, stock)?;
    }
    if stock.len() < MOST_OWED {
        add_free(alloc, stock)?;
    }
    Ok(())
}

impl Lanes {
    /// No one waits. It takes no memory.
    pub fn new(alloc: Global) -> Lanes
        ensures { result.lanes ≡ map.empty }
    {
        Lanes {
            alloc,
            table: Table::new(alloc),
            stock: List::new(alloc),
            first: Some(Name { site: 0, n: 0 }),
            second: Some(Name { site: 0, n: 0 }),
        }
    }

    /// Who waits on a channel.
    pub fn get(&self, chan: Name) -> Option<&Waiters>
        ensures value { option_copied result ≡ map.get self.now.lanes chan }
        ensures filled { IfSome result (λ waiters. is_bare waiters.now ≡ false) }
    {
        self.table.get(chan)
    }

    /// Makes room for so many more marks, on whatever channels.
    pub fn reserve(&mut self, more: usize) -> Result<(), Memory>
        requires { more ≤ MOST_OWED }
        ensures lines { SameLines self.old.lanes self.new.lanes }
        ensures spare { self.old.spare ≤ self.new.spare }
        ensures ok { OnOk result (more ≤ self.new.spare) }
        ensures room { more ≤ self.old.spare → IsOk result }
    {
        if more <= self.spare() {
            return Ok(());
        }
        self.table.reserve(MOST_OWED)?;
        fill(self.alloc, &mut self.stock)?;
        pay(&mut self.table, self.first)?;
        pay(&mut self.table, self.second)?;
        self.first = None;
        self.second = None;
        Ok(())
    }

    fn spare(&self) -> usize
        ensures { result ≡ self.now.spare }
    {
        self.first.is_none() as usize + self.second.is_none() as usize
    }

    /// A mark comes last in the line of what it waits for.
    pub fn enter(&mut self, wait: Wait, mark: Name)
        requires { 1 ≤ self.old.spare }
        ensures lines { SetsLine self.old.lanes self.new.lanes wait (in_line self.old.lanes wait ++ mark ∷ []) }
        ensures spare { self.old.spare ≤ self.new.spare + 1 }
    {
        match wait {
            Wait::Gives(chan) => {
                enter_output(&mut self.table, &mut self.stock, chan, mark);
                owe(&mut self.first, &mut self.second, chan);
            }
            Wait::Takes(chan) => {
                enter_input(&mut self.table, &mut self.stock, chan, mark);
                owe(&mut self.first, &mut self.second, chan);
            }
            _ => {}
        }
    }

    /// A mark leaves the line of what it waits for.
    pub fn leave(&mut self, wait: Wait, mark: Name)
        ensures lines { SetsLine self.old.lanes self.new.lanes wait (without (in_line self.old.lanes wait) mark) }
        ensures spare { self.old.spare ≤ self.new.spare }
    {
        match wait {
            Wait::Gives(chan) => {
                leave_output(&mut self.table, &mut self.stock, chan, mark);
            }
            Wait::Takes(chan) => {
                leave_input(&mut self.table, &mut self.stock, chan, mark);
            }
            _ => {}
        }
    }
}
