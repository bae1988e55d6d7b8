//! Vector clocks: how many events of each site an event knows of.

ghost use Rattle.std.specs.Prelude.{◌≡◌, slice_index_or, replicate, [], IfOk, OnOk};
ghost use Rattle.std.specs.FinMap as map;
ghost use Rattle.shiviz_log.specs.Clocks as spec;

use np_syntax::{Kind, List, Memory, Name};
use np_tables::Table;
use run_pictures::Step;
use std::alloc::Global;

/// How many events of each site are known, by the site's number.
type Clock = List<u32>;

/// The clock of the last event of each site, of the last Send of each mark, and of the last Depart of each agent.
#[derive(Drop)]
pub(super) struct Clocks {
    sites: List<Clock>,
    sends: Table<Clock>,
    departs: Table<Clock>,
}

fn zeros(alloc: Global, count: usize) -> Result<Clock, Memory>
    ensures { IfOk result (λ clock. clock ≡ replicate count 0) }
{
    let mut clock = List::new(alloc);
    for _site in 0..count {
        clock.add(0u32)?;
    }
    Ok(clock)
}

/// The clocks of so many sites at the start.
fn first_clocks(alloc: Global, count: usize) -> Result<List<Clock>, Memory>
    ensures { IfOk result (λ clocks. clocks ≡ replicate count (replicate count 0)) }
{
    let mut clocks = List::new(alloc);
    for _site in 0..count {
        clocks.add(zeros(alloc, count)?)?;
    }
    Ok(clocks)
}

fn larger(a: u32, b: u32) -> u32
    ensures { result ≡ spec.larger a b }
{
    if a < b { b } else { a }
}

/// The count of a site in a clock, 0 where it has none.
pub(super) fn count_at(clock: &[u32], site: usize) -> u32
    ensures { result ≡ slice_index_or clock.now site 0 }
{
    match clock.get(site) {
        Some(count) => *count,
        None => 0,
    }
}

/// What two clocks know of.
fn joined(alloc: Global, clock: &[u32], other: &[u32]) -> Result<Clock, Memory>
    ensures { IfOk result (λ made. made ≡ spec.joined clock.now other.now) }
{
    let mut made = List::new(alloc);
    for site in 0..clock.len() {
        made.add(larger(clock[site], count_at(other, site)))?;
    }
    Ok(made)
}

/// Counts one event more of a site. A count that is too large for its number wants memory.
fn tick(clock: &mut Clock, site: u32) -> Result<(), Memory>
    ensures { OnOk result (clock.new ≡ spec.ticked clock.old site) }
{
    let Some(count) = count_at(clock.as_slice(), site as usize).checked_add(1) else {
        return Err(Memory);
    };
    if (site as usize) < clock.len() {
        clock.set(site as usize, count);
    }
    Ok(())
}

/// The clock under a name, if there is one.
fn clock_in(table: &Table<Clock>, name: Name) -> &[u32]
    ensures { result.now ≡ spec.some_clock (map.get table.now.items name) }
{
    match table.get(name) {
        Some(clock) => clock.as_slice(),
        None => &[],
    }
}

impl Clocks {
    /// Nothing is known yet, at so many sites.
    pub fn new(alloc: Global, sites: usize) -> Result<Clocks, Memory>
        ensures { IfOk result (λ clocks. spec.known_of clocks ≡ spec.at_first sites) }
    {
        let clocks = first_clocks(alloc, sites)?;
        Ok(Clocks {
            sites: clocks,
            sends: Table::new(alloc),
            departs: Table::new(alloc),
        })
    }

    /// What a site knows.
    fn at(&self, site: u32) -> &[u32]
        ensures { result.now ≡ slice_index_or (spec.known_of self.now).sites site [] }
    {
        match self.sites.as_slice().get(site as usize) {
            Some(clock) => clock.as_slice(),
            None => &[],
        }
    }

    /// What a packet knows of that lands, or an agent that arrives.
    fn coming(&self, step: &Step) -> &[u32]
        ensures { result.now ≡ spec.coming step.now.event.kind (spec.known_of self.now) step.now }
    {
        match step.event.kind {
            Kind::Land => clock_in(&self.sends, step.event.actor),
            Kind::Arrive => clock_in(&self.departs, step.agent),
            _ => &[],
        }
    }

    /// The clock of a step.
    pub fn clock_of(&self, alloc: Global, step: &Step) -> Result<Clock, Memory>
        ensures { IfOk result (λ clock. clock ≡ spec.clock_of (spec.known_of self.now) step.now) }
    {
        let mut clock = joined(alloc, self.at(step.event.site), self.coming(step))?;
        tick(&mut clock, step.event.site)?;
        Ok(clock)
    }

    /// What goes by a step takes a clock along.
    fn leave(&mut self, step: &Step, clock: Clock) -> Result<(), Memory>
        ensures { OnOk result (spec.known_of self.new ≡ spec.leaving step.now.event.kind (spec.known_of self.old) step.now clock) }
    {
        match step.event.kind {
            Kind::Send => self.sends.insert(step.event.actor, clock),
            Kind::Depart => self.departs.insert(step.agent, clock),
            _ => Ok(()),
        }
    }

    /// The site of a step keeps a clock.
    fn stay(&mut self, step: &Step, clock: Clock)
        ensures { spec.known_of self.new ≡ spec.staying (spec.known_of self.old) step.now clock }
    {
        let site = step.event.site as usize;
        if site < self.sites.len() {
            self.sites.set(site, clock);
        }
    }

    /// A step has this clock.
    pub fn take(&mut self, alloc: Global, step: &Step, clock: Clock) -> Result<(), Memory>
        ensures { OnOk result (spec.known_of self.new
            ≡ spec.staying (spec.leaving step.now.event.kind (spec.known_of self.old) step.now clock) step.now clock) }
    {
        let kept = clock.copy(alloc)?;
        self.leave(step, clock)?;
        self.stay(step, kept);
        Ok(())
    }
}
