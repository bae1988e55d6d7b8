ghost use Rattle.std.specs.Prelude.{◌≡◌, ◌<◌, ◌≤◌, ◌^◌, true, false, length, map, IfErr, IfNone, IfOk, IfSome, IsSome, OnOk, OnErr};
ghost use Rattle.np_syntax.specs.declared.limits.TheConstants.{LARGEST_BUDGET};
ghost use Rattle.np_code.specs.Programs.{program};
ghost use Rattle.np_calculus.specs.Reductions.{run};
ghost use Rattle.np_calculus.specs.Starts.{start_low};
ghost use Rattle.site_crew.specs.Crews.{AddsLater, GoesOn, HasEnded, HasRun, IsJudged, IsRoundOf, NoneFailed};
ghost use Rattle.site_crew.specs.Lists.{HasFailed, HasFollowed, HasRedone, IsToFollow};
ghost use Rattle.site_crew.specs.Passes.{AreDone, NoneAside};
ghost use Rattle.site_crew.specs.Runs.{IsProgram, RunsSafely};
ghost use Rattle.site_crew.specs.Seats.{event_count, histories};

use crate::again::redo_list;
use crate::counting::events_of;
use crate::follow_fail::FollowFail;
use crate::past::refusal;
use crate::round::Round;
use crate::rounds::{serial_round, threads_round};
use agent_move::Item;
use crew_ends::{all_quiet, seats_for};
use np_code::Code;
use np_syntax::{End, Event, List, LowProgram, Memory};
use site_links::Port;
use site_turn::{Gate, Length, Seat, Signs};
use stamp_history::History;
use std::alloc::Global;
use std::marker::{Model, PhantomData};
use std::thread::Threads;

/// All sites of a program, each at its port, while no thread has them. `signs` is what they see of each other within a round.
#[derive(Drop)]
pub struct Crew<R, P: Port<R, Item>> {
    alloc: Global,
    code: Code,
    budget: u32,
    failed: bool,
    seats: Vec<Seat<P>>,
    signs: Signs,
    marker: PhantomData<R>,
}

impl<R, P: Port<R, Item>> Model for Crew<R, P> {
    ghost use Rattle.site_crew.specs.Crews.{CrewState, IsCrew, crew_code};
    ghost use Rattle.site_crew.specs.Seats.{clocks, histories};
    ghost use Rattle.site_crew.specs.Shown.{seat_states};

    ghost Value = { CrewState };

    ghost coded = { crew_code };

    ghost view = { λ c. record {
      code = c.code;
      budget = c.budget;
      failed = c.failed;
      histories = histories c.seats.items;
      clocks = clocks c.seats.items;
      seats = seat_states P.Port c.seats.items;
    } };

    ghost invariant = { λ c. IsCrew P.Port c.code c.budget c.failed c.seats.items };
}

impl<R, P: Port<R, Item>> Crew<R, P> {
    /// The sites of a program at its low start.
    pub fn new(alloc: Global, _low: &LowProgram, code: Code, budget: u32) -> Result<Self, Memory>
        requires table { program code ≡ _low.now }
        requires program { IsProgram code }
        requires safe { RunsSafely _low.now }
        requires budget { budget ≤ LARGEST_BUDGET }
        ensures crew { IfOk result (λ crew. (crew.code ≡ code) × (crew.budget ≡ budget) × (crew.failed ≡ false)) }
        ensures none { IfOk result (λ crew. event_count crew.histories ≡ 0) }
        ensures run { IfOk result HasRun }
    {
        let ports = P::make(alloc, code.sites())?;
        let seats = seats_for(alloc, &code, budget, ports)?;
        let signs = Signs::new(alloc, code.sites())?;
        Ok(Crew {
            alloc,
            code,
            budget,
            failed: false,
            seats,
            signs,
            marker: PhantomData,
        })
    }

    /// A round in which the sites take their turns one after another. Where memory runs out, the crew has failed: its
    /// histories are still a run, and each later round answers Memory and changes nothing.
    pub fn serial_round(&mut self, rt: &R) -> Result<Round, Memory>
        ensures on { GoesOn self.old self.new }
        ensures later { AddsLater self.old self.new }
        ensures run { HasRun self.new }
        ensures ok { IfOk result (IsRoundOf self.old self.new) }
        ensures sound { OnOk result (self.new.failed ≡ false) }
        ensures err { OnErr result (self.new.failed ≡ true) }
        ensures failed { self.old.failed ≡ true → self.new ≡ self.old }
    {
        self.serial_round_of(rt, Length::Short)
    }

    /// The same with turns of this length.
    fn serial_round_of(&mut self, rt: &R, most: Length) -> Result<Round, Memory>
        ensures on { GoesOn self.old self.new }
        ensures later { AddsLater self.old self.new }
        ensures run { HasRun self.new }
        ensures ok { IfOk result (IsRoundOf self.old self.new) }
        ensures sound { OnOk result (self.new.failed ≡ false) }
        ensures err { OnErr result (self.new.failed ≡ true) }
        ensures failed { self.old.failed ≡ true → self.new ≡ self.old }
    {
        if self.failed {
            return Err(Memory);
        }
        let before = events_of(self.seats.as_slice());
        let after = serial_round(
            rt,
            self.alloc,
            &self.code,
            &self.signs,
            most,
            self.budget,
            self.seats.as_mut_slice(),
        );
        let round = judged(
            &self.code,
            self.budget,
            before < after,
            self.seats.as_slice(),
        );
        self.failed = any_failed(self.seats.as_slice());
        told(self.failed, round)
    }

    /// Does the events of a run of the program again, in their order, under the stamps 1, 2, 3 and so on; from there the crew can go
    /// on by itself. The list is refused where a site has more events in it than the budget, or where it is no run that the sites
    /// make by themselves, and then the crew is as it was. Where memory runs out, the crew has failed: each later round answers Memory
    /// and changes nothing.
    pub fn follow(&mut self, rt: &R, low: &LowProgram, events: &[Event]) -> Result<(), FollowFail>
        requires table { program self.old.code ≡ low.now }
        requires none { event_count self.old.histories ≡ 0 }
        requires sound { self.old.failed ≡ false }
        requires few { length events.now < 2 ^ 32 }
        requires run { IsSome (run (start_low low.now) events.now) }
        ensures on { GoesOn self.old self.new }
        ensures run { HasRun self.new }
        ensures ok { OnOk result (HasFollowed low.now events.now self.new) }
        ensures err { IfErr result (HasFailed low.now events.now self.old self.new) }
    {
        let fail = match self.redo_anew(rt, low, events) {
            Ok(true) => return Ok(()),
            Ok(false) => refusal(self.alloc, low, self.code.sites(), self.budget, events),
            Err(Memory) => FollowFail::Memory,
        };
        self.failed = fail.is_memory();
        Err(fail)
    }

    /// Does the events of a list again with new seats, which it has then if all events were done, and else those that it had.
    fn redo_anew(&mut self, rt: &R, _low: &LowProgram, events: &[Event]) -> Result<bool, Memory>
        requires table { program self.old.code ≡ _low.now }
        requires none { event_count self.old.histories ≡ 0 }
        requires sound { self.old.failed ≡ false }
        requires run { IsSome (run (start_low _low.now) events.now) }
        ensures on { GoesOn self.old self.new }
        ensures run { HasRun self.new }
        ensures ok { IfOk result (λ all. all ≡ true → HasFollowed _low.now events.now self.new) }
        ensures no { IfOk result (λ all. all ≡ false → self.new ≡ self.old) }
        ensures never { IfOk result (λ all. all ≡ false → IsToFollow _low.now self.old.budget events.now → ⊥) }
        ensures err { OnErr result (self.new ≡ self.old) }
    {
        let ports = P::make(self.alloc, self.code.sites())?;
        let mut seats = seats_for(self.alloc, &self.code, self.budget, ports)?;
        let done = redo_list(
            rt,
            self.alloc,
            &self.code,
            self.budget,
            seats.as_mut_slice(),
            events,
        )?;
        if !done {
            return Ok(false);
        }
        self.seats = seats;
        Ok(true)
    }

    /// Does the events of a list, whatever it is, in their order, under the stamps 1, 2, 3 and so on, as far as the sites can, and tells
    /// whether they could do them all: so the list is a run of the program that they make by themselves, within the budget. Where it
    /// is not so, or where memory runs out, the crew has failed: its histories are those of some events, and it is of no further use.
    pub fn redo(&mut self, rt: &R, events: &[Event]) -> Result<bool, Memory>
        requires none { event_count self.old.histories ≡ 0 }
        requires sound { self.old.failed ≡ false }
        ensures on { GoesOn self.old self.new }
        ensures run { HasRun self.new }
        ensures ok { IfOk result (λ all. all ≡ true → HasRedone events.now self.new) }
        ensures no { IfOk result (λ all. all ≡ false → self.new.failed ≡ true) }
        ensures never { IfOk result (λ all. all ≡ false → IsToFollow (program self.old.code) self.old.budget events.now → ⊥) }
        ensures err { OnErr result (self.new.failed ≡ true) }
    {
        let done = redo_list(
            rt,
            self.alloc,
            &self.code,
            self.budget,
            self.seats.as_mut_slice(),
            events,
        );
        self.failed = !all_done(&done);
        done
    }

    /// The histories of the sites, in the order of their numbers.
    pub fn into_histories(self) -> Result<List<History>, Memory>
        ensures { IfOk result (λ out. map (λ h. h.history) out ≡ self.histories) }
    {
        histories_of(self.alloc, self.seats)
    }

    /// Whether memory ran out in a round.
    pub fn failed(&self) -> bool
        ensures { result ≡ self.now.failed }
    {
        self.failed
    }
}

impl<R: Threads + Sync, P: Port<R, Item>> Crew<R, P> {
    /// A round in which each site takes its turn on a thread of its own. Where memory runs out, the crew has failed: its
    /// histories are still a run, and each later round answers Memory and changes nothing.
    pub fn round<G: Gate>(&mut self, rt: &R, gate: &G) -> Result<Round, Memory>
        ensures on { GoesOn self.old self.new }
        ensures later { AddsLater self.old self.new }
        ensures run { HasRun self.new }
        ensures ok { IfOk result (IsRoundOf self.old self.new) }
        ensures sound { OnOk result (self.new.failed ≡ false) }
        ensures err { OnErr result (self.new.failed ≡ true) }
        ensures failed { self.old.failed ≡ true → self.new ≡ self.old }
    {
        self.round_of(rt, gate, Length::Short)
    }

    /// The same with turns of this length.
    fn round_of<G: Gate>(&mut self, rt: &R, gate: &G, most: Length) -> Result<Round, Memory>
        ensures on { GoesOn self.old self.new }
        ensures later { AddsLater self.old self.new }
        ensures run { HasRun self.new }
        ensures ok { IfOk result (IsRoundOf self.old self.new) }
        ensures sound { OnOk result (self.new.failed ≡ false) }
        ensures err { OnErr result (self.new.failed ≡ true) }
        ensures failed { self.old.failed ≡ true → self.new ≡ self.old }
    {
        if self.failed {
            return Err(Memory);
        }
        let before = events_of(self.seats.as_slice());
        let after = threads_round(
            rt,
            self.alloc,
            &self.code,
            gate,
            &self.signs,
            most,
            self.budget,
            self.seats.as_mut_slice(),
        );
        let round = judged(
            &self.code,
            self.budget,
            before < after,
            self.seats.as_slice(),
        );
        self.failed = any_failed(self.seats.as_slice());
        told(self.failed, round)
    }

    /// A round of either kind, with long turns.
    fn one_round<G: Gate>(&mut self, rt: &R, gate: &G, serial: bool) -> Result<Round, Memory>
        ensures on { GoesOn self.old self.new }
        ensures later { AddsLater self.old self.new }
        ensures run { HasRun self.new }
        ensures ok { IfOk result (IsRoundOf self.old self.new) }
        ensures sound { OnOk result (self.new.failed ≡ false) }
        ensures err { OnErr result (self.new.failed ≡ true) }
        ensures failed { self.old.failed ≡ true → self.new ≡ self.old }
    {
        if serial {
            self.serial_round_of(rt, Length::Long)
        } else {
            self.round_of(rt, gate, Length::Long)
        }
    }

    /// Goes on until a round adds no event: with `serial` the sites take their turns one after another, else on threads.
    pub fn run<G: Gate>(&mut self, rt: &R, gate: &G, serial: bool) -> Result<End, Memory>
        ensures on { GoesOn self.old self.new }
        ensures later { AddsLater self.old self.new }
        ensures run { HasRun self.new }
        ensures ok { IfOk result (HasEnded self.new) }
        ensures sound { OnOk result (self.new.failed ≡ false) }
        ensures err { OnErr result (self.new.failed ≡ true) }
        ensures failed { self.old.failed ≡ true → self.new ≡ self.old }
    {
        loop {
            match self.one_round(rt, gate, serial)? {
                Round::Went => {}
                Round::Rest => return Ok(End::Rest),
                Round::Spent => return Ok(End::Spent),
            }
        }
    }
}

/// Whether all was done.
fn all_done(done: &Result<bool, Memory>) -> bool
    ensures ok { IfOk done.now (λ all. result ≡ all) }
    ensures err { OnErr done.now (result ≡ false) }
{
    match done {
        Ok(all) => *all,
        Err(_) => false,
    }
}

/// The histories of seats.
fn histories_of<P>(alloc: Global, seats: Vec<Seat<P>>) -> Result<List<History>, Memory>
where
    P: Drop,
    ensures { IfOk result (λ out. map (λ h. h.history) out ≡ histories seats.items) }
{
    let mut out = List::new(alloc);
    for seat in seats {
        let history = history_of(seat);
        out.add(history)?;
    }
    Ok(out)
}

/// The history of a seat.
fn history_of<P>(seat: Seat<P>) -> History
where
    P: Drop,
    ensures { result.history ≡ seat.site.history }
{
    let Seat { site, .. } = seat;
    site.into_history()
}

/// Whether a seat wanted for memory.
fn any_failed<P>(seats: &[Seat<P>]) -> bool
    ensures none { result ≡ false → NoneFailed seats.now }
    ensures some { result ≡ true → NoneFailed seats.now → ⊥ }
{
    for i in 0..seats.len() {
        if seats[i].failed {
            return true;
        }
    }
    false
}

/// What a round came to, if memory did not run out in it: then no item is set aside either.
fn judged<P>(code: &Code, _budget: u32, went: bool, seats: &[Seat<P>]) -> Round
    requires { went ≡ false → NoneFailed seats.now → NoneAside seats.now → AreDone code.now _budget seats.now }
    ensures { NoneFailed seats.now → NoneAside seats.now → IsJudged code.now _budget went seats.now result }
{
    if went {
        Round::Went
    } else if all_quiet(code, seats) {
        Round::Rest
    } else {
        Round::Spent
    }
}

/// What a round answers.
fn told(failed: bool, round: Round) -> Result<Round, Memory>
    ensures ok { IfOk result (λ told. round ≡ told) }
    ensures sound { OnOk result (failed ≡ false) }
    ensures err { OnErr result (failed ≡ true) }
{
    if failed { Err(Memory) } else { Ok(round) }
}
