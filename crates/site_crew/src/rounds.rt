//! A round: all sites take their turns, and then the links are settled.
ghost use Rattle.std.specs.Prelude.{◌≡◌, ◌≤◌, length};
ghost use Rattle.np_syntax.specs.declared.limits.TheConstants.{MOST_SITES};
ghost use Rattle.site_crew.specs.Crews.{NoneFailed};
ghost use Rattle.site_crew.specs.Passes.{AreDone, HavePassed, NoneAside};
ghost use Rattle.site_crew.specs.Seats.{AllGrow, AllLater, Stand, clocks, event_count, histories};

use crate::counting::events_of;
use crate::settling::settle_all;
use crate::turns::{serial_turns, threads_turns};
use agent_move::Item;
use crew_ends::are_over;
use np_code::Code;
use site_links::Port;
use site_turn::{Gate, Length, Seat, Signs};
use std::alloc::Global;
use std::thread::Threads;

/// A round on threads. At first the sites do what their indexes tell. Where no site makes an event, and one that may make
/// some has something to do then, all take their turns again, and miss nothing: if none makes an event then either, no site that
/// may make some has anything left to do. How many events all histories have then.
pub fn threads_round<R: Threads + Sync, P: Port<R, Item>, G: Gate>(
    rt: &R,
    alloc: Global,
    code: &Code,
    gate: &G,
    signs: &Signs,
    most: Length,
    budget: u32,
    seats: &mut [Seat<P>],
) -> u64
    requires stand { Stand P.Port code.now budget seats.old }
    requires few { length seats.old ≤ MOST_SITES }
    ensures stand { Stand P.Port code.now budget seats.new }
    ensures count { length seats.new ≡ length seats.old }
    ensures grow { AllGrow (histories seats.old) (histories seats.new) }
    ensures later { AllLater (clocks seats.old) (histories seats.old) (clocks seats.new) (histories seats.new) }
    ensures total { result ≡ event_count (histories seats.new) }
    ensures done { event_count (histories seats.new) ≤ event_count (histories seats.old) → NoneFailed seats.new → NoneAside seats.new
        → AreDone code.now budget seats.new }
{
    let before = events_of(seats);
    let after = threads_pass(rt, alloc, code, gate, signs, most, false, budget, seats);
    if before < after || are_over(code, budget, seats) {
        return after;
    }
    threads_pass(rt, alloc, code, gate, signs, most, true, budget, seats)
}

/// The turns on threads. How many events all histories have then.
fn threads_pass<R: Threads + Sync, P: Port<R, Item>, G: Gate>(
    rt: &R,
    alloc: Global,
    code: &Code,
    gate: &G,
    signs: &Signs,
    most: Length,
    walks: bool,
    _budget: u32,
    seats: &mut [Seat<P>],
) -> u64
    requires stand { Stand P.Port code.now _budget seats.old }
    requires few { length seats.old ≤ MOST_SITES }
    ensures stand { Stand P.Port code.now _budget seats.new }
    ensures count { length seats.new ≡ length seats.old }
    ensures grow { AllGrow (histories seats.old) (histories seats.new) }
    ensures later { AllLater (clocks seats.old) (histories seats.old) (clocks seats.new) (histories seats.new) }
    ensures total { result ≡ event_count (histories seats.new) }
    ensures passed { HavePassed P.Port code.now walks seats.old seats.new }
{
    threads_turns(rt, alloc, code, gate, signs, most, walks, seats);
    settle_all(rt, seats);
    events_of(seats)
}

/// A round in which the sites take their turns one after another, in the same way.
pub fn serial_round<R, P: Port<R, Item>>(
    rt: &R,
    alloc: Global,
    code: &Code,
    signs: &Signs,
    most: Length,
    budget: u32,
    seats: &mut [Seat<P>],
) -> u64
    requires stand { Stand P.Port code.now budget seats.old }
    requires few { length seats.old ≤ MOST_SITES }
    ensures stand { Stand P.Port code.now budget seats.new }
    ensures count { length seats.new ≡ length seats.old }
    ensures grow { AllGrow (histories seats.old) (histories seats.new) }
    ensures later { AllLater (clocks seats.old) (histories seats.old) (clocks seats.new) (histories seats.new) }
    ensures total { result ≡ event_count (histories seats.new) }
    ensures done { event_count (histories seats.new) ≤ event_count (histories seats.old) → NoneFailed seats.new → NoneAside seats.new
        → AreDone code.now budget seats.new }
{
    let before = events_of(seats);
    let after = serial_pass(rt, alloc, code, signs, most, false, budget, seats);
    if before < after || are_over(code, budget, seats) {
        return after;
    }
    serial_pass(rt, alloc, code, signs, most, true, budget, seats)
}

/// The turns one after another. How many events all histories have then.
fn serial_pass<R, P: Port<R, Item>>(
    rt: &R,
    alloc: Global,
    code: &Code,
    signs: &Signs,
    most: Length,
    walks: bool,
    _budget: u32,
    seats: &mut [Seat<P>],
) -> u64
    requires stand { Stand P.Port code.now _budget seats.old }
    requires few { length seats.old ≤ MOST_SITES }
    ensures stand { Stand P.Port code.now _budget seats.new }
    ensures count { length seats.new ≡ length seats.old }
    ensures grow { AllGrow (histories seats.old) (histories seats.new) }
    ensures later { AllLater (clocks seats.old) (histories seats.old) (clocks seats.new) (histories seats.new) }
    ensures total { result ≡ event_count (histories seats.new) }
    ensures passed { HavePassed P.Port code.now walks seats.old seats.new }
{
    serial_turns(rt, alloc, code, signs, most, walks, seats);
    settle_all(rt, seats);
    events_of(seats)
}
