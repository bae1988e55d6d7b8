//! The seats of a crew do the events of a list again, as far as they can.
ghost use Rattle.std.specs.Prelude.{◌≡◌, ◌<◌, ◌≤◌, ◌+◌, ◌-◌, ◌^◌, true, false, not, length, take, Some, slice_get, IfOk};
ghost use Rattle.np_syntax.specs.declared.limits.TheConstants.{STAMPS_END};
ghost use Rattle.np_calculus.specs.NotEnabled.{by_atom};
ghost use Rattle.agent_pool.specs.Readies.{NoPost};
ghost use Rattle.agent_pool.specs.Rows.{ready_of};
ghost use Rattle.np_code.specs.Programs.{program};
ghost use Rattle.site_crew.specs.Bringing.{AreClear};
ghost use Rattle.site_crew.specs.Crews.{NoneFailed};
ghost use Rattle.site_crew.specs.Following.{Adds, AreAt, HasNotRedone, HaveAdded, HaveDone, HaveMissedAt, HaveNotRedone, IsNotEarly};
ghost use Rattle.site_crew.specs.Following.{StopsAt, TurnsBy};
ghost use Rattle.site_crew.specs.Lists.{AreWithin, IsToFollow};
ghost use Rattle.site_crew.specs.Runs.{IsProgram, RunsSafely};
ghost use Rattle.site_crew.specs.Seats.{AllGrow, Stand, event_count, histories};
ghost use Rattle.site_turn.specs.declared.seat.Seat.{Seat as OneSeat};
ghost use Rattle.site_turn.specs.Turns.{Seated};

use crate::bringing::{bring, is_last};
use crate::catching::catch_all;
use crate::counting::count;
use crate::past::are_within;
use agent_move::Item;
use np_code::Code;
use np_syntax::{Event, Kind, Memory};
use site_links::Port;
use site_turn::{Seat, has_room};
use std::alloc::Global;

/// Whether an event of this kind is the coming of an item.
fn comes(kind: Kind) -> bool
    ensures { result ≡ not (by_atom kind) }
{
    match kind {
        Kind::Arrive | Kind::Land => true,
        _ => false,
    }
}

/// Whether the event's site is one of so many.
fn is_among(event: Event, sites: usize) -> bool
    ensures yes { result ≡ true → event.site < sites }
    ensures no { result ≡ false → sites ≤ event.site }
{
    (event.site as usize) < sites
}

/// The site does what the event does by the same marks, if it can, and tells whether it was this event, recorded with this stamp.
fn redo<R, P: Port<R, Item>>(
    _rt: &R,
    alloc: Global,
    code: &Code,
    seat: &mut Seat<P>,
    event: Event,
    stamp: u64,
) -> Result<bool, Memory>
    requires seated { Seated P.Port code.now seat.old }
    requires post { NoPost (ready_of event) }
    requires above { seat.old.site.clock < stamp }
    requires stamp { stamp ≤ STAMPS_END }
    ensures turned { TurnsBy P.Port code.now stamp seat.old seat.new }
    ensures port { (seat.new.port ≡ seat.old.port) × (seat.new.waits ≡ seat.old.waits) }
    ensures aside { seat.new.aside ≡ seat.old.aside }
    ensures ok { IfOk result (λ is. is ≡ true → Adds event stamp seat.old seat.new) }
    ensures why { IfOk result (λ is. is ≡ false → HasNotRedone code.now event stamp seat.old seat.new) }
{
    if !has_room::<R, P>(code, seat) {
        return Ok(false);
    }
    match seat.site.redo(alloc, code, event, stamp) {
        Ok(did) => Ok(did && is_last(seat, event, stamp)),
        Err(memory) => Err(memory),
    }
}

/// So does the site of the event.
fn redo_at<R, P: Port<R, Item>>(
    rt: &R,
    alloc: Global,
    code: &Code,
    _budget: u32,
    seats: &mut [Seat<P>],
    event: Event,
    stamp: u64,
) -> Result<bool, Memory>
    requires stand { Stand P.Port code.now _budget seats.old }
    requires at { event.site < length seats.old }
    requires post { NoPost (ready_of event) }
    requires above { (s : OneSeat P) → slice_get seats.old event.site ≡ Some s → s.site.clock < stamp }
    requires early { IsNotEarly (stamp - 1) seats.old }
    requires stamp { stamp ≤ STAMPS_END }
    ensures stand { Stand P.Port code.now _budget seats.new }
    ensures grow { AllGrow (histories seats.old) (histories seats.new) }
    ensures clear { AreClear P.Port seats.old → AreClear P.Port seats.new }
    ensures ok { IfOk result (λ is. is ≡ true → HaveAdded event stamp 0 seats.old seats.new) }
    ensures why { IfOk result (λ is. is ≡ false → HaveNotRedone code.now event stamp seats.old seats.new) }
{
    let at = event.site as usize;
    let done = redo(rt, alloc, code, &mut seats[at], event, stamp);
    let _ = count(&seats[at]);
    done
}

/// Does one event of a list after those before it, if the sites can. They do no posts.
fn redo_one<R, P: Port<R, Item>>(
    rt: &R,
    alloc: Global,
    code: &Code,
    budget: u32,
    seats: &mut [Seat<P>],
    events: &[Event],
    k: usize,
) -> Result<bool, Memory>
    requires done { HaveDone P.Port code.now budget (take k events.now) seats.old }
    requires clear { AreClear P.Port seats.old }
    requires at { k < length events.now }
    requires few { length events.now < 2 ^ 32 }
    ensures stand { Stand P.Port code.now budget seats.new }
    ensures grow { AllGrow (histories seats.old) (histories seats.new) }
    ensures ok { IfOk result (λ is. is ≡ true → HaveDone P.Port code.now budget (take (k + 1) events.now) seats.new) }
    ensures clear { IfOk result (λ is. is ≡ true → AreClear P.Port seats.new) }
    ensures why { IfOk result (λ is. is ≡ false → HaveMissedAt code.now events.now k seats.old seats.new) }
{
    let event = events[k];
    let stamp = k as u64 + 1;
    if !is_among(event, seats.len()) {
        return Ok(false);
    }
    if comes(event.kind) {
        bring(rt, code, budget, seats, event, stamp)
    } else if event.kind == Kind::Post {
        Ok(false)
    } else {
        redo_at(rt, alloc, code, budget, seats, event, stamp)
    }
}

/// Does the events of a list, the first of all, and tells whether the sites could do them all. Each clock is at the number of the
/// events then.
fn redo_all<R, P: Port<R, Item>>(
    rt: &R,
    alloc: Global,
    code: &Code,
    budget: u32,
    seats: &mut [Seat<P>],
    events: &[Event],
) -> Result<bool, Memory>
    requires stand { Stand P.Port code.now budget seats.old }
    requires none { event_count (histories seats.old) ≡ 0 }
    requires sound { NoneFailed seats.old }
    requires few { length events.now < 2 ^ 32 }
    ensures stand { Stand P.Port code.now budget seats.new }
    ensures grow { AllGrow (histories seats.old) (histories seats.new) }
    ensures done { IfOk result (λ all. all ≡ true → HaveDone P.Port code.now budget events.now seats.new) }
    ensures clocks { IfOk result (λ all. all ≡ true → AreAt (length events.now) seats.new) }
    ensures why { IfOk result (λ all. all ≡ false → StopsAt P.Port code.now budget events.now seats.new) }
{
    for k in 0..events.len() {
        if !redo_one(rt, alloc, code, budget, seats, events, k)? {
            return Ok(false);
        }
    }
    catch_all(rt, code, budget, seats, events.len() as u64);
    Ok(true)
}

/// So with a list of which nothing is known. It is not tried where a site has more events in it than the budget. The sites do all
/// events of a run that they make by themselves, within the budget.
pub fn redo_list<R, P: Port<R, Item>>(
    rt: &R,
    alloc: Global,
    code: &Code,
    budget: u32,
    seats: &mut [Seat<P>],
    events: &[Event],
) -> Result<bool, Memory>
    requires program { IsProgram code.now }
    requires safe { RunsSafely (program code.now) }
    requires stand { Stand P.Port code.now budget seats.old }
    requires none { event_count (histories seats.old) ≡ 0 }
    requires sound { NoneFailed seats.old }
    ensures stand { Stand P.Port code.now budget seats.new }
    ensures grow { AllGrow (histories seats.old) (histories seats.new) }
    ensures within { IfOk result (λ all. all ≡ true → AreWithin (length code.now.sites) budget events.now) }
    ensures done { IfOk result (λ all. all ≡ true → HaveDone P.Port code.now budget events.now seats.new) }
    ensures clocks { IfOk result (λ all. all ≡ true → AreAt (length events.now) seats.new) }
    ensures never { IfOk result (λ all. all ≡ false → IsToFollow (program code.now) budget events.now → ⊥) }
{
    if events.len() > u32::MAX as usize {
        return Ok(false);
    }
    if !are_within(events, code.sites(), budget) {
        return Ok(false);
    }
    redo_all(rt, alloc, code, budget, seats, events)
}
