//! An item that comes to a site again: it goes from the line of its sender over the link, and is accepted.
ghost use Rattle.std.specs.Prelude.{◌≡◌, ◌<◌, ◌≤◌, ◌-◌, ◌⊎◌, ℕ, true, false, [], length, slice_get, Some, IfOk, MatchOption};
ghost use Rattle.np_syntax.specs.declared.limits.TheConstants.{STAMPS_END};
ghost use Rattle.item_events.specs.Coming.{event_for};
ghost use Rattle.site_state.specs.Lines.{queue_at};
ghost use Rattle.site_crew.specs.Bringing.{AreClear, HasDue, HasNotBrought, HasNotTaken, HasSent, HasTakenOne, HaveSent, IsDueFrom, IsLast};
ghost use Rattle.site_crew.specs.Bringing.{NoneIsDue, OneGoesOn};
ghost use Rattle.site_crew.specs.Following.{Adds, AllRest, HaveAdded, IsNotEarly, Moves, Rests, StandBut};
ghost use Rattle.site_crew.specs.Seats.{AllGrow, Stand, histories};
ghost use Rattle.site_turn.specs.declared.seat.Seat.{Seat as OneSeat};
ghost use Rattle.site_turn.specs.Turns.{Seated};

use crate::catching::catch_at;
use crate::counting::count;
use crate::settling::{settle_pair, settle_to};
use agent_move::Item;
use item_events::event_for;
use np_code::Code;
use np_syntax::{Event, Memory};
use site_links::Port;
use site_turn::{Seat, admit, has_room};

/// Whether an item comes by the event.
fn brings(item: &Item, event: Event) -> bool
    ensures yes { result ≡ true → event_for event.site item.now.load ≡ event }
    ensures no { result ≡ false → event_for event.site item.now.load ≡ event → ⊥ }
{
    event_for(event.site, item.load()) == event
}

/// Whether the first item that a site has for the event's site comes by the event.
fn has_due<P>(seat: &Seat<P>, event: Event) -> bool
    ensures yes { result ≡ true → HasDue event seat.now }
    ensures no { result ≡ false → HasDue event seat.now → ⊥ }
{
    match seat.site.first_out(event.site) {
        Some(item) => brings(item, event),
        None => false,
    }
}

/// The site from whose line for the event's site an item comes first by the event.
fn sender_of<P>(seats: &[Seat<P>], event: Event) -> Option<usize>
    ensures { MatchOption result (NoneIsDue event seats.now) (λ from. IsDueFrom event from seats.now) }
{
    for from in 0..seats.len() {
        if has_due(&seats[from], event) {
            return Some(from);
        }
    }
    None
}

/// Puts the first item for a site on its link, if there is room.
fn put_first<R, P: Port<R, Item>>(rt: &R, _code: &Code, seat: &mut Seat<P>, to: u32) -> bool
    requires seated { Seated P.Port _code.now seat.old }
    requires to { to < length _code.now.sites }
    ensures moves { (i : ℕ) → Moves P.Port _code.now i to seat.old seat.new }
    ensures rests { Rests 0 seat.old seat.new }
    ensures yes { result ≡ true → HasSent P.Port to seat.old seat.new }
    ensures no { result ≡ false → (queue_at seat.old.site.outgoing to ≡ []) ⊎ (P.Port.room seat.old.port to ≡ 0) }
{
    match seat.site.next_out(to) {
        Some(item) => match seat.port.put(rt, to, item) {
            Ok(()) => true,
            Err(item) => {
                seat.site.give_back(item);
                false
            }
        },
        None => false,
    }
}

/// Puts the first item that a site has for another on its link, and settles the links to that one, so that it is there whatever the
/// link is.
fn send_from<R, P: Port<R, Item>>(
    rt: &R,
    code: &Code,
    _budget: u32,
    seats: &mut [Seat<P>],
    from: usize,
    to: u32,
) -> bool
    requires stand { Stand P.Port code.now _budget seats.old }
    requires from { from < length seats.old }
    requires to { to < length seats.old }
    ensures stand { Stand P.Port code.now _budget seats.new }
    ensures rest { AllRest 0 seats.old seats.new }
    ensures yes { result ≡ true → HaveSent P.Port from to seats.old seats.new }
    ensures no { result ≡ false → AreClear P.Port seats.old → (s : OneSeat P) → slice_get seats.old from ≡ Some s
        → queue_at s.site.outgoing to ≡ [] }
{
    settle_pair(rt, seats, from, to as usize);
    let sent = put_first(rt, code, &mut seats[from], to);
    settle_to(rt, seats, to as usize);
    sent
}

/// Whether the last event of a site is this one, with this stamp.
pub fn is_last<P>(seat: &Seat<P>, event: Event, stamp: u64) -> bool
    ensures yes { result ≡ true → IsLast seat.now.site.history.events (record { stamp = stamp; event = event }) }
    ensures no { result ≡ false → IsLast seat.now.site.history.events (record { stamp = stamp; event = event }) → ⊥ }
{
    let events = seat.site.history().events();
    let n = events.len();
    if n == 0 {
        return false;
    }
    let last = events[n - 1];
    if last.stamp != stamp {
        return false;
    }
    last.event == event
}

/// Takes an item that comes, and tells whether this was the event, recorded with this stamp.
fn take_for<R, P: Port<R, Item>>(
    rt: &R,
    code: &Code,
    seat: &mut Seat<P>,
    event: Event,
    stamp: u64,
) -> Result<bool, Memory>
    requires { Seated P.Port code.now seat.old }
    ensures moves { (i : ℕ) → Moves P.Port code.now i i seat.old seat.new }
    ensures yes { IfOk result (λ did. did ≡ true → Adds event stamp seat.old seat.new) }
    ensures got { IfOk result (λ did. did ≡ true → HasTakenOne P.Port seat.old seat.new) }
    ensures no { IfOk result (λ did. did ≡ false → HasNotTaken P.Port event stamp seat.old seat.new) }
{
    if seat.aside.is_some() {
        return Ok(false);
    }
    if !has_room::<R, P>(code, seat) {
        return Ok(false);
    }
    match seat.port.take(rt) {
        Some(item) => {
            let accepted = admit(seat, item);
            if seat.failed {
                return Err(Memory);
            }
            if !accepted {
                return Ok(false);
            }
            Ok(is_last(seat, event, stamp))
        }
        None => Ok(false),
    }
}

/// The site of an event takes an item that comes, and tells whether this was the event.
fn take_at<R, P: Port<R, Item>>(
    rt: &R,
    code: &Code,
    _budget: u32,
    seats: &mut [Seat<P>],
    event: Event,
    stamp: u64,
) -> Result<bool, Memory>
    requires stand { StandBut P.Port code.now _budget event.site seats.old }
    requires at { event.site < length seats.old }
    ensures stand { StandBut P.Port code.now _budget event.site seats.new }
    ensures grow { AllGrow (histories seats.old) (histories seats.new) }
    ensures count { length seats.new ≡ length seats.old }
    ensures yes { IfOk result (λ did. did ≡ true → HaveAdded event stamp 0 seats.old seats.new) }
    ensures got { IfOk result (λ did. did ≡ true → OneGoesOn P.Port event.site seats.old seats.new (HasTakenOne P.Port)) }
    ensures no { IfOk result (λ did. did ≡ false → OneGoesOn P.Port event.site seats.old seats.new (HasNotTaken P.Port event stamp)) }
{
    let at = event.site as usize;
    let took = take_for(rt, code, &mut seats[at], event, stamp);
    let _ = count(&seats[at]);
    took
}

/// The item that comes first by the event in the line of a site goes on its link, and the site of the event takes it, and records the
/// event with this stamp.
fn bring_from<R, P: Port<R, Item>>(
    rt: &R,
    code: &Code,
    budget: u32,
    seats: &mut [Seat<P>],
    from: usize,
    event: Event,
    stamp: u64,
) -> Result<bool, Memory>
    requires stand { Stand P.Port code.now budget seats.old }
    requires at { event.site < length seats.old }
    requires due { IsDueFrom event from seats.old }
    requires stamp { (1 ≤ stamp) × (stamp ≤ STAMPS_END) }
    requires early { IsNotEarly (stamp - 1) seats.old }
    requires clocks { (i : ℕ) (s : OneSeat P) → slice_get seats.old i ≡ Some s → s.site.clock ≤ stamp - 1 }
    requires clear { AreClear P.Port seats.old }
    ensures stand { Stand P.Port code.now budget seats.new }
    ensures grow { AllGrow (histories seats.old) (histories seats.new) }
    ensures yes { IfOk result (λ did. did ≡ true → HaveAdded event stamp (stamp - 1) seats.old seats.new) }
    ensures clear { IfOk result (λ did. did ≡ true → AreClear P.Port seats.new) }
    ensures no { IfOk result (λ did. did ≡ false → HasNotBrought event seats.old) }
{
    let at = event.site as usize;
    catch_at(rt, code, budget, seats, at, stamp - 1);
    let sent = send_from(rt, code, budget, seats, from, event.site);
    if !sent {
        return Ok(false);
    }
    let took = take_at(rt, code, budget, seats, event, stamp);
    settle_to(rt, seats, at);
    took
}

/// The item that comes by the event goes on its link, and the site of the event takes it, and records the event with this stamp. False
/// where it is the first in no line for the site, or where there is no room for the event.
pub fn bring<R, P: Port<R, Item>>(
    rt: &R,
    code: &Code,
    budget: u32,
    seats: &mut [Seat<P>],
    event: Event,
    stamp: u64,
) -> Result<bool, Memory>
    requires stand { Stand P.Port code.now budget seats.old }
    requires at { event.site < length seats.old }
    requires stamp { (1 ≤ stamp) × (stamp ≤ STAMPS_END) }
    requires early { IsNotEarly (stamp - 1) seats.old }
    requires clocks { (i : ℕ) (s : OneSeat P) → slice_get seats.old i ≡ Some s → s.site.clock ≤ stamp - 1 }
    requires clear { AreClear P.Port seats.old }
    ensures stand { Stand P.Port code.now budget seats.new }
    ensures grow { AllGrow (histories seats.old) (histories seats.new) }
    ensures yes { IfOk result (λ did. did ≡ true → HaveAdded event stamp (stamp - 1) seats.old seats.new) }
    ensures clear { IfOk result (λ did. did ≡ true → AreClear P.Port seats.new) }
    ensures no { IfOk result (λ did. did ≡ false → HasNotBrought event seats.old) }
{
    match sender_of(seats, event) {
        Some(from) => bring_from(rt, code, budget, seats, from, event, stamp),
        None => Ok(false),
    }
}
