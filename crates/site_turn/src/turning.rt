//! A turn of a site.
ghost use Rattle.std.specs.Prelude.{◌≡◌, ◌≤◌, ◌+◌, true, false, length};
ghost use Rattle.site_turn.specs.Lengths.{most_events};
ghost use Rattle.site_turn.specs.Turns.{HadNothing, MakesNone, MakesOne, ReceivesNone, Seated, SendsAll, Steps, Turned};

use crate::effort::{Effort, most_events};
use crate::gate::Gate;
use crate::mail::Mail;
use crate::receiving::{receive, receive_told};
use crate::seat::Seat;
use crate::sending::{send, send_new};
use crate::signs::Signs;
use agent_move::Item;
use np_code::Code;
use site_links::Port;
use site_state::Stepped;
use std::alloc::Global;

/// At every which event of a turn a site that has events of its own to do looks at the links to it.
const POLL: u32 = 16;

/// A turn of at most as many events as this effort allows, which ends where the site finds nothing to do by it. Where memory runs
/// out the seat says so.
pub fn turn<R, P: Port<R, Item>, G: Gate>(
    rt: &R,
    alloc: Global,
    code: &Code,
    gate: &G,
    signs: &Signs,
    effort: Effort,
    seat: &mut Seat<P>,
)
    requires { Seated P.Port code.now seat.old }
    ensures turned { Turned P.Port code.now seat.old seat.new }
    ensures most { length seat.new.site.history.events ≤ length seat.old.site.history.events + most_events effort.most }
    ensures idle { seat.new.site.history.events ≡ seat.old.site.history.events → HadNothing P.Port code.now effort.walks seat.old seat.new }
    ensures sends { seat.new.site.history.events ≡ seat.old.site.history.events → seat.new.failed ≡ false
        → SendsAll P.Port code.now seat.old seat.new }
    ensures failed { seat.old.failed ≡ true → seat.new ≡ seat.old }
{
    take_turn(rt, alloc, code, gate, signs, effort, seat);
    signs.end(seat.site.number());
}

/// The turn, where memory has not run out before.
fn take_turn<R, P: Port<R, Item>, G: Gate>(
    rt: &R,
    alloc: Global,
    code: &Code,
    gate: &G,
    signs: &Signs,
    effort: Effort,
    seat: &mut Seat<P>,
)
    requires { Seated P.Port code.now seat.old }
    ensures turned { Turned P.Port code.now seat.old seat.new }
    ensures most { length seat.new.site.history.events ≤ length seat.old.site.history.events + most_events effort.most }
    ensures idle { seat.new.site.history.events ≡ seat.old.site.history.events → HadNothing P.Port code.now effort.walks seat.old seat.new }
    ensures sends { seat.new.site.history.events ≡ seat.old.site.history.events → seat.new.failed ≡ false
        → SendsAll P.Port code.now seat.old seat.new }
    ensures failed { seat.old.failed ≡ true → seat.new ≡ seat.old }
{
    if !seat.failed {
        events(rt, alloc, code, gate, signs, effort, seat);
    }
}

/// The events of a turn.
#[tactic(auto, using(crate::proofs::Steps::turned_trans, crate::proofs::Steps::turned_refl, crate::proofs::Steps::seated_after))]
fn events<R, P: Port<R, Item>, G: Gate>(
    rt: &R,
    alloc: Global,
    code: &Code,
    gate: &G,
    signs: &Signs,
    effort: Effort,
    seat: &mut Seat<P>,
)
    requires { Seated P.Port code.now seat.old }
    ensures turned { Turned P.Port code.now seat.old seat.new }
    ensures most { length seat.new.site.history.events ≤ length seat.old.site.history.events + most_events effort.most }
    ensures idle { seat.new.site.history.events ≡ seat.old.site.history.events → HadNothing P.Port code.now effort.walks seat.old seat.new }
    ensures sends { seat.new.site.history.events ≡ seat.old.site.history.events → seat.new.failed ≡ false
        → SendsAll P.Port code.now seat.old seat.new }
{
    send(rt, code, signs, seat);
    let mut mail = mail_of(code.sites(), seat.waits);
    for number in 0..most_events(effort.most) {
        if !event(rt, alloc, code, signs, &mut mail, effort, number, seat) {
            return;
        }
        gate.event(seat.site.number(), seat.site.history().len());
        send_new(rt, code, signs, seat);
    }
}

/// What is told at the begin of a turn: where anything waits it may be from any site.
fn mail_of(sites: u32, waits: bool) -> Mail {
    if waits {
        Mail::of_all(sites)
    } else {
        Mail::of_none()
    }
}

/// One event, if by this effort one is found. At every sixteenth what comes goes before what the site does of its own, and at the
/// first of a turn all links are looked at.
#[tactic(auto, using(crate::proofs::Steps::turned_trans, crate::proofs::Steps::turned_refl, crate::proofs::Steps::seated_after))]
fn event<R, P: Port<R, Item>>(
    rt: &R,
    alloc: Global,
    code: &Code,
    signs: &Signs,
    mail: &mut Mail,
    effort: Effort,
    number: u32,
    seat: &mut Seat<P>,
) -> bool
    requires { Seated P.Port code.now seat.old }
    ensures turned { Turned P.Port code.now seat.old seat.new }
    ensures yes { result ≡ true → MakesOne seat.old.site seat.new.site }
    ensures no { result ≡ false → MakesNone code.now seat.old.site seat.new.site }
    ensures idle { number ≡ 0 → result ≡ false → HadNothing P.Port code.now effort.walks seat.old seat.new }
{
    if poll(rt, code, signs, mail, number, seat) {
        return true;
    }
    if seat.failed || seat.aside.is_some() {
        return false;
    }
    match step(rt, alloc, code, effort, seat) {
        Stepped::Did => true,
        Stepped::Quiet => look(rt, code, signs, mail, effort.looks, seat),
        Stepped::Spent => false,
    }
}

/// Takes an item and accepts it, if it is time for that and one is there.
fn poll<R, P: Port<R, Item>>(
    rt: &R,
    code: &Code,
    signs: &Signs,
    mail: &mut Mail,
    number: u32,
    seat: &mut Seat<P>,
) -> bool
    requires { Seated P.Port code.now seat.old }
    ensures turned { Turned P.Port code.now seat.old seat.new }
    ensures yes { result ≡ true → MakesOne seat.old.site seat.new.site }
    ensures no { result ≡ false → MakesNone code.now seat.old.site seat.new.site }
    ensures first { number ≡ 0 → result ≡ false → ReceivesNone P.Port code.now seat.old seat.new }
{
    if number == 0 {
        return receive(rt, code, seat);
    }
    poll_later(rt, code, signs, mail, number, seat)
}

/// The same after the first event of a turn: at every sixteenth.
fn poll_later<R, P: Port<R, Item>>(
    rt: &R,
    code: &Code,
    signs: &Signs,
    mail: &mut Mail,
    number: u32,
    seat: &mut Seat<P>,
) -> bool
    requires { Seated P.Port code.now seat.old }
    ensures turned { Turned P.Port code.now seat.old seat.new }
    ensures yes { result ≡ true → MakesOne seat.old.site seat.new.site }
    ensures no { result ≡ false → MakesNone code.now seat.old.site seat.new.site }
{
    if number % POLL > 0 {
        return false;
    }
    catch_up(rt, code, signs, mail, seat)
}

/// Settles the link of the site to itself, puts out what is left, and takes an item and accepts it, if one is told to be there.
fn catch_up<R, P: Port<R, Item>>(
    rt: &R,
    code: &Code,
    signs: &Signs,
    mail: &mut Mail,
    seat: &mut Seat<P>,
) -> bool
    requires { Seated P.Port code.now seat.old }
    ensures turned { Turned P.Port code.now seat.old seat.new }
    ensures yes { result ≡ true → MakesOne seat.old.site seat.new.site }
    ensures no { result ≡ false → MakesNone code.now seat.old.site seat.new.site }
{
    settle_self(rt, code, mail, seat);
    send(rt, code, signs, seat);
    receive_told(rt, code, signs, mail, seat)
}

/// Settles the link of the site to itself.
fn settle_self<R, P: Port<R, Item>>(rt: &R, _code: &Code, mail: &mut Mail, seat: &mut Seat<P>)
    requires { Seated P.Port _code.now seat.old }
    ensures turned { Turned P.Port _code.now seat.old seat.new }
    ensures none { MakesNone _code.now seat.old.site seat.new.site }
{
    let waiting = seat.port.settle_own(rt);
    mail.note_some(seat.site.number(), waiting);
}

/// An event of the site's own, if by this effort one is found.
fn step<R, P: Port<R, Item>>(
    rt: &R,
    alloc: Global,
    code: &Code,
    effort: Effort,
    seat: &mut Seat<P>,
) -> Stepped
    requires { Seated P.Port code.now seat.old }
    ensures turned { Turned P.Port code.now seat.old seat.new }
    ensures stepped { Steps code.now effort.walks seat.old seat.new result }
    ensures apart { (seat.new.port ≡ seat.old.port) × (seat.new.aside ≡ seat.old.aside) }
{
    if effort.walks {
        step_surely(rt, alloc, code, seat)
    } else {
        step_likely(rt, alloc, code, seat)
    }
}

/// An event of the site's own, if one is possible.
fn step_surely<R, P: Port<R, Item>>(
    _rt: &R,
    alloc: Global,
    code: &Code,
    seat: &mut Seat<P>,
) -> Stepped
    requires { Seated P.Port code.now seat.old }
    ensures turned { Turned P.Port code.now seat.old seat.new }
    ensures stepped { Steps code.now true seat.old seat.new result }
    ensures apart { (seat.new.port ≡ seat.old.port) × (seat.new.aside ≡ seat.old.aside) }
{
    match seat.site.step(alloc, code) {
        Ok(stepped) => stepped,
        Err(_) => {
            seat.failed = true;
            Stepped::Spent
        }
    }
}

/// An event of the site's own, if an index tells one.
fn step_likely<R, P: Port<R, Item>>(
    _rt: &R,
    alloc: Global,
    code: &Code,
    seat: &mut Seat<P>,
) -> Stepped
    requires { Seated P.Port code.now seat.old }
    ensures turned { Turned P.Port code.now seat.old seat.new }
    ensures stepped { Steps code.now false seat.old seat.new result }
    ensures apart { (seat.new.port ≡ seat.old.port) × (seat.new.aside ≡ seat.old.aside) }
{
    match seat.site.step_likely(alloc, code) {
        Ok(stepped) => stepped,
        Err(_) => {
            seat.failed = true;
            Stepped::Spent
        }
    }
}

/// Looks for what comes before a turn ends quiet. A site that finds something is at work again.
fn look<R, P: Port<R, Item>>(
    rt: &R,
    code: &Code,
    signs: &Signs,
    mail: &mut Mail,
    looks: u32,
    seat: &mut Seat<P>,
) -> bool
    requires { Seated P.Port code.now seat.old }
    ensures turned { Turned P.Port code.now seat.old seat.new }
    ensures yes { result ≡ true → MakesOne seat.old.site seat.new.site }
    ensures no { result ≡ false → MakesNone code.now seat.old.site seat.new.site }
{
    let found = find(rt, code, signs, mail, looks, seat);
    signs.rise_if(seat.site.number(), found);
    found
}

/// Looks at what is told, then waits for more while another site is at work, and looks once at all links at the end.
fn find<R, P: Port<R, Item>>(
    rt: &R,
    code: &Code,
    signs: &Signs,
    mail: &mut Mail,
    looks: u32,
    seat: &mut Seat<P>,
) -> bool
    requires { Seated P.Port code.now seat.old }
    ensures turned { Turned P.Port code.now seat.old seat.new }
    ensures yes { result ≡ true → MakesOne seat.old.site seat.new.site }
    ensures no { result ≡ false → MakesNone code.now seat.old.site seat.new.site }
{
    if catch_up(rt, code, signs, mail, seat) {
        return true;
    }
    if look_often(rt, code, signs, mail, looks, seat) {
        return true;
    }
    receive(rt, code, seat)
}

/// Looks so often whether something was put for the site, while another is at work, and lets others run between two looks.
fn look_often<R, P: Port<R, Item>>(
    rt: &R,
    code: &Code,
    signs: &Signs,
    mail: &mut Mail,
    looks: u32,
    seat: &mut Seat<P>,
) -> bool
    requires { Seated P.Port code.now seat.old }
    ensures turned { Turned P.Port code.now seat.old seat.new }
    ensures yes { result ≡ true → MakesOne seat.old.site seat.new.site }
    ensures no { result ≡ false → MakesNone code.now seat.old.site seat.new.site }
{
    for _ in 0..looks {
        if seat.failed || seat.aside.is_some() || !signs.pause(seat.site.number()) {
            return false;
        }
        if receive_told(rt, code, signs, mail, seat) {
            return true;
        }
    }
    false
}
