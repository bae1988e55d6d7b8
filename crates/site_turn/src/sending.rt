//! How a site puts out what is for others.
ghost use Rattle.std.specs.Prelude.{ℕ, ◌≡◌, ◌≢◌, ◌<◌, ◌↔◌, IsTrue, true, false, length};
ghost use Rattle.site_turn.specs.Turns.{HasPut, LeavesLink, OnlySends, Seated, Sends, SendsAll, SendsFor, SendsNone, Turned};

use crate::seat::Seat;
use crate::signs::Signs;
use agent_move::Item;
use np_code::Code;
use np_syntax::Kind;
use site_links::{PLACES, Port};
use site_state::Site;

/// Puts what is outgoing on the links, as far as there is room. It goes by the sites for which something may be outgoing.
#[tactic(auto, using(crate::proofs::Steps::turned_refl))]
pub fn send<R, P: Port<R, Item>>(rt: &R, code: &Code, signs: &Signs, seat: &mut Seat<P>)
    requires { Seated P.Port code.now seat.old }
    ensures turned { Turned P.Port code.now seat.old seat.new }
    ensures only { OnlySends P.Port code.now seat.old seat.new }
    ensures all { SendsAll P.Port code.now seat.old seat.new }
{
    let count = code.sites();
    let mut from = 0;
    while from < count {
        let Some(to) = seat.site.next_for(from) else {
            return;
        };
        send_to(rt, code, signs, seat, to);
        from = to + 1;
    }
}

/// Puts what is outgoing for a site on its link, as far as there is room.
#[tactic(auto, using(crate::proofs::Steps::turned_refl))]
fn send_to<R, P: Port<R, Item>>(rt: &R, code: &Code, signs: &Signs, seat: &mut Seat<P>, to: u32)
    requires seated { Seated P.Port code.now seat.old }
    requires to { to < length code.now.sites }
    ensures turned { Turned P.Port code.now seat.old seat.new }
    ensures only { OnlySends P.Port code.now seat.old seat.new }
    ensures most { SendsFor P.Port code.now to seat.old seat.new }
    ensures others { (k : ℕ) → k ≢ to → LeavesLink P.Port code.now k seat.old seat.new }
{
    for number in 0..PLACES {
        if !send_one(rt, code, signs, seat, to) {
            return;
        }
    }
}

/// Puts the first item for a site on its link. False where none is outgoing, or where there is no room.
fn send_one<R, P: Port<R, Item>>(
    rt: &R,
    _code: &Code,
    signs: &Signs,
    seat: &mut Seat<P>,
    to: u32,
) -> bool
    requires seated { Seated P.Port _code.now seat.old }
    requires to { to < length _code.now.sites }
    ensures turned { Turned P.Port _code.now seat.old seat.new }
    ensures only { OnlySends P.Port _code.now seat.old seat.new }
    ensures yes { result ≡ true → Sends P.Port _code.now to seat.old seat.new }
    ensures no { result ≡ false → SendsNone P.Port _code.now to seat.old seat.new }
{
    if seat.site.has_none_for(to) {
        return false;
    }
    put_first(rt, _code, signs, seat, to)
}

/// The same where an item may be outgoing. It stands by itself since a function pays at its entry for the items that it may hold, and
/// for most sites none is outgoing.
fn put_first<R, P: Port<R, Item>>(
    rt: &R,
    _code: &Code,
    signs: &Signs,
    seat: &mut Seat<P>,
    to: u32,
) -> bool
    requires seated { Seated P.Port _code.now seat.old }
    requires to { to < length _code.now.sites }
    ensures turned { Turned P.Port _code.now seat.old seat.new }
    ensures only { OnlySends P.Port _code.now seat.old seat.new }
    ensures yes { result ≡ true → Sends P.Port _code.now to seat.old seat.new }
    ensures no { result ≡ false → SendsNone P.Port _code.now to seat.old seat.new }
{
    match seat.site.next_out(to) {
        Some(item) => match seat.port.put(rt, to, item) {
            Ok(()) => {
                tell::<R, P>(signs, seat.site.number(), to);
                true
            }
            Err(item) => {
                seat.site.give_back(item);
                false
            }
        },
        None => false,
    }
}

/// Tells a site that another has put something for it, where that may be taken at once.
fn tell<R, P: Port<R, Item>>(signs: &Signs, from: u32, to: u32) {
    if P::is_live() {
        signs.tell(from, to);
    }
}

/// Puts what is outgoing for one site on its link, if the last event put an item out: for the site that this item is for. Others may
/// have some for which there was no room; `send` comes to them.
#[tactic(auto, using(crate::proofs::Steps::turned_refl))]
pub fn send_new<R, P: Port<R, Item>>(rt: &R, code: &Code, signs: &Signs, seat: &mut Seat<P>)
    requires { Seated P.Port code.now seat.old }
    ensures turned { Turned P.Port code.now seat.old seat.new }
    ensures only { OnlySends P.Port code.now seat.old seat.new }
{
    if has_put(&seat.site) {
        send_last(rt, code, signs, seat);
    }
}

/// Whether this is the number of a site.
pub fn is_site(code: &Code, number: u32) -> bool
    ensures { result ≡ true → number < length code.now.sites }
{
    number < code.sites()
}

/// Puts what is outgoing on the link to the site for which an item came last.
#[tactic(auto, using(crate::proofs::Steps::turned_refl))]
fn send_last<R, P: Port<R, Item>>(rt: &R, code: &Code, signs: &Signs, seat: &mut Seat<P>)
    requires { Seated P.Port code.now seat.old }
    ensures turned { Turned P.Port code.now seat.old seat.new }
    ensures only { OnlySends P.Port code.now seat.old seat.new }
{
    let to = seat.site.last_for();
    if is_site(code, to) {
        send_to(rt, code, signs, seat, to);
    }
}

/// Whether the last event of a site put an item out.
fn has_put(site: &Site) -> bool
    ensures { IsTrue result ↔ HasPut site.now }
{
    match site.history().events().last() {
        Some(last) => matches!(last.event.kind, Kind::Depart | Kind::Send),
        None => false,
    }
}
