//! How a site takes what comes to it.
ghost use Rattle.std.specs.Prelude.{◌≡◌, ◌↔◌, ◌<◌, true, false, length, None, IsTrue};
ghost use Rattle.site_state.specs.Doing.{HasRoom};
ghost use Rattle.site_turn.specs.Turns.{Accepts, MakesNone, MakesOne, Placed, Receives, ReceivesNone, Seated, SetsAside, Turned};

use crate::mail::Mail;
use crate::seat::Seat;
use crate::sending::is_site;
use crate::signs::Signs;
use agent_move::Item;
use np_code::Code;
use np_syntax::STAMPS_END;
use site_links::{Addressed, Port};

/// Whether there is room for one more event.
pub fn has_room<R, P: Port<R, Item>>(code: &Code, seat: &Seat<P>) -> bool
    requires { Placed P.Port code.now seat.now }
    ensures { IsTrue result ↔ HasRoom seat.now.site }
{
    seat.site.history().len() < seat.budget
}

/// Takes an item from the port and accepts it. False where none is there, where the site can accept none, or where the item
/// is set aside.
pub fn receive<R, P: Port<R, Item>>(rt: &R, code: &Code, seat: &mut Seat<P>) -> bool
    requires { Seated P.Port code.now seat.old }
    ensures turned { Turned P.Port code.now seat.old seat.new }
    ensures yes { result ≡ true → Receives P.Port code.now seat.old seat.new }
    ensures no { result ≡ false → ReceivesNone P.Port code.now seat.old seat.new }
{
    if seat.aside.is_some() || !has_room::<R, P>(code, seat) {
        return false;
    }
    match seat.port.take(rt) {
        Some(item) => admit(seat, item),
        None => false,
    }
}

/// Takes an item from the port, from this site if one is there, and accepts it. False where none is there, where the site can accept
/// none, or where the item is set aside.
pub fn receive_from<R, P: Port<R, Item>>(rt: &R, code: &Code, seat: &mut Seat<P>, from: u32) -> bool
    requires seated { Seated P.Port code.now seat.old }
    requires from { from < length code.now.sites }
    ensures turned { Turned P.Port code.now seat.old seat.new }
    ensures yes { result ≡ true → MakesOne seat.old.site seat.new.site }
    ensures no { result ≡ false → MakesNone code.now seat.old.site seat.new.site }
{
    if seat.aside.is_some() || !has_room::<R, P>(code, seat) {
        return false;
    }
    match seat.port.take_from(rt, from) {
        Some(item) => admit(seat, item),
        None => false,
    }
}

/// Takes an item from one of the sites that have put some, as far as is told, and accepts it. False where none is there, where the
/// site can accept none, or where the item is set aside.
pub fn receive_told<R, P: Port<R, Item>>(
    rt: &R,
    code: &Code,
    signs: &Signs,
    mail: &mut Mail,
    seat: &mut Seat<P>,
) -> bool
    requires { Seated P.Port code.now seat.old }
    ensures turned { Turned P.Port code.now seat.old seat.new }
    ensures yes { result ≡ true → MakesOne seat.old.site seat.new.site }
    ensures no { result ≡ false → MakesNone code.now seat.old.site seat.new.site }
{
    signs.collect(seat.site.number(), mail);
    for _ in 0..code.sites() {
        let Some(from) = mail.first() else {
            return false;
        };
        if !is_site(code, from) {
            return false;
        }
        if receive_from(rt, code, seat, from) {
            return true;
        }
        if seat.failed || seat.aside.is_some() {
            return false;
        }
        mail.strike(from);
    }
    false
}

/// Accepts an item, or sets it aside.
pub fn admit<P>(seat: &mut Seat<P>, item: Item) -> bool
    requires room { HasRoom seat.old.site }
    requires aside { seat.old.aside ≡ None }
    ensures yes { result ≡ true → Accepts seat.old item seat.new }
    ensures no { result ≡ false → SetsAside seat.old item seat.new }
{
    if item.to_site() != seat.site.number() || item.stamp() >= STAMPS_END {
        seat.aside = Some(item);
        return false;
    }
    match seat.site.accept(item) {
        Ok(()) => true,
        Err((item, _)) => {
            seat.aside = Some(item);
            seat.failed = true;
            false
        }
    }
}
