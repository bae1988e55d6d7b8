//! The turns of a round.
ghost use Rattle.std.specs.Prelude.{All};
ghost use Rattle.site_crew.specs.Seats.{AllTookTurns};
ghost use Rattle.site_turn.specs.Turns.{Seated, TookTurn};

use agent_move::Item;
use np_code::Code;
use site_links::Port;
use site_turn::{Effort, Free, Gate, Length, Seat, Signs, turn};
use std::alloc::Global;
use std::thread;
use std::thread::Threads;

/// How often a site on a thread of its own looks whether something was put for it, while another is at work, before its turn ends
/// quiet: on idle processors for half a millisecond, some hundred events of another site.
const LOOKS: u32 = 1_000;

/// How often a site looks over this kind of links.
fn looks_over<R, P: Port<R, Item>>() -> u32 {
    if P::is_live() { LOOKS } else { 0 }
}

/// Each site takes its turn on a thread of its own. Where it `walks`, it misses nothing that its agents can do.
pub fn threads_turns<R: Threads + Sync, P: Port<R, Item>, G: Gate>(
    rt: &R,
    alloc: Global,
    code: &Code,
    gate: &G,
    signs: &Signs,
    most: Length,
    walks: bool,
    seats: &mut [Seat<P>],
)
    requires { All (λ s. Seated P.Port code.now s) seats.old }
    ensures { AllTookTurns P.Port code.now walks seats.old seats.new }
{
    let effort = Effort {
        most,
        looks: looks_over::<R, P>(),
        walks,
    };
    signs.begin();
    let threads = seats.len().max(1);
    thread::for_each_mut(
        rt,
        seats,
        threads,
        &|_, seat: &mut Seat<P>|
            requires { Seated P.Port code.now seat.old }
            ensures { TookTurn P.Port code.entry.now effort.walks seat.old seat.new }
        { turn(rt, alloc, code, gate, signs, effort, seat) },
    );
}

/// The sites take their turns one after another, in the same way.
pub fn serial_turns<R, P: Port<R, Item>>(
    rt: &R,
    alloc: Global,
    code: &Code,
    signs: &Signs,
    most: Length,
    walks: bool,
    seats: &mut [Seat<P>],
)
    requires { All (λ s. Seated P.Port code.now s) seats.old }
    ensures { AllTookTurns P.Port code.now walks seats.old seats.new }
{
    let effort = Effort {
        most,
        looks: 0,
        walks,
    };
    signs.begin();
    for i in 0..seats.len() {
        turn(rt, alloc, code, &Free, signs, effort, &mut seats[i]);
    }
}
