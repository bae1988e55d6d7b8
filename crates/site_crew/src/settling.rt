//! Once no thread has the ports, the links are settled.
ghost use Rattle.std.specs.Prelude.{◌<◌, length};
ghost use Rattle.site_crew.specs.Bringing.{IsFree};
ghost use Rattle.site_crew.specs.Links.{AllStill, AreLinked, AreSettled, AreSettledIn, IsOneMore, IsPairSettled};

use agent_move::Item;
use site_links::Port;
use site_turn::Seat;

/// Settles all links. Each seat tells then whether something waits for it.
pub fn settle_all<R, P: Port<R, Item>>(rt: &R, seats: &mut [Seat<P>])
    requires { AreLinked P.Port seats.old }
    ensures still { AllStill P.Port seats.old seats.new }
    ensures settled { AreSettled P.Port seats.new }
{
    for to in 0..seats.len() {
        settle_to(rt, seats, to);
    }
}

/// Settles the links to one site from all. Its seat tells then whether something waits for it.
pub fn settle_to<R, P: Port<R, Item>>(rt: &R, seats: &mut [Seat<P>], to: usize)
    requires linked { AreLinked P.Port seats.old }
    requires to { to < length seats.old }
    ensures { AreSettledIn P.Port to seats.old seats.new }
{
    let mut waits = false;
    for from in 0..seats.len() {
        waits = settle_more(rt, seats, from, to, waits);
    }
    seats[to].waits = waits;
}

/// Settles the link from one site to another, and tells whether something waits there, or on those before.
fn settle_more<R, P: Port<R, Item>>(
    rt: &R,
    seats: &mut [Seat<P>],
    from: usize,
    to: usize,
    waits: bool,
) -> bool
    requires linked { AreLinked P.Port seats.old }
    requires places { (from < length seats.old) × (to < length seats.old) }
    ensures { IsOneMore P.Port from to seats.old seats.new waits result }
{
    let waiting = settle_pair(rt, seats, from, to);
    if waiting == 0 { waits } else { true }
}

/// Settles the link from one site to another, or to itself, and tells how many items wait on it.
pub fn settle_pair<R, P: Port<R, Item>>(
    rt: &R,
    seats: &mut [Seat<P>],
    from: usize,
    to: usize,
) -> usize
    requires linked { AreLinked P.Port seats.old }
    requires places { (from < length seats.old) × (to < length seats.old) }
    ensures settled { IsPairSettled P.Port from to seats.old seats.new result }
    ensures free { IsFree P.Port seats.new from to }
{
    if from == to {
        seats[from].port.settle_own(rt)
    } else if from < to {
        let (left, right) = seats.split_at_mut(to);
        left[from].port.settle(rt, &mut right[0].port)
    } else {
        let (left, right) = seats.split_at_mut(from);
        right[0].port.settle(rt, &mut left[to].port)
    }
}
