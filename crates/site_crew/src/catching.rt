//! Clocks that are caught up.
ghost use Rattle.std.specs.Prelude.{◌≡◌, ◌<◌, ◌≤◌, length, slice_get, Some};
ghost use Rattle.np_syntax.specs.declared.limits.TheConstants.{STAMPS_END};
ghost use Rattle.site_crew.specs.Bringing.{AllHoldSame};
ghost use Rattle.site_crew.specs.Following.{AllRest, AreLate, IsNotEarly};
ghost use Rattle.site_crew.specs.Seats.{Stand};
ghost use Rattle.site_turn.specs.declared.seat.Seat.{Seat as OneSeat};

use agent_move::Item;
use np_code::Code;
use site_links::Port;
use site_turn::Seat;

/// The clock of a site is at no less than this stamp then.
pub fn catch_at<R, P: Port<R, Item>>(
    _rt: &R,
    _code: &Code,
    _budget: u32,
    seats: &mut [Seat<P>],
    at: usize,
    stamp: u64,
)
    requires stand { Stand P.Port _code.now _budget seats.old }
    requires at { at < length seats.old }
    requires stamp { stamp ≤ STAMPS_END }
    requires early { IsNotEarly stamp seats.old }
    ensures stand { Stand P.Port _code.now _budget seats.new }
    ensures rest { AllRest stamp seats.old seats.new }
    ensures same { AllHoldSame seats.old seats.new }
    ensures there { (s : OneSeat P) → slice_get seats.new at ≡ Some s → stamp ≤ s.site.clock }
{
    seats[at].site.catch_up(stamp);
}

/// Each clock is at this stamp then, which none is above.
pub fn catch_all<R, P: Port<R, Item>>(
    rt: &R,
    code: &Code,
    budget: u32,
    seats: &mut [Seat<P>],
    stamp: u64,
)
    requires stand { Stand P.Port code.now budget seats.old }
    requires stamp { stamp ≤ STAMPS_END }
    requires early { IsNotEarly stamp seats.old }
    ensures stand { Stand P.Port code.now budget seats.new }
    ensures rest { AllRest stamp seats.old seats.new }
    ensures late { AreLate stamp seats.new }
{
    for at in 0..seats.len() {
        catch_at(rt, code, budget, seats, at, stamp);
    }
}
