//! How many events a crew has made.
ghost use Rattle.std.specs.Prelude.{◌≡◌, ◌≤◌, length};
ghost use Rattle.np_syntax.specs.declared.limits.TheConstants.{MOST_SITES};
ghost use Rattle.stamp_history.specs.Histories.{IsHistory};
ghost use Rattle.site_crew.specs.Seats.{AreWhole, event_count, histories};

use site_turn::Seat;

/// How many events all histories have.
pub fn events_of<P>(seats: &[Seat<P>]) -> u64
    requires { length seats.now ≤ MOST_SITES }
    ensures total { result ≡ event_count (histories seats.now) }
    ensures whole { AreWhole seats.now }
{
    let mut total = 0u64;
    for i in 0..seats.len() {
        total += u64::from(count(&seats[i]));
    }
    total
}

/// How many events a history has.
pub fn count<P>(seat: &Seat<P>) -> u32
    ensures count { result ≡ length seat.now.site.history.events }
    ensures history { IsHistory seat.now.site.history }
{
    seat.site.history().len()
}
