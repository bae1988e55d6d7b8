//! Whether nothing is left to do.
ghost use Rattle.std.specs.Prelude.{◌≡◌, ◌≤◌, ◌<◌, true, false, length};
ghost use Rattle.np_syntax.specs.declared.limits.TheConstants.{MOST_SITES};
ghost use Rattle.crew_ends.specs.Quiet.{AllQuiet, AreOver, IsOver, IsQuietSeat, IsResting, NoneSends};

use np_code::Code;
use site_turn::Seat;

/// Whether no site has anything left to do.
pub fn all_quiet<P>(code: &Code, seats: &[Seat<P>]) -> bool
    ensures yes { result ≡ true → AllQuiet code.now seats.now }
    ensures no { result ≡ false → AllQuiet code.now seats.now → ⊥ }
{
    for i in 0..seats.len() {
        if !is_quiet(code, &seats[i]) {
            return false;
        }
    }
    true
}

/// Whether a site has nothing left to do.
fn is_quiet<P>(code: &Code, seat: &Seat<P>) -> bool
    ensures yes { result ≡ true → IsQuietSeat code.now seat.now }
    ensures no { result ≡ false → IsQuietSeat code.now seat.now → ⊥ }
{
    if !is_resting(code, seat) {
        return false;
    }
    seat.site.all_sent()
}

/// Whether each site that has made fewer events than the budget can do nothing.
pub fn are_over<P>(code: &Code, budget: u32, seats: &[Seat<P>]) -> bool
    requires { length seats.now ≤ MOST_SITES }
    ensures yes { result ≡ true → AreOver code.now budget seats.now }
    ensures no { result ≡ false → AreOver code.now budget seats.now → ⊥ }
{
    for i in 0..seats.len() {
        if !is_over(code, budget, seats, i) {
            return false;
        }
    }
    true
}

/// Whether the site in a place has made as many events as the budget, or can do nothing.
fn is_over<P>(code: &Code, budget: u32, seats: &[Seat<P>], i: usize) -> bool
    requires few { length seats.now ≤ MOST_SITES }
    requires place { i < length seats.now }
    ensures yes { result ≡ true → IsOver code.now budget seats.now i }
    ensures no { result ≡ false → IsOver code.now budget seats.now i → ⊥ }
{
    if seats[i].site.history().len() >= budget {
        return true;
    }
    if !is_resting(code, &seats[i]) {
        return false;
    }
    none_sends(seats, i as u32)
}

/// Whether a site's agents are idle, and nothing waits for it.
fn is_resting<P>(code: &Code, seat: &Seat<P>) -> bool
    ensures yes { result ≡ true → IsResting code.now seat.now }
    ensures no { result ≡ false → IsResting code.now seat.now → ⊥ }
{
    if seat.waits {
        return false;
    }
    if seat.aside.is_some() {
        return false;
    }
    seat.site.idle(code)
}

/// Whether no site has an item for this one that is still to be put on its link.
fn none_sends<P>(seats: &[Seat<P>], to: u32) -> bool
    ensures yes { result ≡ true → NoneSends seats.now to }
    ensures no { result ≡ false → NoneSends seats.now to → ⊥ }
{
    for k in 0..seats.len() {
        if !seats[k].site.has_none_for(to) {
            return false;
        }
    }
    true
}
