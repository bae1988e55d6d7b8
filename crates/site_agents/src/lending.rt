ghost use Rattle.std.specs.Prelude.{◌≡◌, false, true, Some};
ghost use Rattle.std.specs.Borrow.{sem};
ghost use Rattle.std.specs.FinMap as map;
ghost use Rattle.np_tables.specs.Lent.{IsPlace};
ghost use Rattle.site_agents.specs.LentSeats.{lends_seated};
ghost use Rattle.site_agents.specs.Queues.{waits, Keeps};
ghost use Rattle.site_agents.specs.Rounds.{with_changed, again};
ghost use Rattle.site_agents.specs.Standings.{agents_of};
ghost use Rattle.site_agents.specs.declared.seat.Seat.{Seat as Sat};

use super::queue::Queue;
use super::seat::Seat;
use agent_pool::Agent;
use np_syntax::Name;
use np_tables::Table;

/// The agent of the name at an index of the walk has a turn.
pub fn call_again(seats: &mut Table<Seat>, turns: &mut Queue, name: Name, index: usize)
    requires { IsPlace seats.old.keys name index }
    ensures seats { seats.new ≡ with_changed seats.old name again }
    ensures keeps { Keeps turns.old turns.new }
    ensures waits { (s : Sat) → map.get seats.old.items name ≡ Some s → s.queued ≡ false → waits turns.new name ≡ true }
{
    let seat = seats.value_at(name, index);
    if !seat.queued {
        turns.push(name);
    }
    seat.queued = true;
}

/// The agent of the name at an index of the walk, to be changed in place.
pub fn agent_at(seats: &mut Table<Seat>, name: Name, index: usize) -> &mut Agent
    requires { IsPlace seats.old.keys name index }
    ensures* writes_back { sem 𝓛 (lends_seated seats.entry name result) }
    ensures value { Some result.now ≡ map.get (agents_of seats.old.items) name }
{
    let seat = seats.value_at(name, index);
    &mut seat.agent
}
