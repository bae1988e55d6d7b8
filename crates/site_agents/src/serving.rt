ghost use Rattle.std.specs.Prelude.{◌≡◌, ◌<◌, ◌≤◌, ◌↔◌, [], false, true, IfSome, IfNone, IsTrue, Some};
ghost use Rattle.std.specs.FinMap as map;
ghost use Rattle.agent_pool.specs.Readies.{NoPost};
ghost use Rattle.site_agents.specs.Queues.{waits, Keeps, KeepsBut, Leaves};
ghost use Rattle.site_agents.specs.Rounds.{GoesOn, with_changed, doubted, called, settled};
ghost use Rattle.site_agents.specs.Standings.{agents_of, CanDo, CanNothing, NoneCan, NoneCanDo, IdleAt, AreIdle};
ghost use Rattle.site_agents.specs.declared.seat.Seat.{Seat as Sat};

use super::queue::Queue;
use super::seat::Seat;
use agent_pool::{Agent, Ready};
use np_code::Code;
use np_syntax::Name;
use np_tables::Table;

/// What the agent of a name can do, if its index tells any.
fn likely(code: &Code, seats: &Table<Seat>, name: Name) -> Option<Ready>
    ensures post { IfSome result NoPost }
    ensures some { IfSome result (CanDo code.now (agents_of seats.now.items) name) }
{
    match seats.get(name) {
        Some(seat) => seat.agent.likely(code),
        None => None,
    }
}

/// What the agent of a name can do, and none exactly where it can do nothing.
fn exact(code: &Code, seats: &Table<Seat>, name: Name) -> Option<Ready>
    ensures post { IfSome result NoPost }
    ensures some { IfSome result (CanDo code.now (agents_of seats.now.items) name) }
    ensures none { IfNone result ((s : Sat) → map.get seats.now.items name ≡ Some s → CanNothing code.now s.agent) }
{
    match seats.get(name) {
        Some(seat) => seat.agent.first_ready(code),
        None => None,
    }
}

/// An agent is doubtful, and has no turn.
fn doubt(seats: &mut Table<Seat>, doubtful: &mut Queue, name: Name)
    ensures seats { seats.new ≡ with_changed seats.old name doubted }
    ensures keeps { Keeps doubtful.old doubtful.new }
    ensures waits { (s : Sat) → map.get seats.old.items name ≡ Some s → s.doubted ≡ false → waits doubtful.new name ≡ true }
{
    let Some(seat) = seats.get_mut(name) else {
        return;
    };
    if !seat.doubted {
        doubtful.push(name);
    }
    seat.queued = false;
    seat.doubted = true;
}

/// An agent has a turn, and is not doubtful.
fn call(seats: &mut Table<Seat>, turns: &mut Queue, name: Name)
    ensures seats { seats.new ≡ with_changed seats.old name called }
    ensures keeps { Keeps turns.old turns.new }
    ensures waits { (s : Sat) → map.get seats.old.items name ≡ Some s → s.queued ≡ false → waits turns.new name ≡ true }
{
    let Some(seat) = seats.get_mut(name) else {
        return;
    };
    if !seat.queued {
        turns.push(name);
    }
    seat.queued = true;
    seat.doubted = false;
}

/// An agent is not doubtful.
fn settle(seats: &mut Table<Seat>, name: Name)
    ensures { seats.new ≡ with_changed seats.old name settled }
{
    if let Some(seat) = seats.get_mut(name) {
        seat.doubted = false;
    }
}

/// Serves the first in turn whose index tells what it can do, which comes last then. Those before it of which none is
/// told are doubtful.
pub fn next_likely(
    code: &Code,
    seats: &mut Table<Seat>,
    turns: &mut Queue,
    doubtful: &mut Queue,
) -> Option<(Name, Ready)>
    ensures goes { GoesOn code.now seats.old turns.old doubtful.old seats.new turns.new doubtful.new }
    ensures post { IfSome result (λ found. NoPost found.1) }
    ensures some { IfSome result (λ found. CanDo code.now (agents_of seats.new.items) found.0 found.1) }
    ensures none { IfNone result (turns.new.names ≡ []) }
{
    while let Some(name) = turns.pop() {
        if let Some(ready) = likely(code, seats, name) {
            turns.push(name);
            return Some((name, ready));
        }
        doubt(seats, doubtful, name);
    }
    None
}

/// Serves the first of the doubtful that can do anything, which has a turn then. Those before it are doubtful no more.
pub fn next_doubtful(
    code: &Code,
    seats: &mut Table<Seat>,
    turns: &mut Queue,
    doubtful: &mut Queue,
) -> Option<(Name, Ready)>
    ensures goes { GoesOn code.now seats.old turns.old doubtful.old seats.new turns.new doubtful.new }
    ensures post { IfSome result (λ found. NoPost found.1) }
    ensures some { IfSome result (λ found. CanDo code.now (agents_of seats.new.items) found.0 found.1) }
    ensures turns { IfNone result (turns.new ≡ turns.old) }
    ensures none { IfNone result (doubtful.new.names ≡ []) }
{
    while let Some(name) = doubtful.pop() {
        if let Some(ready) = exact(code, seats, name) {
            call(seats, turns, name);
            return Some((name, ready));
        }
        settle(seats, name);
    }
    None
}

/// Any agent that can do something, and none exactly where none can. It walks over them.
pub fn any_ready(code: &Code, seats: &Table<Seat>) -> Option<(Name, Ready)>
    ensures post { IfSome result (λ found. NoPost found.1) }
    ensures some { IfSome result (λ found. CanDo code.now (agents_of seats.now.items) found.0 found.1) }
    ensures none { IfNone result (NoneCan code.now (agents_of seats.now.items)) }
{
    for at in 0..seats.len() {
        let name = seats.key(at);
        if let Some(ready) = exact(code, seats, name) {
            return Some((name, ready));
        }
    }
    None
}

/// An agent that can do this, and none exactly where none can. It walks over them.
pub fn who_can(code: &Code, seats: &Table<Seat>, r: Ready) -> Option<Name>
    ensures some { IfSome result (λ name. CanDo code.now (agents_of seats.now.items) name r) }
    ensures none { IfNone result (NoneCanDo code.now (agents_of seats.now.items) r) }
{
    for at in 0..seats.len() {
        let name = seats.key(at);
        if can_do(code, seats, name, r) {
            return Some(name);
        }
    }
    None
}

/// Whether the agent of a name can do this, if there is one.
fn can_do(code: &Code, seats: &Table<Seat>, name: Name, r: Ready) -> bool
    ensures { IsTrue result ↔ CanDo code.now (agents_of seats.now.items) name r }
{
    match seats.get(name) {
        Some(seat) => seat.agent.is_ready(code, r),
        None => false,
    }
}

/// Whether each agent is idle. It walks over them.
pub fn all_idle(code: &Code, seats: &Table<Seat>) -> bool
    ensures { IsTrue result ↔ AreIdle code.now.processes (agents_of seats.now.items) }
{
    for at in 0..seats.len() {
        if !is_idle(code, seats, seats.key(at)) {
            return false;
        }
    }
    true
}

/// Whether the agent of a name is idle, if there is one.
fn is_idle(code: &Code, seats: &Table<Seat>, name: Name) -> bool
    ensures { IsTrue result ↔ IdleAt code.now.processes (agents_of seats.now.items) name }
{
    match seats.get(name) {
        Some(seat) => seat.agent.idle(code),
        None => true,
    }
}

/// Takes a seat out, and its name out of the queue of those with a turn. Among the doubtful its name may stay: of an agent
/// that is not here it is passed over.
pub fn take_seat(seats: &mut Table<Seat>, turns: &mut Queue, name: Name) -> Option<Agent>
    ensures agent { result ≡ map.get (agents_of seats.old.items) name }
    ensures items { seats.new.items ≡ map.remove seats.old.items name }
    ensures spare { seats.old.spare ≤ seats.new.spare }
    ensures gone { (s : Sat) → map.get seats.old.items name ≡ Some s → IsTrue s.queued → Leaves name turns.old turns.new }
    ensures turns { KeepsBut name turns.old turns.new }
{
    match seats.take(name) {
        Some(seat) => {
            leave(turns, name, seat.queued);
            Some(seat.agent)
        }
        None => None,
    }
}

/// A name goes, if it stands in the queue.
fn leave(queue: &mut Queue, name: Name, stands: bool)
    ensures gone { IsTrue stands → Leaves name queue.old queue.new }
    ensures keeps { KeepsBut name queue.old queue.new }
{
    if stands {
        queue.leave(name);
    }
}
