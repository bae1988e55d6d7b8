//! How a crew begins: with no event, or with events that it does again.

ghost use Rattle.std.specs.Prelude.{◌≡◌, false, IfNone, IfOk, IfSome};
ghost use Rattle.np_code.specs.Programs.{program};
ghost use Rattle.site_crew.specs.Crews.{HasEnded};
ghost use Rattle.site_crew.specs.Seats.{event_count};
ghost use Rattle.np_on_sites.specs.Beginnings.{HasBegun, IsStopped};

use agent_move::Item;
use crew_resumes::redone;
use np_syntax::{End, Event, LowProgram, Memory};
use site_crew::Crew;
use site_links::Port;
use site_turn::Gate;
use std::thread::Threads;

/// What the sites of a low program do before they run on by themselves.
#[derive(Clone, Copy)]
pub(crate) enum Beginning {
    /// Nothing.
    Anew,
    /// They do events again, if they can.
    Again,
}

/// A crew that has made no event begins so, and runs to its end. None where it cannot do the events again.
pub(crate) fn begin<R: Threads + Sync, P: Port<R, Item>, G: Gate>(
    crew: &mut Crew<R, P>,
    rt: &R,
    gate: &G,
    low: &LowProgram,
    beginning: Beginning,
    events: &[Event],
    serial: bool,
) -> Result<Option<End>, Memory>
    requires code { program crew.old.code ≡ low.now }
    requires none { event_count crew.old.histories ≡ 0 }
    requires sound { crew.old.failed ≡ false }
    ensures code { crew.new.code ≡ crew.old.code }
    ensures budget { crew.new.budget ≡ crew.old.budget }
    ensures ended { IfOk result (λ made. IfSome made (HasEnded crew.new)) }
    ensures begun { IfOk result (λ made. IfSome made (λ _. HasBegun beginning low.now crew.old.budget events.now crew.new.histories)) }
    ensures stopped { IfOk result (λ made. IfNone made (IsStopped beginning low.now crew.old.budget events.now)) }
{
    match beginning {
        Beginning::Anew => match crew.run(rt, gate, serial) {
            Ok(end) => Ok(Some(end)),
            Err(memory) => Err(memory),
        },
        Beginning::Again => redone(crew, rt, gate, low, events, serial),
    }
}
