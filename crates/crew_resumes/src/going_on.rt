//! The events of a list, done again by the sites of a crew that has made none, and the run behind them.

ghost use Rattle.std.specs.Prelude.{◌≡◌, false, IfNone, IfOk, IfSome};
ghost use Rattle.np_code.specs.Programs.{program};
ghost use Rattle.run_save.specs.following.Following.{IsResumed};
ghost use Rattle.site_crew.specs.Crews.{HasEnded, HasRun};
ghost use Rattle.site_crew.specs.Lists.{IsToFollow};
ghost use Rattle.site_crew.specs.Seats.{event_count};
ghost use Rattle.crew_resumes.specs.ToGoOn.{IsToGoOn};

use agent_move::Item;
use np_syntax::{End, Event, LowProgram, Memory};
use run_save::following::law_resumes;
use site_crew::Crew;
use site_links::Port;
use site_turn::Gate;
use std::thread::Threads;

/// A crew that has made no event does these, if it can, and runs on. None where it cannot: then they are no run that its sites make by
/// themselves, within the budget.
pub fn redone<R: Threads + Sync, P: Port<R, Item>, G: Gate>(
    crew: &mut Crew<R, P>,
    rt: &R,
    gate: &G,
    _low: &LowProgram,
    events: &[Event],
    serial: bool,
) -> Result<Option<End>, Memory>
    requires code { program crew.old.code ≡ _low.now }
    requires none { event_count crew.old.histories ≡ 0 }
    requires sound { crew.old.failed ≡ false }
    ensures code { crew.new.code ≡ crew.old.code }
    ensures budget { crew.new.budget ≡ crew.old.budget }
    ensures run { HasRun crew.new }
    ensures ended { IfOk result (λ made. IfSome made (HasEnded crew.new)) }
    ensures resumed { IfOk result (λ made. IfSome made (λ _. IsResumed events.now crew.new.histories)) }
    ensures followed { IfOk result (λ made. IfSome made (λ _. IsToGoOn _low.now crew.old.budget events.now)) }
    ensures never { IfOk result (λ made. IfNone made (IsToFollow _low.now crew.old.budget events.now → ⊥)) }
{
    law_resumes();
    if !crew.redo(rt, events)? {
        return Ok(None);
    }
    match crew.run(rt, gate, serial) {
        Ok(end) => Ok(Some(end)),
        Err(memory) => Err(memory),
    }
}
