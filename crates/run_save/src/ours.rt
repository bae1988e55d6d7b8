ghost use Rattle.std.specs.Prelude.{◌≡◌, ◌↔◌, ◌<◌, ◌^◌, length, IfOk, IsNone, IfSome, IsSome, MatchOption};
ghost use Rattle.np_calculus.specs.Reductions.{run};
ghost use Rattle.np_calculus.specs.Starts.{start_low};
ghost use Rattle.run_save.specs.Ours.{IsOurs, IsOursFrom, StopsBeingOurs};

use super::notes::Notes;
use np_configuration::{ApplyFail, Cfg, apply, start_low};
use np_syntax::{Event, LowProgram, Memory};
use std::alloc::Global;

/// Makes the events of a run one after another. The first that is not made as the sites make it is answered.
fn first_not_ours(alloc: Global, reached: &mut Cfg, events: &[Event]) -> Result<Option<u32>, Memory>
    requires run { IsSome (run reached.old events.now) }
    requires events { length events.now < 2 ^ 32 }
    ensures { IfOk result (λ until. MatchOption until (IsOursFrom reached.old events.now) (StopsBeingOurs reached.old events.now)) }
{
    let mut notes = Notes::new(alloc);
    let mut index = 0;
    for event in events {
        match apply(alloc, reached, event) {
            Ok(()) => {}
            Err(ApplyFail::NotEnabled) => unreachable!(),
            Err(ApplyFail::Memory) => return Err(Memory),
        }
        if !notes.note(reached, event)? {
            return Ok(Some(index));
        }
        index += 1;
    }
    Ok(None)
}

/// Whether a run from the start of the low program is one that its sites make by themselves; if not, the index of the last event
/// of the shortest prefix that is none. It is one pass over the events, in which no event walks over those before it.
pub fn ours_until(alloc: Global, low: &LowProgram, events: &[Event]) -> Result<Option<u32>, Memory>
    requires sites { length low.now.sites < 2 ^ 32 }
    requires run { IsSome (run (start_low low.now) events.now) }
    requires events { length events.now < 2 ^ 32 }
    ensures ours { IfOk result (λ until. IsNone until ↔ IsOurs low.now events.now) }
    ensures until { IfOk result (λ until. IfSome until (StopsBeingOurs (start_low low.now) events.now)) }
{
    match start_low(alloc, low) {
        Ok(mut reached) => {
            let until = first_not_ours(alloc, &mut reached, events);
            drop(reached);
            until
        }
        Err(memory) => Err(memory),
    }
}
