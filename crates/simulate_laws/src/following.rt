//! Following events that are a run.

ghost use Rattle.std.specs.Prelude.{◌≡◌, Some, IfOk, OnOk};
ghost use Rattle.np_calculus.specs.Reductions.{run};
ghost use Rattle.np_calculus.specs.Well.{Has};

use np_configuration::{ApplyFail, Cfg, apply};
use np_syntax::{Event, Memory};
use std::alloc::Global;

/// Makes the events of a run one after another.
fn follow_on(alloc: Global, reached: &mut Cfg, events: &[Event]) -> Result<(), Memory>
    requires { Has (run reached.old events.now) }
    ensures { OnOk result (run reached.old events.now ≡ Some reached.new) }
{
    for event in events {
        match apply(alloc, reached, event) {
            Ok(()) => {}
            Err(ApplyFail::Memory) => return Err(Memory),
            Err(ApplyFail::NotEnabled) => unreachable!(),
        }
    }
    Ok(())
}

/// The configuration to which a run leads.
pub(crate) fn follow(alloc: Global, start: Cfg, events: &[Event]) -> Result<Cfg, Memory>
    requires { Has (run start events.now) }
    ensures { IfOk result (λ last. run start events.now ≡ Some last) }
{
    let mut reached = start;
    match follow_on(alloc, &mut reached, events) {
        Ok(()) => Ok(reached),
        Err(fail) => {
            drop(reached);
            Err(fail)
        }
    }
}
