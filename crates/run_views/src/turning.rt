//! The events of a run, one after another.

ghost use Rattle.std.specs.Prelude.{◌≡◌, IsSome, OnOk, Some};
ghost use Rattle.np_calculus.specs.Reductions.{apply};
ghost use Rattle.run_views.specs.Stepped.{agent_at};

use np_configuration::{ApplyFail, Cfg, apply};
use np_syntax::{Event, Memory, Name};
use std::alloc::Global;

/// Makes an event that is enabled.
pub(super) fn turn(alloc: Global, reached: &mut Cfg, event: &Event) -> Result<(), Memory>
    requires { IsSome (apply reached.old event.now) }
    ensures { OnOk result (apply reached.old event.now ≡ Some reached.new) }
{
    match apply(alloc, reached, event) {
        Ok(()) => Ok(()),
        Err(ApplyFail::Memory) => Err(Memory),
        Err(ApplyFail::NotEnabled) => unreachable!(),
    }
}

/// The agent of the atom of a mark.
pub(super) fn agent_at(reached: &Cfg, mark: Name) -> Option<Name>
    ensures { result ≡ agent_at reached.now mark }
{
    Some(reached.atom(mark)?.agent)
}
