//! How the event of what comes is recorded.

ghost use Rattle.std.specs.Prelude.{◌≡◌, ◌≢◌, ◌<◌, ◌+◌, ◌^◌, max, length};
ghost use Rattle.np_syntax.specs.declared.event.Kind.TheVariants as kind;
ghost use Rattle.stamp_history.specs.Histories.{IsAboveLast, with_event};

use np_syntax::Event;
use stamp_history::{Clock, History};

/// Records an event that takes an item with a stamp: the clock stands above both then.
pub fn record_taken(clock: &mut Clock, history: &mut History, stamp: u64, event: Event)
    requires room { length history.old.history.events < history.old.history.budget }
    requires kind { event.kind ≢ kind.Print }
    requires stamp { max clock.old stamp + 1 < 2 ^ 64 }
    requires last { IsAboveLast history.old.history.events (max clock.old stamp + 1) }
    ensures clock { clock.new ≡ max clock.old stamp + 1 }
    ensures history { history.new.history ≡ with_event history.old.history (record { stamp = max clock.old stamp + 1; event = event }) }
    ensures spare { history.new.spare ≡ history.old.spare }
{
    let stamp = clock.meet(stamp);
    history.push(stamp, event);
}
